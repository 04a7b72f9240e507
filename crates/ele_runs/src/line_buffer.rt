//! A line that began in an earlier piece.
//! A contract sees it as `Some` of its bytes, or as `None` if it is too long.
ghost use Rattle.std.specs.Prelude.{◌≡◌, ◌↔◌, ◌++◌, [], IfOk, IsTrue, Some};
ghost use Rattle.std.specs.Option.{option_map, option_and_then};
ghost use Rattle.ele_runs.specs.LineLength.{line_unless_long};

use ele_moment::NoMemory;
use ele_script::LONGEST_LINE;
use std::alloc::Global;
use std::marker::Model;

/// A line without its line feed, or the fact that it is too long. It has memory for the longest line.
#[derive(Drop)]
pub struct LineBuffer {
    bytes: Vec<u8>,
    is_too_long: bool,
}

impl Model for LineBuffer {
    ghost use Rattle.std.specs.Prelude.{◌≤◌, ℕ, List, Option, Some, None, if◌then◌else◌, length, vec_capacity};
    ghost use Rattle.ele_script.specs.Words.{longest_line};

    ghost Value = { Option (List ℕ) };

    ghost view = { λ b. if b.is_too_long then None else Some b.bytes.items };

    ghost invariant = { λ b. (length b.bytes.items ≤ longest_line) × (longest_line ≤ vec_capacity b.bytes) };
}

impl LineBuffer {
    /// Makes an empty line. `NoMemory` if memory for the longest line is refused.
    pub(crate) fn new(alloc: Global) -> Result<LineBuffer, NoMemory>
        ensures { IfOk result (λ line. line ≡ Some []) }
    {
        Ok(LineBuffer {
            bytes: Vec::with_capacity(alloc, LONGEST_LINE)?,
            is_too_long: false,
        })
    }

    /// Copies a line over this one, or notes that it is too long.
    pub(crate) fn keep(&mut self, line: Option<&[u8]>)
        ensures { self.new ≡ option_and_then line_unless_long
            (option_map (λ line. line.now) line.entry) }
    {
        self.clear();
        match line {
            Some(line) => self.extend(line),
            None => self.is_too_long = true,
        }
    }

    /// Copies another line over this one.
    pub(crate) fn copy_from(&mut self, other: &LineBuffer)
        ensures { self.new ≡ other.now }
    {
        self.clear();
        self.is_too_long = other.is_too_long;
        self.extend(other.bytes.as_slice());
    }

    /// Empties the line.
    pub(crate) fn clear(&mut self)
        ensures { self.new ≡ Some [] }
    {
        self.bytes.clear();
        self.is_too_long = false;
    }

    /// Appends bytes.
    pub(crate) fn extend(&mut self, bytes: &[u8])
        ensures { self.new
            ≡ option_and_then (λ line. line_unless_long (line ++ bytes.now)) self.old }
    {
        let has_room = bytes.len() <= LONGEST_LINE - self.bytes.len();
        if !has_room || self.bytes.extend_from_slice(bytes).is_err() {
            self.is_too_long = true;
        }
    }

    /// Whether the line has no bytes.
    pub(crate) fn is_empty(&self) -> bool
        ensures { IsTrue result ↔ (self.now ≡ Some []) }
    {
        self.bytes.is_empty() && !self.is_too_long
    }

    /// Returns the line, or `None` if it is too long.
    pub fn line(&self) -> Option<&[u8]>
        ensures { option_map (λ line. line.now) result ≡ self.now }
    {
        if self.is_too_long {
            return None;
        }
        Some(self.bytes.as_slice())
    }
}

/// Returns the line, or `None` if it is too long.
pub fn kept_line(line: &[u8]) -> Option<&[u8]>
    ensures { option_map (λ line. line.now) result ≡ line_unless_long line.now }
{
    if line.len() > LONGEST_LINE {
        return None;
    }
    Some(line)
}
