//! Counts the lines of a run that were not answered by `ok`, and keeps the first of them.
//! A contract sees a tally as its numbers, and a line as its bytes unless it is too long.
ghost use Rattle.std.specs.Prelude.{◌≡◌, ◌+◌, ◌<◌, ◌^◌, None, IsSome};
ghost use Rattle.std.specs.Option.{option_map};
ghost use Rattle.ele_runs.specs.Tally.{cut_tallied, fresh_tally, is_well, tallied, whole_bad, with_bad, with_first};

use crate::line_buffer::LineBuffer;

/// The kind of the answer to a line.
#[derive(Clone, Copy, PartialEq, Eq)]
pub enum Outcome {
    /// `ok`, or no answer.
    Well,
    /// `bad`.
    Bad,
    /// `no`.
    Refused,
    /// `stop`.
    Stopped,
}

/// A line that was answered by `bad`.
#[derive(Drop)]
pub struct BadLine {
    /// Its number, counted from 1.
    pub number: u64,
    /// The line, unless it is too long.
    pub line: LineBuffer,
    /// Whether it is a last line without its line feed, which is never run.
    pub is_cut: bool,
}

/// The numbers of lines that were not answered by `ok`, and the first of them.
#[derive(Drop)]
pub struct Tally {
    /// The number of lines that were answered by `bad`.
    pub bad: u64,
    /// The number of lines that were answered by `no`.
    pub refused: u64,
    /// The number of lines that were answered by `stop`.
    pub stopped: u64,
    /// The number of the first of these lines, counted from 1.
    pub first: Option<u64>,
    /// The first line that was answered by `bad`.
    pub first_bad: Option<BadLine>,
}

impl Tally {
    /// Makes the tally of no lines.
    pub(crate) fn new() -> Tally
        ensures { result ≡ fresh_tally }
    {
        Tally {
            bad: 0,
            refused: 0,
            stopped: 0,
            first: None,
            first_bad: None,
        }
    }

    /// Counts the line with this number and this outcome. Returns whether it was answered by `ok`, or
    /// not at all. The first bad line is copied into `spare`.
    pub(crate) fn add(
        &mut self,
        number: u64,
        line: Option<&[u8]>,
        outcome: Outcome,
        spare: &mut Option<LineBuffer>,
    ) -> bool
        requires bad { self.old.bad + 1 < 2 ^ 64 }
        requires refused { self.old.refused + 1 < 2 ^ 64 }
        requires stopped { self.old.stopped + 1 < 2 ^ 64 }
        requires spare { self.old.first_bad ≡ None → IsSome spare.old }
        ensures spare { self.new.first_bad ≡ None → IsSome spare.new }
        ensures counts { self.new ≡ tallied self.old number
            (option_map (λ line. line.now) line.entry) outcome }
        ensures well { result ≡ is_well outcome }
    {
        match outcome {
            Outcome::Well => return true,
            Outcome::Bad => self.add_bad(number, line, spare),
            Outcome::Refused => self.refused += 1,
            Outcome::Stopped => self.stopped += 1,
        }
        self.note_first(number);
        false
    }

    /// Counts a last line without its line feed, which is bad unless it is empty.
    pub(crate) fn add_cut(&mut self, number: u64, line: &LineBuffer, spare: &mut Option<LineBuffer>)
        requires bad { self.old.bad + 1 < 2 ^ 64 }
        requires spare { self.old.first_bad ≡ None → IsSome spare.old }
        ensures { self.new ≡ cut_tallied self.old number line.now }
    {
        if line.is_empty() {
            return;
        }
        self.bad += 1;
        if self.first_bad.is_none()
            && let Some(mut kept) = spare.take()
        {
            kept.copy_from(line);
            self.first_bad = Some(BadLine {
                number,
                line: kept,
                is_cut: true,
            });
        }
        self.note_first(number);
    }

    // Counts a bad line. Only the first one is copied.
    #[inline(never)]
    fn add_bad(&mut self, number: u64, line: Option<&[u8]>, spare: &mut Option<LineBuffer>)
        requires bad { self.old.bad + 1 < 2 ^ 64 }
        requires spare { self.old.first_bad ≡ None → IsSome spare.old }
        ensures first { IsSome self.new.first_bad }
        ensures counts { self.new ≡ with_bad self.old
            (whole_bad number (option_map (λ line. line.now) line.entry)) }
    {
        self.bad += 1;
        if self.first_bad.is_none()
            && let Some(mut kept) = spare.take()
        {
            kept.keep(line);
            self.first_bad = Some(BadLine {
                number,
                line: kept,
                is_cut: false,
            });
        }
    }

    // Keeps the number of a line, if it is the first.
    fn note_first(&mut self, number: u64)
        ensures { self.new ≡ with_first self.old number }
    {
        self.first = self.first.or(Some(number));
    }
}
