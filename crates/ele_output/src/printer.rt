//! A buffered writer, which remembers whether it failed.
ghost use Rattle.std.specs.Prelude.{◌≡◌, ◌<◌, ◌≤◌, ◌∷◌, ◌++◌, [], false, length};
ghost use Rattle.std.specs.Result.{is_err};
ghost use Rattle.ele_output.specs.Front.{WritesText};
ghost use Rattle.ele_output.specs.Outlet.{HandsOver, Outputs, Reports, Sends, room};
ghost use Rattle.ele_output.specs.Prints.{outlet, Prints};

use crate::fault::WriteFault;
use arrayvec::ArrayVec;
use std::io::{ErrorKind, Write};

/// The size of a printer's buffer, in bytes.
pub const ROOM: usize = 8192;

/// A writer and a buffer. Once the writer has failed it gets no more bytes, and later output is
/// lost; `hand_over` returns the fault. Output that is still in the buffer when a printer is
/// dropped is lost too.
#[derive(Drop)]
pub struct Printer<'w, W: Write> {
    held: ArrayVec<u8, ROOM>,
    writer: &'w mut W,
    has_failed: bool,
}

impl<'w, W: Write> Printer<'w, W> {
    /// Makes a printer with an empty buffer.
    pub fn new(writer: &'w mut W) -> Printer<'w, W>
        ensures writer { result.writer.ghost_name ≡ writer.entry.ghost_name }
        ensures known { W.contents result.writer.now ≡ W.contents writer.old }
        ensures held { result.held.items ≡ [] }
        ensures well { result.has_failed ≡ false }
    {
        Printer {
            held: ArrayVec::new(),
            writer,
            has_failed: false,
        }
    }

    /// Returns a fault if the writer has failed.
    pub fn check(&self) -> Result<(), WriteFault>
        ensures { is_err result ≡ self.now.has_failed }
    {
        if self.has_failed {
            Err(WriteFault)
        } else {
            Ok(())
        }
    }

    /// Returns the bytes in the buffer.
    pub fn held(&self) -> &[u8]
        ensures held { result.now ≡ self.now.held.items }
        ensures fits { length result.now ≤ room }
    {
        self.held.as_slice()
    }

    /// Writes the buffer to the writer. Returns a fault if the writer fails, or has failed before:
    /// then it took a prefix of all output.
    pub fn hand_over(&mut self) -> Result<(), WriteFault>
        ensures { HandsOver (outlet W.contents self.old) (outlet W.contents self.new) [] result }
    {
        self.send_held();
        self.check()
    }

    /// Writes the buffer to the writer, and flushes that. The writer has all output then, or it has
    /// failed, which `check` returns.
    pub fn flush(&mut self)
        ensures { Reports (outlet W.contents self.old) (outlet W.contents self.new) [] }
    {
        self.send_held();
        if self.writer.flush().is_err() {
            self.has_failed = true;
        }
    }

    /// Prints bytes after the others.
    pub fn put(&mut self, bytes: &[u8])
        ensures { Prints W.contents self.old self.new bytes.now }
    {
        if self.held.try_extend_from_slice(bytes).is_err() {
            self.put_behind(bytes);
        }
    }

    /// Prints a byte after the others.
    pub fn put_byte(&mut self, byte: u8)
        ensures { Prints W.contents self.old self.new (byte ∷ []) }
    {
        if self.held.is_full() {
            self.put_behind(&[byte]);
        } else {
            self.held.push(byte);
        }
    }

    // Writes the buffer first, and then prints bytes that have no room behind it, into the buffer if they
    // fit alone.
    #[inline(never)]
    fn put_behind(&mut self, bytes: &[u8])
        requires { room < length (self.old.held.items ++ bytes.now) }
        ensures { Prints W.contents self.old self.new bytes.now }
    {
        self.send_held();
        match self.held.try_extend_from_slice(bytes) {
            Ok(()) => {}
            Err(_) => self.has_failed = send(self.writer, bytes, self.has_failed),
        }
    }

    // Writes the buffer to the writer, and empties it.
    fn send_held(&mut self)
        ensures sent { Outputs (outlet W.contents self.old) (outlet W.contents self.new) [] }
        ensures none { self.new.held.items ≡ [] }
    {
        self.has_failed = send(self.writer, self.held.as_slice(), self.has_failed);
        self.held.clear();
    }
}

// Writes bytes to a writer that has not failed, and returns whether it has failed now.
fn send<W: Write>(writer: &mut W, bytes: &[u8], has_failed: bool) -> bool
    ensures { Sends (W.contents writer.old) (W.contents writer.new) bytes.now has_failed result }
{
    has_failed || write_all(writer, bytes).is_err()
}

/// Writes all of the bytes. At a fault the writer took a prefix of them.
pub fn write_all<W: Write>(writer: &mut W, bytes: &[u8]) -> Result<(), WriteFault>
    ensures { WritesText bytes.now (W.contents writer.old) (W.contents writer.new) result }
{
    let mut rest = bytes;
    'parts: for _ in 0..u64::MAX {
        if rest.is_empty() {
            return Ok(());
        }
        match writer.write(rest) {
            Ok(0) => return Err(WriteFault),
            Ok(n) => rest = rest.split_at(n).1,
            Err(e) => {
                if e.kind() != ErrorKind::Interrupted {
                    return Err(WriteFault);
                }
            }
        }
    }
    Err(WriteFault)
}
