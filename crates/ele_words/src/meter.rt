//! The progress of a run or a forecast at a terminal: how many lines were read and written by now.
//! A contract sees a wrapped stream as the stream itself. Progress goes to a writer of its own.
ghost use Rattle.std.specs.Prelude.{◌≡◌};

use arrayvec::ArrayString;
use ele_output::write_all;
use std::cell::RefCell;
use std::fmt::Write as _;
use std::io;
use std::io::{Read, Write};
use std::time::{Clock, Duration, Instant};

// Milliseconds before the progress is first shown, and at least between two times.
const PAUSE: u64 = 1_000;

// Removes the line from the terminal.
const CLEAR: &[u8] = b"\r\x1b[K";

// The longest line of progress has fewer bytes.
const ROOM: usize = 128;

/// How many lines were read and written by now, in one line of a terminal that is rewritten in
/// place. Errors of the clock and of the terminal are ignored.
#[derive(Drop)]
pub struct Meter<T: Clock, P: Write>(RefCell<Counts<T, P>>);

#[derive(Drop)]
struct Counts<T: Clock, P: Write> {
    clock: T,
    terminal: P,
    read: u64,
    written: u64,
    // When it was shown last, or when it began.
    last: Option<Instant>,
    is_shown: bool,
}

impl<T: Clock, P: Write> Counts<T, P> {
    fn show_if_due(&mut self) {
        if self.is_due() {
            let (read, written) = (self.read, self.written);
            show(read, written, &mut self.terminal);
            self.is_shown = true;
        }
    }

    // Whether the last time is long enough ago. If it is, now becomes the last time.
    fn is_due(&mut self) -> bool {
        let (Some(last), Ok(now)) = (self.last, Instant::now(&self.clock)) else {
            return false;
        };
        let is_due = now.duration_since(last) >= Duration::from_millis(PAUSE);
        if is_due {
            self.last = Some(now);
        }
        is_due
    }

    fn clear(&mut self) {
        if self.is_shown {
            let _ = write_all(&mut self.terminal, CLEAR);
            let _ = self.terminal.flush();
            self.is_shown = false;
        }
    }
}

// Writes the line over the one before it, which is no longer.
fn show<P: Write>(read: u64, written: u64, terminal: &mut P) {
    let mut line = ArrayString::<ROOM>::new();
    let text = if written == 0 {
        write!(line, "\relephant: {read} lines read")
    } else {
        write!(line, "\relephant: {read} lines read, {written} written")
    };
    if text.is_ok() {
        let _ = write_all(terminal, line.as_str().as_bytes());
        let _ = terminal.flush();
    }
}

// How many lines end in these bytes.
fn lines_in(bytes: &[u8]) -> u64 {
    let mut count = 0u64;
    for byte in bytes {
        if *byte == b'\n' {
            count = count.saturating_add(1);
        }
    }
    count
}

impl<T: Clock, P: Write> Meter<T, P> {
    /// The progress of what begins now, to be shown at this terminal.
    pub fn new(clock: T, terminal: P) -> Meter<T, P> {
        let last = Instant::now(&clock).ok();
        Meter(RefCell::new(Counts {
            clock,
            terminal,
            read: 0,
            written: 0,
            last,
            is_shown: false,
        }))
    }

    /// Removes the line from the terminal, if it is there.
    pub fn clear(&self) {
        if let Ok(mut counts) = self.0.try_borrow_mut() {
            counts.clear();
        }
    }

    fn count_read(&self, bytes: &[u8]) {
        if let Ok(mut counts) = self.0.try_borrow_mut() {
            counts.read = counts.read.saturating_add(lines_in(bytes));
            counts.show_if_due();
        }
    }

    fn count_written(&self, bytes: &[u8]) {
        if let Ok(mut counts) = self.0.try_borrow_mut() {
            counts.written = counts.written.saturating_add(lines_in(bytes));
            counts.show_if_due();
        }
    }
}

/// A reader or a writer that counts its lines, if there is a progress to count them for. The progress
/// is shown after a read or a write, at most once a second.
#[derive(Drop)]
pub struct Counted<'p, S: Drop, T: Clock, P: Write> {
    end: S,
    meter: Option<&'p Meter<T, P>>,
}

impl<'p, S: Drop, T: Clock, P: Write> Counted<'p, S, T, P> {
    /// Wraps a stream.
    pub fn new(end: S, meter: Option<&'p Meter<T, P>>) -> Counted<'p, S, T, P>
        ensures { result.end ≡ end }
    {
        Counted { end, meter }
    }
}

impl<'p, R: Read + Drop, T: Clock, P: Write> Read for Counted<'p, R, T, P> {
    ghost remaining = { λ counted. R.remaining counted.end };

    fn read(&mut self, buf: &mut [u8]) -> io::Result<usize> {
        let read = self.end.read(buf);
        if let Some(meter) = self.meter
            && let Ok(count) = &read
        {
            meter.count_read(&buf[..*count]);
        }
        read
    }
}

impl<'p, W: Write + Drop, T: Clock, P: Write> Write for Counted<'p, W, T, P> {
    ghost contents = { λ counted. W.contents counted.end };

    fn write(&mut self, buf: &[u8]) -> io::Result<usize> {
        let written = self.end.write(buf);
        if let Some(meter) = self.meter
            && let Ok(count) = &written
        {
            meter.count_written(&buf[..*count]);
        }
        written
    }

    fn flush(&mut self) -> io::Result<()> {
        self.end.flush()
    }
}

/// A writer to the terminal that shows a progress, if there is one. The progress is removed before
/// each write.
#[derive(Drop)]
pub struct Cleared<'p, W: Drop, T: Clock, P: Write> {
    end: W,
    meter: Option<&'p Meter<T, P>>,
}

impl<'p, W: Drop, T: Clock, P: Write> Cleared<'p, W, T, P> {
    /// Wraps a writer.
    pub fn new(end: W, meter: Option<&'p Meter<T, P>>) -> Cleared<'p, W, T, P>
        ensures { result.end ≡ end }
    {
        Cleared { end, meter }
    }
}

impl<'p, W: Write + Drop, T: Clock, P: Write> Write for Cleared<'p, W, T, P> {
    ghost contents = { λ cleared. W.contents cleared.end };

    fn write(&mut self, buf: &[u8]) -> io::Result<usize> {
        if let Some(meter) = self.meter {
            meter.clear();
        }
        self.end.write(buf)
    }

    fn flush(&mut self) -> io::Result<()> {
        self.end.flush()
    }
}
