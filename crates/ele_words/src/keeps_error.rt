//! A reader or a writer that keeps the reason of its last error.
//! A contract sees it as the stream that it wraps.
ghost use Rattle.std.specs.Prelude.{◌≡◌, OnOk, IfErr};
ghost use Rattle.std.specs.IoError.{error_kind, raw_os_error};
ghost use Rattle.ele_words.specs.SystemError.{reason_after};

use crate::system_reason::{SystemReason, system_reason};
use std::io;
use std::io::{ErrorKind, Read, Write};

/// A reader or a writer that may know why it failed.
pub trait LastError {
    /// Returns the reason of the last error, if it is a known one. No clause says which it is.
    fn why_failed(&self) -> Option<SystemReason>;
}

/// Wraps a reader or a writer, and keeps the reason of its last error.
#[derive(Drop)]
pub struct KeepsError<T: Drop> {
    end: T,
    failed: Option<SystemReason>,
}

impl<T: Drop> KeepsError<T> {
    /// Wraps a stream, with no error so far.
    pub fn new(end: T) -> KeepsError<T>
        ensures { result.end ≡ end }
    {
        KeepsError { end, failed: None }
    }
}

impl<T: Drop> KeepsError<T> {
    // Keeps the reason of an error. An interrupted call is no failure, as it is tried again.
    fn note<A>(&mut self, done: &io::Result<A>)
        ensures end { self.new.end ≡ self.old.end }
        ensures ok { OnOk done.now (self.new.failed ≡ self.old.failed) }
        ensures err { IfErr done.now (λ error. self.new.failed
            ≡ reason_after self.old.failed (error_kind error) (raw_os_error error)) }
    {
        if let Err(error) = done
            && error.kind() != ErrorKind::Interrupted
        {
            self.failed = system_reason(error);
        }
    }
}

impl<T: Drop> LastError for KeepsError<T> {
    fn why_failed(&self) -> Option<SystemReason> {
        self.failed
    }
}

impl<R: Read + Drop> Read for KeepsError<R> {
    ghost remaining = { λ keeps_error. R.remaining keeps_error.end };

    fn read(&mut self, buf: &mut [u8]) -> io::Result<usize> {
        let read = self.end.read(buf);
        self.note(&read);
        read
    }
}

impl<W: Write + Drop> Write for KeepsError<W> {
    ghost contents = { λ keeps_error. W.contents keeps_error.end };

    fn write(&mut self, buf: &[u8]) -> io::Result<usize> {
        let written = self.end.write(buf);
        self.note(&written);
        written
    }

    fn flush(&mut self) -> io::Result<()> {
        let flushed = self.end.flush();
        self.note(&flushed);
        flushed
    }
}
