//! Why a reader or a writer failed, and the lines that report it.
//! A contract sees a reason as itself, and what the writer holds then.
ghost use Rattle.std.specs.Prelude.{◌≡◌};
ghost use Rattle.std.specs.IoError.{error_kind, raw_os_error};
ghost use Rattle.ele_output.specs.Outlet.{Reports};
ghost use Rattle.ele_output.specs.Prints.{Prints, outlet};
ghost use Rattle.ele_words.specs.Status.{fault_status};
ghost use Rattle.ele_words.specs.SystemError.{reason_by, reason_by_number};
ghost use Rattle.ele_words.specs.SystemReason.{failed_text, reason_line};

use crate::failure::{Failure, status};
use ele_output::Printer;
use ele_runs::ShellFault;
use ele_script::put_named;
use std::io;
use std::io::{ErrorKind, Write};

/// Why the system failed to read or to write.
#[derive(Clone, Copy, PartialEq, Eq)]
pub enum SystemReason {
    /// It is a directory.
    IsDirectory,
    /// No space is left.
    NoSpace,
    /// Nobody reads the pipe any more.
    BrokenPipe,
    /// Permission is missing.
    NotPermitted,
    /// The device failed.
    Device,
    /// It isn't open for reading or for writing.
    NotOpen,
}

/// Returns the reason of the system's error, if it is one of these.
pub(crate) fn system_reason(error: &io::Error) -> Option<SystemReason>
    ensures { result ≡ reason_by (error_kind error.now) (raw_os_error error.now) }
{
    match error.kind() {
        ErrorKind::IsADirectory => Some(SystemReason::IsDirectory),
        ErrorKind::StorageFull => Some(SystemReason::NoSpace),
        ErrorKind::BrokenPipe => Some(SystemReason::BrokenPipe),
        ErrorKind::PermissionDenied => Some(SystemReason::NotPermitted),
        _ => reason_by_number(error.raw_os_error()),
    }
}

// The reason by the number that the system gave the error.
fn reason_by_number(code: Option<i32>) -> Option<SystemReason>
    ensures { result ≡ reason_by_number code }
{
    match code {
        // EIO, and EBADF.
        Some(5) => Some(SystemReason::Device),
        Some(9) => Some(SystemReason::NotOpen),
        _ => None,
    }
}

/// Prints the number and the name of the fault, and a second line with the reason if it is known.
/// Returns the exit status.
pub(crate) fn report_error<E: Write>(
    fault: ShellFault,
    why: Option<SystemReason>,
    errors: &mut Printer<'_, E>,
) -> u8
    ensures status { result ≡ fault_status fault }
    ensures told { Reports (outlet E.contents errors.old) (outlet E.contents errors.new)
        (failed_text fault why) }
{
    put_failed(fault, why, errors);
    errors.flush();
    status(Failure::Fault(fault))
}

// Prints these lines.
fn put_failed<E: Write>(fault: ShellFault, why: Option<SystemReason>, errors: &mut Printer<'_, E>)
    ensures { Prints E.contents errors.old errors.new (failed_text fault why) }
{
    put_named(b"elephant:", fault.number(), fault.name(), errors);
    if let Some(why) = why {
        errors.put(reason_line(why));
    }
}

// The line of a reason.
fn reason_line(why: SystemReason) -> &'static [u8]
    ensures { result.now ≡ reason_line why }
{
    match why {
        SystemReason::IsDirectory => b"elephant: it is a directory\n",
        SystemReason::NoSpace => b"elephant: there is no space left\n",
        SystemReason::BrokenPipe => b"elephant: nobody reads the pipe any more\n",
        SystemReason::NotPermitted => b"elephant: it is not permitted\n",
        SystemReason::Device => b"elephant: the device failed\n",
        SystemReason::NotOpen => b"elephant: it is not open\n",
    }
}
