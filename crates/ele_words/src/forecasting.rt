//! A forecast as the program makes it. It goes to one writer, and a fault to the other.
//! A contract sees what was read, what both writers hold then, and the status.
ghost use Rattle.std.specs.Prelude.{◌≡◌, codes, true};
ghost use Rattle.ele_output.specs.Outlet.{Reports};
ghost use Rattle.ele_output.specs.Prints.{outlet};
ghost use Rattle.ele_outlook.specs.Input.{bad_line_text};
ghost use Rattle.ele_words.specs.Forecasts.{ForecastEnds, forecast_line, forecast_status, warning};

use crate::failure::{Failure, status};
use crate::program::tell;
use ele_outlook::{BadLine, ForecastFault, ForecastOptions, put_bad_line, write_forecast};
use ele_output::Printer;
use ele_runs::ShellFault;
use std::alloc::Global;
use std::io::{Read, Write};

/// Reads closings and writes their forecast. Reports a fault to `errors`, or that times were read as UTC. Returns the exit
/// status.
pub(crate) fn run_forecast<R: Read, W: Write, E: Write>(
    alloc: Global,
    ask: &ForecastOptions,
    reader: &mut R,
    writer: &mut W,
    errors: &mut Printer<'_, E>,
) -> u8
    ensures { ForecastEnds ask.now (R.remaining reader.old) (R.remaining reader.new)
        (W.contents writer.old) (W.contents writer.new)
        (outlet E.contents errors.old) (outlet E.contents errors.new) result }
{
    match write_forecast(alloc, ask, reader, writer) {
        Ok(unplaced) => tell_done(unplaced, errors),
        Err(fault) => tell_fault(fault, errors),
    }
}

// Reports that a forecast is written, with a warning if times were read as UTC. Returns the exit status.
fn tell_done<E: Write>(unplaced: bool, errors: &mut Printer<'_, E>) -> u8
    ensures status { result ≡ 0 }
    ensures told { Reports (outlet E.contents errors.old) (outlet E.contents errors.new)
        (warning unplaced) }
{
    if unplaced {
        return warn(errors);
    }
    tell(None, errors)
}

// Warns that times were read as UTC. Returns the exit status.
fn warn<E: Write>(errors: &mut Printer<'_, E>) -> u8
    ensures status { result ≡ 0 }
    ensures told { Reports (outlet E.contents errors.old) (outlet E.contents errors.new)
        (warning true) }
{
    errors.put(
        b"elephant: times without an offset are read as UTC; --offset gives another clock\n",
    );
    errors.flush();
    0
}

// Reports the fault of a forecast. Returns the exit status.
fn tell_fault<E: Write>(fault: ForecastFault, errors: &mut Printer<'_, E>) -> u8
    ensures status { result ≡ forecast_status fault }
    ensures told { Reports (outlet E.contents errors.old) (outlet E.contents errors.new)
        (forecast_line fault) }
{
    match fault {
        ForecastFault::ReadFault => tell(Some(ShellFault::ReadFault), errors),
        ForecastFault::BadInput(number, why) => tell_bad_line(number, why, errors),
        ForecastFault::TooLong => tell_too_long(errors),
        ForecastFault::WriteFault => tell(Some(ShellFault::WriteFault), errors),
        ForecastFault::NoMemory => tell(Some(ShellFault::NoMemory), errors),
    }
}

// Reports that a table has too many moments. Returns the exit status.
fn tell_too_long<E: Write>(errors: &mut Printer<'_, E>) -> u8
    ensures status { result ≡ 2 }
    ensures told { Reports (outlet E.contents errors.old) (outlet E.contents errors.new)
        (codes "elephant: more than 400 moments; --every takes a longer step\n") }
{
    errors.put(b"elephant: more than 400 moments; --every takes a longer step\n");
    errors.flush();
    status(Failure::BadInput)
}

// Reports a bad line. Returns the exit status.
fn tell_bad_line<E: Write>(number: u64, why: BadLine, errors: &mut Printer<'_, E>) -> u8
    ensures status { result ≡ 2 }
    ensures told { Reports (outlet E.contents errors.old) (outlet E.contents errors.new)
        (bad_line_text number why) }
{
    put_bad_line(number, why, errors);
    errors.flush();
    status(Failure::BadInput)
}
