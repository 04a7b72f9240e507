//! What the program does for its arguments, over a reader and two writers.
//! A contract sees how a run ended, what the reader and the writers hold then, and the status.
ghost use Rattle.std.specs.Prelude.{◌≡◌, false, Err, IfErr, is_ok, if◌then◌else◌};
ghost use Rattle.std.specs.Result.{result_err};
ghost use Rattle.ele_history.specs.Past.{fresh};
ghost use Rattle.ele_output.specs.Prints.{outlet};
ghost use Rattle.ele_runs.specs.RunState.{begun};
ghost use Rattle.ele_runs.specs.Telling.{Tells};
ghost use Rattle.ele_words.specs.Status.{status_of};
ghost use Rattle.ele_words.specs.Ends.{EndsAlone, EndsWith, HasWritten, TellsFault};
ghost use Rattle.ele_invocation.specs.Invocation.{is_storm};
ghost use Rattle.ele_words.specs.RunEnds.{TellsRun, run_status};
ghost use Rattle.ele_words.specs.SystemReason.{IsReasonOf};

use crate::evidence::{run_evidence, run_verify};
use crate::failure::{Failure, status};
use crate::forecasting::run_forecast;
use crate::keeps_error::LastError;
use crate::storming::run_storm;
use crate::strict::report_end;
use crate::system_reason::{SystemReason, report_error};
use ele_invocation::Invocation;
use ele_model::{Audit, Explain, FromFlat, Limits};
use ele_output::{Printer, write_all};
use ele_runs::{RunEnd, RunOptions, ShellFault, run_to_exit};
use ele_script::put_named;
use std::alloc::Global;
use std::io;
use std::io::{Read, Write};
use std::sync::Wait;
use std::thread::Threads;
use std::time::Clock;

/// Returns how a run ended, or `WriteFault` if the flush after it failed.
pub(crate) fn after_flush<T: Drop>(
    ended: Result<T, ShellFault>,
    flushed: &io::Result<()>,
) -> Result<T, ShellFault>
    ensures { result ≡ (if is_ok flushed.now then ended else Err ShellFault.WriteFault) }
{
    if flushed.is_ok() {
        ended
    } else {
        Err(ShellFault::WriteFault)
    }
}

// Runs a script, and flushes the writer however the run ended. The program ends after it, so the
// run's memory is left to the system.
fn run_script<C: Explain + FromFlat, R: Read, W: Write, E: Write>(
    alloc: Global,
    options: RunOptions,
    limits: Limits,
    reader: &mut R,
    writer: &mut W,
    errors: &mut Printer<'_, E>,
) -> Result<RunEnd, ShellFault>
    ensures { Tells (begun options (fresh limits) (outlet E.contents errors.old))
        (R.remaining reader.old) (R.remaining reader.new)
        (W.contents writer.old) (W.contents writer.new) (outlet E.contents errors.new) result }
{
    let ran = run_to_exit::<C, R, W, E>(options, alloc, reader, writer, errors, limits);
    let flushed = writer.flush();
    after_flush(ran, &flushed)
}

// Why the reader or the writer failed, if its failure ended the run and it kept the reason.
fn why_failed<R: LastError, W: LastError>(
    ran: &Result<RunEnd, ShellFault>,
    reader: &R,
    writer: &W,
) -> Option<SystemReason>
    ensures { IfErr ran.now (λ fault. IsReasonOf fault result) }
{
    match ran {
        Ok(_) => None,
        Err(ShellFault::ReadFault) => reader.why_failed(),
        Err(ShellFault::WriteFault) => writer.why_failed(),
        Err(ShellFault::TooManyLines | ShellFault::NoMemory) => None,
    }
}

// Reports how a run ended, and why the system failed if it did. Returns the exit status.
fn tell_run<E: Write>(
    alloc: Global,
    options: RunOptions,
    ran: &Result<RunEnd, ShellFault>,
    why: Option<SystemReason>,
    errors: &mut Printer<'_, E>,
) -> u8
    requires { IfErr ran.now (λ fault. IsReasonOf fault why) }
    ensures status { result ≡ run_status ran.now }
    ensures told { TellsRun options ran.now (outlet E.contents errors.old) (outlet E.contents errors.new) }
{
    match ran {
        Ok(end) => report_end(alloc, options, end, errors),
        Err(fault) => report_error(*fault, why, errors),
    }
}

/// Writes a text, and flushes it. After a `WriteFault` the writer has a prefix of the text.
pub(crate) fn write_text<W: Write>(text: &str, writer: &mut W) -> Result<(), ShellFault>
    ensures { HasWritten text.now (W.contents writer.old) (W.contents writer.new)
        (result_err result) }
{
    write_bytes(text.as_bytes(), writer)
}

/// Writes bytes, and flushes them. After a `WriteFault` the writer has a prefix of them.
pub(crate) fn write_bytes<W: Write>(bytes: &[u8], writer: &mut W) -> Result<(), ShellFault>
    ensures { HasWritten bytes.now (W.contents writer.old) (W.contents writer.new)
        (result_err result) }
{
    let written = write_all(writer, bytes);
    let flushed = writer.flush();
    written?;
    after_flush(Ok(()), &flushed)
}

/// Prints the number and the name of the fault, if there is one. Returns the exit status.
pub(crate) fn tell<E: Write>(fault: Option<ShellFault>, errors: &mut Printer<'_, E>) -> u8
    ensures status { result ≡ status_of fault }
    ensures told { TellsFault fault (outlet E.contents errors.old) (outlet E.contents errors.new) }
{
    let Some(fault) = fault else {
        errors.flush();
        return 0;
    };
    put_named(b"elephant:", fault.number(), fault.name(), errors);
    errors.flush();
    status(Failure::Fault(fault))
}

/// Does what the arguments ask for, unless that is a storm, and returns the exit status.
///
/// Answers go to `writer`. Faults, the end of a run, and arguments that weren't understood are
/// reported to `errors`. A run with numbers also reports there why its bad lines are no commands.
/// No other thread is started or waited for.
pub fn dispatch_alone<C: Explain + FromFlat, R: Read + LastError, W: Write + LastError, E: Write>(
    alloc: Global,
    invocation: &Invocation,
    reader: &mut R,
    writer: &mut W,
    errors: &mut Printer<'_, E>,
) -> u8
    requires { is_storm invocation.now ≡ false }
    ensures { EndsAlone invocation.now (R.remaining reader.old) (R.remaining reader.new)
        (W.contents writer.old) (W.contents writer.new)
        (outlet E.contents errors.old) (outlet E.contents errors.new) result }
{
    match invocation {
        Invocation::Run(limits, options) => {
            let ran = run_script::<C, R, W, E>(alloc, *options, *limits, reader, writer, errors);
            let why = why_failed(&ran, reader, writer);
            tell_run(alloc, *options, &ran, why, errors)
        }
        Invocation::Storm(_) => unreachable!(),
        Invocation::Forecast(ask, _) => run_forecast(alloc, ask, reader, writer, errors),
        Invocation::Evidence => run_evidence::<C, R, W, E>(alloc, reader, writer, errors),
        Invocation::Verify => run_verify::<C, R, W, E>(alloc, reader, writer, errors),
        Invocation::Help(text) => tell(write_text(text.as_str(), writer).err(), errors),
        Invocation::NotUnderstood(text) => {
            errors.put(text.as_bytes());
            errors.flush();
            status(Failure::NotUnderstood)
        }
        Invocation::NoMemory => tell(Some(ShellFault::NoMemory), errors),
    }
}

/// Does what the arguments ask for, and returns the exit status.
///
/// A storm calls its core from many threads, and may wait for them forever. If it is `watched`, it
/// shows at `progress` how many events were answered. All else is done by `dispatch_alone`.
#[tactic(auto, using(crate::proofs::Alone::ends_alone))]
pub fn dispatch<
    C: Audit + Explain + FromFlat + Send,
    T: Threads + Wait + Clock + Sync,
    R: Read + LastError,
    W: Write + LastError,
    P: Write,
    E: Write,
>(
    rt: &T,
    alloc: Global,
    invocation: &Invocation,
    watched: bool,
    reader: &mut R,
    writer: &mut W,
    progress: &mut P,
    errors: &mut Printer<'_, E>,
) -> u8
    ensures { EndsWith invocation.now watched (R.remaining reader.old) (R.remaining reader.new)
        (W.contents writer.old) (W.contents writer.new)
        (P.contents progress.old) (P.contents progress.new)
        (outlet E.contents errors.old) (outlet E.contents errors.new) result }
{
    match invocation {
        Invocation::Storm(plan) => run_storm::<C, T, W, P, E>(
            rt, alloc, plan, watched, writer, progress, errors,
        ),
        asked => dispatch_alone::<C, R, W, E>(alloc, asked, reader, writer, errors),
    }
}
