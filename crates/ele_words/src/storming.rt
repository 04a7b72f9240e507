//! A storm as the program runs it. Its result goes to one writer, and a fault to the other.
//! A contract sees what both hold then, and the status.
ghost use Rattle.std.specs.Prelude.{◌≡◌};
ghost use Rattle.std.specs.Result.{result_err};
ghost use Rattle.ele_output.specs.Outlet.{Reports};
ghost use Rattle.ele_output.specs.Prints.{outlet};
ghost use Rattle.ele_words.specs.Progress.{EndsWatched};
ghost use Rattle.ele_words.specs.Status.{storm_status};
ghost use Rattle.ele_words.specs.Storms.{HasStormed, HasPutLine, TellsEnd, TellsStorm, audit_word, storm_fault_line, storm_line};
ghost use Rattle.ele_words.specs.Watched.{Watched};

use crate::failure::{Failure, status};
use crate::program::{tell, write_text};
use crate::watched::watch_storm;
use ele_model::{Audit, Limits};
use ele_output::Printer;
use ele_runs::ShellFault;
use ele_script::put_named;
use ele_storm::{AuditFault, Flags, StormPlan, storm_and_audit};
use std::alloc::Global;
use std::io::Write;
use std::sync::Wait;
use std::thread::Threads;
use std::time::Clock;

/// A worker looks at most so often for the flag of another.
const MOST_LOOKS: u64 = 10_000_000;

/// Runs the storm over a fresh core under the largest limits, and audits the core. Writes how many
/// events it ran, and whether all answers equal the scans'. If it is watched, it also shows its
/// progress. Returns the exit status.
pub(crate) fn run_storm<
    C: Audit + Send,
    T: Threads + Wait + Clock + Sync,
    W: Write,
    P: Write,
    E: Write,
>(
    rt: &T,
    alloc: Global,
    plan: &StormPlan,
    watched: bool,
    writer: &mut W,
    progress: &mut P,
    errors: &mut Printer<'_, E>,
) -> u8
    ensures { EndsWatched watched plan.now (W.contents writer.old) (W.contents writer.new)
        (P.contents progress.old) (P.contents progress.new)
        (outlet E.contents errors.old) (outlet E.contents errors.new) result }
{
    if watched {
        let ended = storm_and_watch::<C, T, P>(rt, alloc, plan, progress);
        return tell_ended(alloc, ended, writer, errors);
    }
    let ended = storm_and_look::<C, T>(rt, alloc, plan);
    tell_ended(alloc, ended, writer, errors)
}

// Reports the result of a storm. Returns the exit status.
fn tell_ended<W: Write, E: Write>(
    alloc: Global,
    ended: Result<(u64, bool), AuditFault>,
    writer: &mut W,
    errors: &mut Printer<'_, E>,
) -> u8
    ensures { TellsEnd ended (W.contents writer.old) (W.contents writer.new)
        (outlet E.contents errors.old) (outlet E.contents errors.new) result }
{
    match ended {
        Ok((events, equal)) => tell_storm(alloc, events, equal, writer, errors),
        Err(fault) => tell_fault(fault, errors),
    }
}

// Runs the storm and audits its core. Meanwhile it shows the progress.
fn storm_and_watch<C: Audit + Send, T: Threads + Wait + Clock + Sync, P: Write>(
    rt: &T,
    alloc: Global,
    plan: &StormPlan,
    progress: &mut P,
) -> Result<(u64, bool), AuditFault>
    ensures { Watched plan.now (P.contents progress.old) (P.contents progress.new) result }
{
    let flags = Flags::new(alloc, plan.workers(), MOST_LOOKS)?;
    watch_storm::<C, T, P>(rt, alloc, plan, &flags, progress)
}

// Runs the storm and audits its core.
fn storm_and_look<C: Audit + Send, T: Threads + Wait + Sync>(
    rt: &T,
    alloc: Global,
    plan: &StormPlan,
) -> Result<(u64, bool), AuditFault>
    ensures { HasStormed plan.now result }
{
    let flags = Flags::new(alloc, plan.workers(), MOST_LOOKS)?;
    let limits = Limits::largest();
    let (history, events, equal) = storm_and_audit::<C, T, Flags>(rt, alloc, limits, plan, &flags)?;
    drop(history);
    Ok((events, equal))
}

// The word for an audit's result.
fn audit_word(equal: bool) -> &'static str
    ensures { result.now ≡ audit_word equal }
{
    if equal { "equal" } else { "unequal" }
}

// Writes the line of an audited storm, and flushes it.
fn write_line<W: Write>(
    alloc: Global,
    events: u64,
    equal: bool,
    writer: &mut W,
) -> Result<(), ShellFault>
    ensures { HasPutLine (storm_line events equal) (W.contents writer.old) (W.contents writer.new)
        (result_err result) }
{
    let word = audit_word(equal);
    let Ok(line) = format!(in alloc; "storm events {events} audit {word}\n") else {
        return Err(ShellFault::NoMemory);
    };
    write_text(line.as_str(), writer)
}

// Reports an audited storm. Returns the exit status.
fn tell_storm<W: Write, E: Write>(
    alloc: Global,
    events: u64,
    equal: bool,
    writer: &mut W,
    errors: &mut Printer<'_, E>,
) -> u8
    ensures { TellsStorm events equal (W.contents writer.old) (W.contents writer.new)
        (outlet E.contents errors.old) (outlet E.contents errors.new) result }
{
    match write_line(alloc, events, equal, writer) {
        Ok(()) => {
            errors.flush();
            if equal { 0 } else { status(Failure::Unequal) }
        }
        Err(fault) => tell(Some(fault), errors),
    }
}

// Writes the number and the name of the fault. Returns the exit status.
fn tell_fault<E: Write>(fault: AuditFault, errors: &mut Printer<'_, E>) -> u8
    ensures status { result ≡ storm_status fault }
    ensures told { Reports (outlet E.contents errors.old) (outlet E.contents errors.new)
        (storm_fault_line fault) }
{
    put_named(b"elephant:", fault.number(), fault.name(), errors);
    errors.flush();
    status(Failure::Storm(fault))
}
