//! The arguments of a run.
ghost use Rattle.std.specs.Prelude.{◌≡◌, ◌⊎◌, IfOk};
ghost use Rattle.ele_model.specs.Bounds.{largest_bounds};
ghost use Rattle.ele_invocation.specs.Built.{HasShape};
ghost use Rattle.ele_invocation.specs.Invocation.{IsRefusal, IsRun};
ghost use Rattle.ele_invocation.specs.Program.{run_shape};
ghost use Rattle.ele_invocation.specs.Runs.{IsEvents, options_of};
ghost use Rattle.clap.specs.Words.{found_of, rows_of};

use crate::invocation::{Invocation, command_of, flag, not_understood, number};
use crate::matches::{is_on, number_in, value_of};
use clap::{Arg, ArgMatches, Command};
use ele_model::Limits;
use ele_run_options::RunOptions;
use std::alloc::{AllocError, Global};

const RUN: &str = "Run a script, and answer each of its lines";

const MORE: &str = "\
The script comes from standard input, and its answers go to standard output. A
line is answered as soon as it is whole, before more is read. 'elephant help
script' lists the commands, and 'elephant help limits' what a run may have.

Examples:
  elephant run < FILE
  elephant run --strict --remarks < FILE";

const EVENTS: &str = "Allow N events, from 1 to 1000000000";

const STRICT: &str = "Stop at the first line that isn't answered `ok`, with\n\
    status 5, and print it on standard error; of a `bad` line\n\
    also the word at fault";

const NUMBERS: &str = "Print the number of its line before each answer, and on\n\
    standard error the word at fault of each `bad` line";

const REMARKS: &str = "Skip lines that begin with `#`";

const EXPLAIN: &str = "Answer `why`, `ahead`, `expiring`, `handles`, `gone`,\n\
    `removals`, `answers`, `story` and `changes` too: see\n\
    `elephant help script`";

const BAD_EVENTS: &str = "error: --events takes a number from 1 to 1000000000, \
    without a leading zero\n\nFor more information, try 'elephant run --help'.\n";

const FILE_GIVEN: &str =
    "error: the script comes from standard input, as in 'elephant run < FILE'\n\n\
    For more information, try 'elephant run --help'.\n";

/// Returns the arguments of a run, as clap reads them.
pub(crate) fn run<'a>(alloc: Global) -> Result<Command<'a>, AllocError>
    ensures { IfOk result (HasShape run_shape) }
{
    // A file among the arguments is refused with a hint.
    let file = Arg::new(alloc, "file").hide(true);
    command_of(alloc, "run", RUN, MORE)
        .arg(number(alloc, "events", EVENTS, "1000000"))?
        .arg(file)?
        .arg(flag(alloc, "strict", STRICT))?
        .arg(flag(alloc, "numbers", NUMBERS))?
        .arg(flag(alloc, "remarks", REMARKS))?
        .arg(flag(alloc, "explain", EXPLAIN))
}

// Returns a run with so many events and these options, or a refusal.
fn run_with(alloc: Global, events: u64, options: RunOptions) -> Invocation
    ensures run { IsEvents events
        → result ≡ Invocation.Run (record largest_bounds { events = events }) options }
    ensures refused { (¬ IsEvents events) → IsRefusal result }
    ensures either { IsEvents events ⊎ (¬ IsEvents events) }
{
    match Limits::with_events(events) {
        Some(limits) if events > 0 => Invocation::Run(limits, options),
        _ => not_understood(alloc, BAD_EVENTS),
    }
}

// Returns the options that are given.
fn options_in(run: &ArgMatches) -> RunOptions
    ensures { result ≡ options_of (rows_of (found_of run.now)) }
{
    RunOptions {
        strict: is_on(run, "strict"),
        numbers: is_on(run, "numbers"),
        remarks: is_on(run, "remarks"),
        explain: is_on(run, "explain"),
    }
}

/// Returns what the arguments of a run ask for.
pub(crate) fn asked_run(alloc: Global, run: &ArgMatches) -> Invocation
    ensures { IsRun (rows_of (found_of run.now)) result }
{
    match value_of(run, "file") {
        Some(_) => not_understood(alloc, FILE_GIVEN),
        None => match number_in(run, "events") {
            Some(events) => run_with(alloc, events, options_in(run)),
            None => not_understood(alloc, BAD_EVENTS),
        },
    }
}
