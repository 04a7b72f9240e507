//! The arguments of a storm.
ghost use Rattle.std.specs.Prelude.{◌≡◌, ◌≤◌, ℕ, IfNone, IfOk, IfSome, Some};
ghost use Rattle.ele_storm_plan.specs.declared.plan.StormPlan.{StormPlan};
ghost use Rattle.ele_invocation.specs.Built.{HasShape};
ghost use Rattle.ele_invocation.specs.Invocation.{IsStorm};
ghost use Rattle.ele_invocation.specs.Matches.{HasNumber};
ghost use Rattle.ele_invocation.specs.Program.{storm_shape};
ghost use Rattle.ele_invocation.specs.Storms.{AsksStorm};
ghost use Rattle.clap.specs.Words.{found_of, rows_of};

use crate::invocation::{Invocation, command_of, not_understood, number};
use crate::matches::number_in;
use clap::{ArgMatches, Command};
use ele_storm_plan::StormPlan;
use std::alloc::{AllocError, Global};

const STORM: &str = "Call one file system from many threads, and audit its answers";

const MORE: &str = "\
In each round a writer saves its own file, a historian reads the first version
of one of the files, and the cleaner makes a clean. Then an audit compares the
due versions, the restorable names and the usage with a full scan. It prints
'storm events N audit equal', or 'unequal' with status 4.

Example:
  elephant storm --writers 4 --historians 2 --rounds 100";

const WRITERS: &str = "Start N threads that write, from 1 to 16";

const HISTORIANS: &str = "Start N threads that read, from 1 to 16";

const ROUNDS: &str = "Repeat the work N times, from 1 to 1000";

const BAD_PLAN: &str = "error: a storm takes 1 to 16 writers, 1 to 16 historians \
    and 1 to 1000 rounds, without a leading zero\n\n\
    For more information, try 'elephant storm --help'.\n";

/// Returns the arguments of a storm, as clap reads them.
pub(crate) fn storm<'a>(alloc: Global) -> Result<Command<'a>, AllocError>
    ensures { IfOk result (HasShape storm_shape) }
{
    command_of(alloc, "storm", STORM, MORE)
        .arg(number(alloc, "writers", WRITERS, "2"))?
        .arg(number(alloc, "historians", HISTORIANS, "1"))?
        .arg(number(alloc, "rounds", ROUNDS, "10"))
}

// Returns the number of an option, if a plan may have so many.
fn count_in(storm: &ArgMatches, name: &str) -> Option<u32>
    ensures found { IfSome result (HasNumber name.now (rows_of (found_of storm.now))) }
    ensures only { (n : ℕ) → n ≤ 1000 → HasNumber name.now (rows_of (found_of storm.now)) n
        → result ≡ Some n }
{
    let Some(number) = number_in(storm, name) else {
        return None;
    };
    if number > 1000 {
        return None;
    }
    Some(number as u32)
}

// Returns the plan with these numbers, if they are in range.
fn plan_in(storm: &ArgMatches) -> Option<StormPlan>
    ensures found { IfSome result (AsksStorm (rows_of (found_of storm.now))) }
    ensures none { IfNone result
        ((plan : StormPlan) → ¬ AsksStorm (rows_of (found_of storm.now)) plan) }
{
    let Some(writers) = count_in(storm, "writers") else {
        return None;
    };
    let Some(historians) = count_in(storm, "historians") else {
        return None;
    };
    let Some(rounds) = count_in(storm, "rounds") else {
        return None;
    };
    StormPlan::new(writers, historians, rounds)
}

/// Returns what the arguments of a storm ask for.
pub(crate) fn asked_storm(alloc: Global, storm: &ArgMatches) -> Invocation
    ensures { IsStorm (rows_of (found_of storm.now)) result }
{
    match plan_in(storm) {
        Some(plan) => Invocation::Storm(plan),
        None => not_understood(alloc, BAD_PLAN),
    }
}
