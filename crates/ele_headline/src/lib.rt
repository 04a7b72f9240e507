//! The headline, one law over all runs, and the laws that it consists of. `ele_model` has the
//! definitions.
#![tactic(auto)]

ghost use Rattle.ele_headline.specs.Headline.{HeadlineHolds, HeadlineInFreshRuns};
ghost use Rattle.ele_headline.specs.HeldStays.{HeldStays};
ghost use Rattle.ele_headline.specs.OnlyDueLeave.{OnlyDueLeave};
ghost use Rattle.ele_headline.specs.PassLeavesKept.{PassLeavesKept};
ghost use Rattle.ele_headline.specs.ReadsAsClosed.{ReadsAsClosed, ReadsAsClosedInFreshRuns, ReadsAsClosedInRuns};
ghost use Rattle.ele_headline.specs.RestorableLists.{RestorableLists};
ghost use Rattle.ele_headline.specs.ScanLists.{ScanLists};

use ele_policy::laws;

/// The headline: in every run from a well-formed world, each event gets the reply that the headline
/// says, after any events and before any others.
pub fn headline()
    ensures { HeadlineHolds }
{
    laws::policies_are_lawful();
}

/// The headline of every run from the fresh world.
#[tactic(auto, using(crate::proofs::Answered::headline_in_fresh_runs))]
pub fn headline_in_fresh_runs()
    ensures { HeadlineInFreshRuns }
{
    laws::policies_are_lawful();
}

/// Only a clean event removes a version, and only one that is due in its world, and so neither open
/// nor marked.
pub fn only_due_leave()
    ensures { OnlyDueLeave }
{
    laws::policies_are_lawful();
}

/// The opened and closed moments and the cells of a held version never change, and its end is set
/// at most once.
pub fn held_stays()
    ensures { HeldStays }
{
    laws::policies_are_lawful();
}

/// A read of a held version returns the bytes that it had when it closed, whatever events followed.
#[tactic(auto, using(crate::proofs::ReadsBack::reads_as_closed))]
pub fn reads_as_closed()
    ensures { ReadsAsClosed }
{
    laws::policies_are_lawful();
}

/// The same law, of each world of a run from a well-formed world, and of each run from the fresh
/// world.
#[tactic(auto, using(crate::proofs::ReadsBack::reads_as_closed_in_runs, crate::proofs::ReadsBack::reads_as_closed_in_fresh_runs))]
pub fn reads_as_closed_in_runs()
    ensures runs { ReadsAsClosedInRuns }
    ensures fresh { ReadsAsClosedInFreshRuns }
{
    laws::policies_are_lawful();
}

/// An undisturbed finished pass leaves exactly the versions that the scan at its start keeps.
pub fn pass_leaves_kept()
    ensures { PassLeavesKept }
{
    laws::policies_are_lawful();
}

/// The scan has each key once, in order, and exactly the keys of the held versions that are due.
pub fn scan_lists()
    ensures { ScanLists }
{
    laws::policies_are_lawful();
}

/// The list of restorable names has each name once, in order. It has exactly the names whose newest
/// row is dead and whose target may have a name again.
pub fn restorable_lists()
    ensures { RestorableLists }
{}
