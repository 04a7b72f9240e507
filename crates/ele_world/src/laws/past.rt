//! What every event leaves of the past, of other names, and of all counts. Each law is the contract
//! of a function that does nothing.
ghost use Rattle.ele_world.specs.DraftsWritten.{DraftsWritten, DraftsWrittenInFreshRuns, DraftsWrittenInRuns};
ghost use Rattle.ele_world.specs.LifeStays.{LifeStays};
ghost use Rattle.ele_world.specs.NameRowsStay.{NameRowsStay};
ghost use Rattle.ele_world.specs.OneContent.{OneContentInFreshRuns, OneContentInRuns, OneContentStays};
ghost use Rattle.ele_world.specs.OtherNamesStay.{OtherNamesStay};
ghost use Rattle.ele_world.specs.PastStays.{PastStays};
ghost use Rattle.ele_world.specs.ReadsPast.{ReadsPast};

pub use ele_model::laws::numbers_rise;
use ele_policy::laws;

/// What a name meant at a moment before now stays, unless it was a file that was dropped.
pub fn past_stays()
    ensures { PastStays }
{
    laws::policies_are_lawful();
}

/// Name rows stay in their order, except those of a dropped file. A birth never changes, and a
/// death is set once, to now.
pub fn name_rows_stay()
    ensures { NameRowsStay }
{
    laws::policies_are_lawful();
}

/// An event doesn't change at which moments before now a held version lived.
pub fn life_stays()
    ensures { LifeStays }
{
    laws::policies_are_lawful();
}

/// Names that an event doesn't name keep their meaning.
#[tactic(auto, using(crate::proofs::OtherNames::other_names_stay))]
pub fn other_names_stay()
    ensures { OtherNamesStay }
{}

/// An event doesn't change what a path reads at a moment before now: the same bytes, or a refusal
/// as `Forgotten` or `NoEntry`.
pub fn reads_past()
    ensures { ReadsPast }
{
    laws::policies_are_lawful();
}

/// After an event a handle writes each draft.
pub fn drafts_written()
    ensures { DraftsWritten }
{
    laws::policies_are_lawful();
}

/// After any list of events a handle writes each draft, if one wrote each before them. So one does
/// in every run from the fresh world.
#[tactic(auto, using(crate::proofs::Runs::writers, crate::proofs::Runs::writers_fresh))]
pub fn drafts_written_in_runs()
    ensures runs { DraftsWrittenInRuns }
    ensures fresh { DraftsWrittenInFreshRuns }
{
    laws::policies_are_lawful();
}

/// An event leaves what one version wrote into a slot the same in all versions and drafts that have
/// it.
pub fn one_content_stays()
    ensures { OneContentStays }
{
    laws::policies_are_lawful();
}

/// After any list of events it is the same in all of them, if it was before them. So it is in every
/// run from the fresh world.
#[tactic(auto, using(crate::proofs::Runs::one_content, crate::proofs::Runs::one_content_fresh))]
pub fn one_content_in_runs()
    ensures runs { OneContentInRuns }
    ensures fresh { OneContentInFreshRuns }
{
    laws::policies_are_lawful();
}
