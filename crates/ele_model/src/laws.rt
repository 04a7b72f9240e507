//! The laws that crates of the program call. Each is the contract of a function that does nothing;
//! the other laws are in `ele_world`.
ghost use Rattle.ele_model.specs.AlwaysWellFormed.{AlwaysWellFormed, StepKeepsWellFormed, WellFormedInFreshRuns};
ghost use Rattle.ele_model.specs.NumbersRise.{NumbersRise};
ghost use Rattle.ele_model.specs.ReadersStay.{ReadersStay};
ghost use Rattle.ele_model.specs.Start.{FreshIsStart};
ghost use Rattle.ele_model.specs.UsageFits.{UsageFits};

use ele_policy::laws;

/// A run may begin in the fresh world: it is well formed, and has what every event leaves so.
#[tactic(auto, using(crate::proofs::Reached::fresh_is_start))]
pub fn fresh_is_well_formed()
    ensures { FreshIsStart }
{}

/// An event leaves a well-formed world well formed.
#[tactic(auto, using(crate::proofs::StepKeeps::step_keeps_well_formed))]
pub fn step_keeps_well_formed()
    ensures { StepKeepsWellFormed }
{
    laws::policies_are_lawful();
}

/// After any list of events a well-formed world is well formed, and so each world of a run from the
/// fresh world is.
#[tactic(auto, using(crate::proofs::StepKeeps::always_well_formed, crate::proofs::StepKeeps::well_formed_in_fresh_runs))]
pub fn always_well_formed()
    ensures runs { AlwaysWellFormed }
    ensures fresh { WellFormedInFreshRuns }
{
    laws::policies_are_lawful();
}

/// An event whose reply takes memory to copy changes nothing.
#[tactic(auto, using(crate::proofs::PlanOutcomes::readers_stay))]
pub fn readers_stay()
    ensures { ReadersStay }
{}

/// The time never goes back, and no number is used twice.
pub fn numbers_rise()
    ensures { NumbersRise }
{
    laws::policies_are_lawful();
}

/// What the files of each kind of policy use in a well-formed world fits in 64 bits.
pub fn usage_fits()
    ensures { UsageFits }
{
    laws::policies_are_lawful();
}
