//! Laws of every policy. A law is the contract of a function that does nothing.
ghost use Rattle.ele_policy.specs.Lawful.{PoliciesAreLawful};
ghost use Rattle.ele_policy.specs.LetsGoFrom.{LetsGoFrom};
ghost use Rattle.ele_policy.specs.SharesNest.{SharesNest};

/// A policy lets a version go from one age on, or never. That age depends on the version's case
/// alone, and not on which other newer versions are held.
pub fn lets_go_from()
    ensures { LetsGoFrom }
{}

/// If two moments share a span of a ladder, they share one of each higher rung.
#[tactic(auto, using(crate::proofs::Rungs::shares_nest))]
pub fn shares_nest()
    ensures { SharesNest }
{}

/// Every policy that can be made is lawful: it keeps all promises that the world relies on.
#[tactic(auto, using(crate::proofs::Waits::policies_are_lawful))]
pub fn policies_are_lawful()
    ensures { PoliciesAreLawful }
{}
