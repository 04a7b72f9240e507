//! The lists that describe a world. Each law is the contract of a function that does nothing.
ghost use Rattle.ele_world.specs.CountsPlaces.{CountsPlaces};
ghost use Rattle.ele_world.specs.UndeleteTakes.{UndeleteTakes};

pub use ele_headline::{restorable_lists, scan_lists};
use ele_policy::laws;

/// The list of restorable names has a name exactly if an undelete of a path to it isn't refused as
/// `Exists`, `NoEntry` or `NotRestorable`.
pub fn undelete_takes()
    ensures { UndeleteTakes }
{
    laws::policies_are_lawful();
}

/// The number of blocks in the usage is the number of different places.
#[tactic(auto, using(crate::proofs::DifferentPlaces::counts_places))]
pub fn counts_places()
    ensures { CountsPlaces }
{}
