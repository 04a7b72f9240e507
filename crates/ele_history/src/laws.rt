//! Laws of histories. A law is the contract of a function that does nothing.
ghost use Rattle.ele_history.specs.PassIsOfWorld.{PassEndsAsOfWorld, PassIsOfWorld};

use ele_policy::laws;

/// A pass that finished is a pass of its world. Any other pass is so many clean events that each
/// removed a version. The entries of the pass are exactly its answered clean events.
#[tactic(auto, using(crate::proofs::PassOfWorld::pass_is_of_world))]
pub fn pass_is_of_world()
    ensures { PassIsOfWorld }
{}

/// If the world is well formed, a pass of a history ends as a core's does. `Finished` has removed
/// all that was due as it began. `Budget` and `Stopped` have removed as many versions as they say,
/// each due as the pass began. Versions that weren't due stay.
pub fn pass_ends()
    ensures { PassEndsAsOfWorld }
{
    laws::policies_are_lawful();
}
