//! Worlds that can be made of their rows. A contract sees one as its flat world.
ghost use Rattle.std.specs.Prelude.{◌≡◌, IfOk};

use crate::flat::Flat;
use crate::step::Step;
use ele_moment::NoMemory;
use std::alloc::Global;

/// A world that events change, and that can be made of any rows that a run may begin in.
pub trait FromFlat: Step {
    ghost use Rattle.ele_model.specs.Start.{IsStart};

    /// Makes the world of these rows.
    ///
    /// `NoMemory` if memory is refused.
    fn from_flat(alloc: Global, flat: &Flat) -> Result<Self, NoMemory>
        requires { IsStart flat.now }
        ensures { IfOk result (λ core. Self.world core ≡ flat.entry.now) };
}
