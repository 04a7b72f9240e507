//! Worlds that take events. Crates that needn't know how a world is stored, as those of runs and
//! histories, are generic over them. A contract sees one as its flat world.
ghost use Rattle.std.specs.Prelude.{◌≡◌, true, IfOk, OnErr, IsOk};

use crate::event::Event;
use crate::flat::Flat;
use crate::limits::Limits;
use crate::reply::Reply;
use ele_moment::{Moment, NoMemory};
use std::alloc::Global;

/// A world that events change.
pub trait Step: Drop {
    ghost use Rattle.ele_model.specs.World.{World, fresh_world};
    ghost use Rattle.ele_model.specs.WellFormed.{IsWellFormed};
    ghost use Rattle.ele_model.specs.Bounds.{AreBounds};
    ghost use Rattle.ele_model.specs.NoIdleStays.{HasNoIdle};
    ghost use Rattle.ele_model.specs.Reached.{IsReached};
    ghost use Rattle.ele_model.specs.Step.{step};
    ghost use Rattle.ele_model.specs.Run.{IsEvent};
    ghost use Rattle.ele_model.specs.Ready.{takes_no_memory};

    ghost world: { Self → World };

    /// Makes the fresh world with these limits.
    ///
    /// `NoMemory` if memory is refused.
    fn fresh(alloc: Global, limits: Limits) -> Result<Self, NoMemory>
        ensures { IfOk result (λ core. world core ≡ fresh_world limits) };

    /// Answers the event, and makes its change.
    ///
    /// `NoMemory` if memory is refused, and then the world is as it was. `takes_no_memory` says
    /// which events take none.
    fn apply(&mut self, event: &Event) -> Result<Reply, NoMemory>
        ensures step { IfOk result
            (λ reply. (reply, world self.new) ≡ step (world self.old) event.now) }
        ensures err { OnErr result (world self.new ≡ world self.old) }
        ensures ready { takes_no_memory event.now ≡ true → IsOk result }
        ensures event { IsEvent event.now };

    /// Returns a plain copy of all rows and counts.
    ///
    /// `NoMemory` if memory is refused.
    fn flat(&self) -> Result<Flat, NoMemory>
        ensures { IfOk result (λ flat. flat ≡ world self.now) };

    /// Returns the current moment. Its contract also says that events led to the world, from one
    /// that a run may begin in, such as the fresh world. So the headline holds of its next event,
    /// and the laws of this crate hold. Three of them are clauses too: the world is well
    /// formed, its limits are allowed, and each file has a live name, a held version or a draft.
    fn now(&self) -> Moment
        ensures value { result ≡ (world self.now).now }
        ensures reached { IsReached (world self.now) }
        ensures formed { IsWellFormed (world self.now) }
        ensures bounds { AreBounds (world self.now).limits }
        ensures idle { HasNoIdle (world self.now) };
}
