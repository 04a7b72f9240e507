//! The events of the clock.
ghost use Rattle.std.specs.Prelude.{◌≤◌};
ghost use Rattle.ele_events.specs.Does.{DoesAtOnce};
ghost use Rattle.ele_moment.specs.Last.{last_moment};
ghost use Rattle.ele_model.specs.declared.event.Event.TheVariants as event;
ghost use Rattle.ele_model.specs.declared.reply.Reply.TheVariants.{Now};

use crate::Core;
use ele_model::{Moment, Refusal};

impl Core {
    /// Moves the clock to the moment. Refused: `ClockBack`.
    /// Cost: constant time.
    #[tactic(auto, using(crate::proofs::Reached::does_at_once))]
    pub fn clock(&mut self, to: Moment) -> Result<Moment, Refusal>
        ensures does { DoesAtOnce Now self.old.world (event.Clock to) result self.new.world }
        ensures valid { to ≤ last_moment }
    {
        ele_events::clock(&mut self.state, to)
    }

    /// Moves the clock forward by so many seconds. Refused: `ClockEnd`.
    /// Cost: constant time.
    #[tactic(auto, using(crate::proofs::Reached::does_at_once))]
    pub fn tick(&mut self, seconds: u64) -> Result<Moment, Refusal>
        ensures { DoesAtOnce Now self.old.world (event.Tick seconds) result self.new.world }
    {
        ele_events::tick(&mut self.state, seconds)
    }
}
