//! The events of the clock.
ghost use Rattle.std.specs.Prelude.{◌≤◌};
ghost use Rattle.ele_events.specs.Does.{DoesAtOnce};
ghost use Rattle.ele_moment.specs.Last.{last_moment};
ghost use Rattle.ele_model.specs.declared.event.Event.TheVariants as event;
ghost use Rattle.ele_model.specs.declared.reply.Reply.TheVariants.{Now};

use crate::halt::{check, refuse_if};
use ele_model::{Moment, Refusal};
use ele_state::State;

/// Moves the clock to the moment.
pub fn clock(state: &mut State, to: Moment) -> Result<Moment, Refusal>
    ensures does { DoesAtOnce Now state.old.world (event.Clock to) result state.new.world }
    ensures valid { to ≤ last_moment }
{
    let is_back = to.seconds() < state.now().seconds();
    check!(refuse_if(is_back, Refusal::ClockBack));
    state.set_time(to);
    Ok(to)
}

/// Moves the clock forward by so many seconds.
pub fn tick(state: &mut State, seconds: u64) -> Result<Moment, Refusal>
    ensures { DoesAtOnce Now state.old.world (event.Tick seconds) result state.new.world }
{
    let Some(to) = state.now().plus(seconds) else {
        return Err(Refusal::ClockEnd);
    };
    state.set_time(to);
    Ok(to)
}
