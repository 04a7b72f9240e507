//! The note, an event that only the history keeps.
ghost use Rattle.ele_events.specs.Does.{DoesAtOnce, done};
ghost use Rattle.ele_model.specs.declared.event.Event.TheVariants as event;

use crate::halt::refuse_if;
use ele_model::{ByteList, Refusal};
use ele_state::State;

// The maximum length of a note in bytes.
const LONGEST_NOTE: usize = 200;

/// Refuses a note that is too long, and else changes nothing.
#[inline(never)]
pub fn note(state: &State, bytes: &ByteList) -> Result<(), Refusal>
    ensures { DoesAtOnce done state.now.world (event.Note bytes.now) result state.now.world }
{
    refuse_if(bytes.as_slice().len() > LONGEST_NOTE, Refusal::TooBig)
}
