//! The event that removes the first due version.
ghost use Rattle.std.specs.Prelude.{◌≡◌};
ghost use Rattle.ele_events.specs.Does.{removed};
ghost use Rattle.ele_events.specs.Reads.{CleanReads};
ghost use Rattle.ele_model.specs.Step.{clean_step};

use ele_model::Key;
use ele_state::State;

/// Removes the first due version, and returns its key. It takes no memory.
#[inline(never)]
pub fn clean_one(state: &mut State) -> Option<Key>
    ensures step { (removed result, state.new.world) ≡ clean_step state.old.world }
    ensures read { CleanReads (removed result) state.new.rows_read }
{
    state.reset_rows_read();
    let key = state.due_first()?;
    state.remove(&key);
    Some(key)
}
