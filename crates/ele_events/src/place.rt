//! Checks that many events share.
ghost use Rattle.std.specs.Prelude.{◌≡◌, IfOk, OnOk, OnErr, IfErr, is_some, true, false};
ghost use Rattle.ele_events.specs.Place.{free_place};
ghost use Rattle.ele_state.specs.Full.{is_full};
ghost use Rattle.ele_state.specs.Home.{IsHome};
ghost use Rattle.ele_model.specs.declared.refusal.Refusal.TheVariants.{Full};
ghost use Rattle.ele_model.specs.Walk.{live_target, parent_now};

use crate::halt::refuse_if;
use ele_model::{DirId, Name, Path, Refusal, Which};
use ele_state::State;

// Finds the place of a new name at the path. Refused: as `parent_now`, and `Exists`.
pub(crate) fn free_place(state: &State, path: &Path) -> Result<(DirId, Name), Refusal>
    ensures value { result ≡ free_place state.now.world.names path.now }
    ensures place { IfOk result
        (λ at. parent_now state.now.world.names path.now ≡ Ok at) }
    ensures home { IfOk result (λ at. IsHome state.now.world at.0) }
    ensures free { IfOk result
        (λ at. is_some (live_target state.now.world.names at.0 at.1) ≡ false) }
{
    let at = match state.parent_now(path) {
        Ok(at) => at,
        Err(refusal) => return Err(refusal),
    };
    if state.is_taken(at.0, &at.1) {
        return Err(Refusal::Exists);
    }
    Ok(at)
}

// Checks the limit for one thing more, in the counts of all that were ever made. Refused: `Full`.
pub(crate) fn room_for(state: &State, which: Which) -> Result<(), Refusal>
    ensures room { OnOk result (is_full state.now.world which ≡ false) }
    ensures refused { IfErr result (λ why. why ≡ Full which) }
    ensures full { OnErr result (is_full state.now.world which ≡ true) }
{
    refuse_if(state.is_full(which), Refusal::Full(which))
}
