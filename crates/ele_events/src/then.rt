//! What a path held at a moment.
ghost use Rattle.std.specs.Prelude.{◌≡◌, ◌<◌, Ok, Err, Some, IfOk, find, true};
ghost use Rattle.ele_model.specs.Step.{row_then, version_then};
ghost use Rattle.ele_model.specs.WellFormed.{IsThere};
ghost use Rattle.ele_model.specs.World.{is_held, is_version};
ghost use Rattle.ele_state.specs.Told.{found_of};

use crate::halt::check;
use ele_model::{FileId, Moment, Path, Refusal, Tag, Target, VersionInfo};
use ele_state::State;

// The version of the target's file that lived at the moment. Refused: `IsDirectory`, `Forgotten`.
fn version_of(
    state: &State,
    path: &Path,
    moment: Moment,
    target: Target,
) -> Result<(FileId, VersionInfo), Refusal>
    requires { IsThere state.now.world.files target }
    ensures { result ≡ found_of (row_then state.now.world path.now moment (Ok target)) }
{
    let Target::File(file) = target else {
        return Err(Refusal::IsDirectory);
    };
    let info = check!(state.version_meant(file, Tag::At(moment)));
    Ok((file, info))
}

// The version that lived at the moment of the file that the path names now, if the path named
// nothing then. Refused: as the walk of then if there is no such version.
fn own_version(
    state: &State,
    path: &Path,
    moment: Moment,
    refusal: Refusal,
) -> Result<(FileId, VersionInfo), Refusal>
    ensures { result ≡ found_of (row_then state.now.world path.now moment (Err refusal)) }
{
    if state.now() < moment {
        return Err(refusal);
    }
    let Ok(file) = state.file_now(path) else {
        return Err(refusal);
    };
    match state.version_meant(file, Tag::At(moment)) {
        Ok(info) => Ok((file, info)),
        Err(_) => Err(refusal),
    }
}

// The version that the path held at the moment: of the file that it named then, or else of the file
// that it names now. Refused: as the walk of then, `IsDirectory`, `Forgotten`.
pub(crate) fn version_then(
    state: &State,
    path: &Path,
    moment: Moment,
) -> Result<(FileId, VersionInfo), Refusal>
    ensures value { result ≡ found_of (version_then state.now.world path.now moment) }
    ensures held { IfOk result (λ found. is_held state.now.world found.0 found.1.number ≡ true) }
    ensures row { IfOk result (λ found. IfOk (version_then state.now.world path.now moment) (λ row.
        find (is_version found.0 found.1.number) state.now.world.versions ≡ Some row)) }
{
    // For the proof: the world is well formed.
    state.now();
    match state.walk_meant(path, Tag::At(moment)) {
        Ok(target) => version_of(state, path, moment, target),
        Err(refusal) => own_version(state, path, moment, refusal),
    }
}
