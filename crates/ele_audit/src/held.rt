//! The mark that held a version of a world. A contract sees the world as its rows.
ghost use Rattle.std.specs.Prelude.{◌≡◌, IfOk, OnErr};
ghost use Rattle.ele_audit.specs.Held.{IsDue, hold_at};
ghost use Rattle.ele_audit.specs.Story.{hold_in};

use crate::meant::version_at;
use crate::story_info::row_of;
use ele_holds::{Hold, hold_of};
use ele_model::{Explain, Fate, Flat, NoMemory};
use ele_moment::{FileId, VersionNo};
use ele_path::TaggedPath;

/// Returns the mark that held the version that the path and its tag mean after its policy had let it
/// go, if its fate is that it is due. None if no mark did, or if they mean no version.
///
/// `NoMemory` if memory is refused. A version that isn't due takes none.
/// Cost: of a due version a copy of all rows, and a scan of these for each name of the path.
pub fn hold_at<C: Explain>(
    tagged: &TaggedPath,
    fate: &Fate,
    core: &C,
) -> Result<Option<Hold>, NoMemory>
    ensures ok { IfOk result (λ hold. hold ≡ hold_at (C.world core.now) tagged.now fate.now) }
    ensures err { OnErr result (IsDue fate.now) }
{
    match fate {
        Fate::Due { since, cause: _ } => {
            let world = core.flat()?;
            match version_at(&world, tagged) {
                Some(row) => hold_of(&world, row, *since),
                None => Ok(None),
            }
        }
        _ => Ok(None),
    }
}

/// Returns the mark that held the file's version of that number after its policy had let it go, if
/// its fate is that it is due. None if no mark did, or if the version isn't held.
///
/// `NoMemory` if memory is refused. A version that isn't due takes none.
/// Cost: scans the versions, and of a due version also the groups, files and names.
pub(crate) fn hold_in(
    world: &Flat,
    file: FileId,
    number: VersionNo,
    fate: &Option<Fate>,
) -> Result<Option<Hold>, NoMemory>
    ensures { IfOk result (λ hold. hold ≡ hold_in world.entry.now file number fate.now) }
{
    let Some(Fate::Due { since, cause: _ }) = fate else {
        return Ok(None);
    };
    match row_of(world.versions.as_slice(), file, number) {
        Some(row) => hold_of(world, row, *since),
        None => Ok(None),
    }
}
