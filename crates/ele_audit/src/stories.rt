//! The story of a file: its versions, held and removed, and its names. A contract sees it as rows.
ghost use Rattle.std.specs.Prelude.{◌≡◌, ◌++◌, ◌∷◌, [], IfOk, List, filter};
ghost use Rattle.std.specs.List.{AllZip, list_any};
ghost use Rattle.ele_audit.specs.Removals.{removal_in, removals};
ghost use Rattle.ele_audit.specs.Story.{AreVersions, IsHeldNow, IsStory, IsVersionStory, WasRemoved, is_removal_from};
ghost use Rattle.ele_audit.specs.Rows.{removes_from};
ghost use Rattle.ele_history.specs.Past.{world_of};
ghost use Rattle.ele_model.specs.FileView.{is_version_of};

use crate::held::hold_in;
use crate::seen::{Seen, seen_before, seen_of};
use crate::story_file::file_told;
use crate::story_info::info_in;
use crate::story_row::{Story, VersionStory};
use ele_history::History;
use ele_model::{Entry, Explain, Flat, FromFlat, Key, NoMemory, Refusal, Reply, VersionRow};
use ele_moment::{FileId, Moment, VersionNo};
use ele_path::Path;
use ele_world::laws;
use std::alloc::Global;

/// Returns the story of the file that the path names now, or if it names none, of the last one that
/// it named. Versions that the stored entries removed have a row too. Refused, if the path never
/// named a file: `NoEntry`, `NotDirectory`, `IsDirectory`.
///
/// `NoMemory` if memory is refused.
/// Cost: a copy of all rows, and for each version or name of the file a scan of these. If a stored
/// entry removed a version of the file, also a core made of the base and of all stored events on it,
/// and a copy of its rows for each such removal. If the path names no file, the same once more, with
/// a copy of the rows of names for each removal.
#[tactic(auto, using(crate::proofs::Tells::tells_now, crate::proofs::Tells::tells_none))]
pub fn story<C: Explain + FromFlat>(
    alloc: Global,
    path: &Path,
    history: &History<C>,
) -> Result<Result<Story, Refusal>, NoMemory>
    ensures { IfOk result (IsStory (removals history.now.base history.now.entries)
        (world_of history.now) path.now) }
{
    let world = history.core().flat()?;
    match file_told(world.names.as_slice(), path) {
        Ok(file) => {
            let seen = seen_of(alloc, file, world.names.as_slice())?;
            Ok(Ok(story_of(alloc, seen, history, &world)?))
        }
        Err(refusal) => match seen_before(alloc, path, history)? {
            Some(seen) => Ok(Ok(story_of(alloc, seen, history, &world)?)),
            None => Ok(Err(refusal)),
        },
    }
}

/// Returns the same of a core alone, without removed versions.
///
/// `NoMemory` if memory is refused.
/// Cost: a copy of all rows, and for each version or name of the file a scan of these.
pub fn story_alone<C: Explain>(path: &Path, core: &C) -> Result<Result<Story, Refusal>, NoMemory>
    ensures { IfOk result (IsStory [] (C.world core.now) path.now) }
{
    let world = core.flat()?;
    let alloc = world.names.allocator();
    match file_told(world.names.as_slice(), path) {
        Ok(file) => {
            let seen = seen_of(alloc, file, world.names.as_slice())?;
            Ok(Ok(beside(seen, Vec::new(alloc), core, &world)?))
        }
        Err(refusal) => Ok(Err(refusal)),
    }
}

// The story of the file that was seen.
fn story_of<C: Explain + FromFlat>(
    alloc: Global,
    seen: Seen,
    history: &History<C>,
    world: &Flat,
) -> Result<Story, NoMemory>
    requires { world.now ≡ world_of history.now }
    ensures file { IfOk result (λ story. story.file ≡ seen.file) }
    ensures names { IfOk result (λ story. story.names.items ≡ seen.names.items) }
    ensures versions { IfOk result (λ story. (removed : List VersionStory)
        × AllZip (WasRemoved seen.file)
        (filter (is_removal_from seen.file) (removals history.now.base history.now.entries)) removed
        × AreVersions (world_of history.now) seen.file removed story.versions.items) }
{
    let removed = removed_versions(alloc, seen.file, history)?;
    let story = beside(seen, removed, history.core(), world)?;
    Ok(story)
}

// The story of the file, with these removed versions and the held ones, by number.
fn beside<C: Explain>(
    seen: Seen,
    removed: Vec<VersionStory>,
    core: &C,
    world: &Flat,
) -> Result<Story, NoMemory>
    requires { world.now ≡ C.world core.now }
    ensures file { IfOk result (λ story. story.file ≡ seen.file) }
    ensures names { IfOk result (λ story. story.names.items ≡ seen.names.items) }
    ensures versions { IfOk result (λ story. AreVersions (C.world core.now) seen.file removed.items
        story.versions.items) }
{
    let Seen { file, names } = seen;
    let mut versions = removed;
    add_held(file, core, world, &mut versions)?;
    versions.sort_by_key(|row| row.number.0)?;
    Ok(Story {
        file,
        versions,
        names,
    })
}

// ---- removed versions

// The removed versions of the file, in order of removal.
fn removed_versions<C: Explain + FromFlat>(
    alloc: Global,
    file: FileId,
    history: &History<C>,
) -> Result<Vec<VersionStory>, NoMemory>
    ensures { IfOk result (λ rows. AllZip (WasRemoved file)
        (filter (is_removal_from file) (removals history.now.base history.now.entries)) rows.items) }
{
    if !removes_any(history.entries(), file) {
        return Ok(Vec::new(alloc));
    }
    replayed(alloc, file, history)
}

// Whether one of the entries removed a version of the file.
fn removes_any(entries: &[Entry], file: FileId) -> bool
    ensures { result ≡ list_any (λ entry. removes_from file entry.reply) entries.now }
{
    entries.iter().any(|entry| removes_from(&entry.reply, file))
}

// Whether the reply removed a version of the file.
fn removes_from(reply: &Reply, file: FileId) -> bool
    ensures { result ≡ removes_from file reply.now }
{
    match reply {
        Reply::Removed(key) => key.file == file,
        _ => false,
    }
}

// The removed versions of the file, by all entries on a second core, which is made of the base.
fn replayed<C: Explain + FromFlat>(
    alloc: Global,
    file: FileId,
    history: &History<C>,
) -> Result<Vec<VersionStory>, NoMemory>
    ensures { IfOk result (λ rows. AllZip (WasRemoved file)
        (filter (is_removal_from file) (removals history.now.base history.now.entries)) rows.items) }
{
    // For the proof: events led to the base, so a run may go on in it.
    laws::start_stays();
    let mut core = C::from_flat(alloc, history.base())?;
    let mut rows = Vec::new(alloc);
    let entries = history.entries();
    for entry in entries {
        add_removed(&core, file, &entry.reply, &mut rows)?;
        let _reply = core.apply(&entry.event)?;
    }
    Ok(rows)
}

// Pushes the row of the file's version that the reply removes from the core's world.
fn add_removed<C: Explain>(
    core: &C,
    file: FileId,
    reply: &Reply,
    rows: &mut Vec<VersionStory>,
) -> Result<(), NoMemory>
    ensures { IfOk result (λ _. (added : List VersionStory)
        × AllZip (WasRemoved file) (filter (is_removal_from file) (removal_in (C.world core.now) reply.now)) added
        × (rows.new.items ≡ rows.old.items ++ added)) }
{
    match reply {
        Reply::Removed(key) => add_if_of(core, file, *key, rows),
        _ => Ok(()),
    }
}

// Pushes the row of the version with the key, if it is of the file.
#[tactic(auto, using(crate::proofs::Gathers::keeps_one, crate::proofs::Gathers::keeps_no))]
fn add_if_of<C: Explain>(
    core: &C,
    file: FileId,
    key: Key,
    rows: &mut Vec<VersionStory>,
) -> Result<(), NoMemory>
    ensures { IfOk result (λ _. (added : List VersionStory)
        × AllZip (WasRemoved file) (filter (is_removal_from file) ((C.world core.now, key) ∷ [])) added
        × (rows.new.items ≡ rows.old.items ++ added)) }
{
    if key.file != file {
        return Ok(());
    }
    let world = core.flat()?;
    let removed = Some(core.now());
    rows.push(version_story(core, &world, file, key.number, removed)?)?;
    Ok(())
}

// ---- held versions

// Pushes the row of each held version of the file, in order.
fn add_held<C: Explain>(
    file: FileId,
    core: &C,
    world: &Flat,
    rows: &mut Vec<VersionStory>,
) -> Result<(), NoMemory>
    requires { world.now ≡ C.world core.now }
    ensures { IfOk result (λ _. (added : List VersionStory)
        × AllZip (IsHeldNow (C.world core.now))
        (filter (is_version_of file) (C.world core.now).versions) added
        × (rows.new.items ≡ rows.old.items ++ added)) }
{
    let versions = world.versions.as_slice();
    for version in versions {
        add_if_held(file, version, core, world, rows)?;
    }
    Ok(())
}

// Pushes the row of the version, if it is of the file.
#[tactic(auto, using(crate::proofs::Gathers::keeps_one, crate::proofs::Gathers::keeps_no))]
fn add_if_held<C: Explain>(
    file: FileId,
    version: &VersionRow,
    core: &C,
    world: &Flat,
    rows: &mut Vec<VersionStory>,
) -> Result<(), NoMemory>
    requires { world.now ≡ C.world core.now }
    ensures { IfOk result (λ _. (added : List VersionStory)
        × AllZip (IsHeldNow (C.world core.now)) (filter (is_version_of file) (version.now ∷ [])) added
        × (rows.new.items ≡ rows.old.items ++ added)) }
{
    if version.file != file {
        return Ok(());
    }
    rows.push(version_story(core, world, version.file, version.number, None)?)?;
    Ok(())
}

/// Returns what the core's world knows of a version, which was removed at the moment, if there is
/// one. The world is a copy of the core's rows.
///
/// `NoMemory` if memory is refused.
/// Cost: scans the versions, and of a due version also the groups, files and names.
pub fn version_story<C: Explain>(
    core: &C,
    world: &Flat,
    file: FileId,
    number: VersionNo,
    removed: Option<Moment>,
) -> Result<VersionStory, NoMemory>
    requires { world.now ≡ C.world core.now }
    ensures { IfOk result (IsVersionStory (C.world core.now) file number removed) }
{
    // For the proof: the world is well formed, so no content is too long.
    let _now = core.now();
    let fate = core.fate(file, number);
    let hold = hold_in(world, file, number, &fate)?;
    Ok(VersionStory {
        number,
        info: info_in(world, file, number),
        fate,
        hold,
        removed,
    })
}
