//! The file that a path named last before a removal, and its names. A contract sees a file with rows.
ghost use Rattle.std.specs.Prelude.{◌≡◌, ◌++◌, ◌∷◌, [], IfOk, List, filter};
ghost use Rattle.std.specs.List.{AllZip};
ghost use Rattle.std.specs.Option.{option_or};
ghost use Rattle.ele_name_paths.specs.LivePath.{is_name_to};
ghost use Rattle.ele_audit.specs.Removals.{removal_in, removals};
ghost use Rattle.ele_audit.specs.Seen.{IsSeen};
ghost use Rattle.ele_audit.specs.Story.{AreNames, IsNameStory, seen_in, seen_last};
ghost use Rattle.ele_model.specs.declared.rows.Target.TheVariants.{File};

use crate::story_file::file_told;
use crate::story_row::NameStory;
use ele_history::History;
use ele_model::{Explain, FromFlat, NameRow, NoMemory, Reply, Target};
use ele_moment::FileId;
use ele_name_paths::{Above, is_name_to, path_of};
use ele_path::Path;
use ele_world::laws;
use std::alloc::Global;

/// A file that was seen in a world, and its names there.
#[derive(Drop)]
pub(crate) struct Seen {
    pub file: FileId,
    pub names: Vec<NameStory>,
}

/// Returns the file with its names in these rows.
///
/// `NoMemory` if memory is refused.
pub(crate) fn seen_of(alloc: Global, file: FileId, rows: &[NameRow]) -> Result<Seen, NoMemory>
    ensures file { IfOk result (λ seen. seen.file ≡ file) }
    ensures names { IfOk result (λ seen. AreNames rows.now file seen.names.items) }
{
    let names = names_of(alloc, file, rows)?;
    Ok(Seen { file, names })
}

/// Returns the file that the path names, or named last, in the world before the last removal that
/// knows one. None if there is no such removal.
///
/// `NoMemory` if memory is refused.
/// Cost: that of a core made of the base and of all stored events on it, and for each removal a copy
/// of the rows of names.
pub(crate) fn seen_before<C: Explain + FromFlat>(
    alloc: Global,
    path: &Path,
    history: &History<C>,
) -> Result<Option<Seen>, NoMemory>
    ensures { IfOk result
        (IsSeen (seen_last path.now (removals history.now.base history.now.entries))) }
{
    // For the proof: events led to the base, so a run may go on in it.
    laws::start_stays();
    let mut core = C::from_flat(alloc, history.base())?;
    let mut seen = None;
    let entries = history.entries();
    for entry in entries {
        let here = seen_at(alloc, path, &core, &entry.reply)?;
        seen = newer(here, seen);
        let _reply = core.apply(&entry.event)?;
    }
    Ok(seen)
}

// The first, or if there is none the second.
fn newer(here: Option<Seen>, before: Option<Seen>) -> Option<Seen>
    ensures { result ≡ option_or here before }
{
    match here {
        Some(seen) => Some(seen),
        None => before,
    }
}

// The file in the core's world, if the reply removes a version.
fn seen_at<C: Explain>(
    alloc: Global,
    path: &Path,
    core: &C,
    reply: &Reply,
) -> Result<Option<Seen>, NoMemory>
    ensures { IfOk result (IsSeen (seen_last path.now (removal_in (C.world core.now) reply.now))) }
{
    match reply {
        Reply::Removed(_) => seen_in(alloc, path, core),
        _ => Ok(None),
    }
}

// The file that the path names, or named last, in the core's world.
#[tactic(auto, using(crate::proofs::Tells::seen_ok, crate::proofs::Tells::seen_err))]
fn seen_in<C: Explain>(alloc: Global, path: &Path, core: &C) -> Result<Option<Seen>, NoMemory>
    ensures { IfOk result (IsSeen (seen_in path.now (C.world core.now))) }
{
    let names = core.name_rows()?;
    match file_told(&names, path) {
        Ok(file) => {
            let seen = seen_of(alloc, file, &names)?;
            Ok(Some(seen))
        }
        Err(_) => Ok(None),
    }
}

// The names of the file, in order of making.
fn names_of(alloc: Global, file: FileId, rows: &[NameRow]) -> Result<Vec<NameStory>, NoMemory>
    ensures { IfOk result (λ names. AreNames rows.now file names.items) }
{
    let mut names = Vec::new(alloc);
    for row in rows {
        add_name(alloc, file, rows, row, &mut names)?;
    }
    Ok(names)
}

// Pushes what is known of the name, if it is one of the file.
#[tactic(auto, using(crate::proofs::Gathers::keeps_one, crate::proofs::Gathers::keeps_no))]
fn add_name(
    alloc: Global,
    file: FileId,
    rows: &[NameRow],
    row: &NameRow,
    names: &mut Vec<NameStory>,
) -> Result<(), NoMemory>
    ensures { IfOk result (λ _. (added : List NameStory)
        × AllZip (IsNameStory rows.now) (filter (is_name_to (File file)) (row.now ∷ [])) added
        × (names.new.items ≡ names.old.items ++ added)) }
{
    if !is_name_to(row, &Target::File(file)) {
        return Ok(());
    }
    names.push(name_story(alloc, rows, row)?)?;
    Ok(())
}

/// Returns what is known of the name, which is one of the rows.
///
/// `NoMemory` if memory is refused.
/// Cost: scans the rows for each name of the path, which takes memory.
pub fn name_story(alloc: Global, rows: &[NameRow], row: &NameRow) -> Result<NameStory, NoMemory>
    ensures { IfOk result (IsNameStory rows.now row.now) }
{
    let above = path_of(alloc, Above::Last, rows, Target::Directory(row.directory))?;
    let path = match above {
        Some(mut names) => {
            names.push(row.name)?;
            Some(names)
        }
        None => None,
    };
    Ok(NameStory {
        path,
        birth: row.birth,
        death: row.death,
    })
}
