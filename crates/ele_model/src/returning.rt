//! The restorable names, by a scan of all rows.
ghost use Rattle.std.specs.Prelude.{◌≡◌, IfOk, find};
ghost use Rattle.std.specs.List.{list_any};
ghost use Rattle.std.specs.Option.{option_map};
ghost use Rattle.ele_model.specs.NameRows.{is_live_directory};
ghost use Rattle.ele_model.specs.Restorable.{may_return, newest_rows, returning, restorable, triple_of};
ghost use Rattle.ele_model.specs.World.{is_file, next_of, is_version};

use crate::flat::Flat;
use crate::list::{DeletedNameList, deleted_names};
use crate::rows::{FileRow, NameRow, Target, VersionRow};
use ele_moment::{DirId, FileId, Name, NoMemory, VersionNo};
use std::alloc::Global;
use std::collections::BTreeMap;

/// The number that the file's next version gets, if the file is there.
fn next_if_there(files: &[FileRow], file: FileId) -> Option<VersionNo>
    ensures { result ≡ option_map (λ row. row.next) (find (is_file file) files.now) }
{
    files.iter().find(|row| row.id == file).map(|row| row.next)
}

/// The number that the file's next version gets, or 0 if the file isn't there.
#[tactic(auto, using(crate::proofs::Newest::next_is))]
fn next_of(files: &[FileRow], file: FileId) -> VersionNo
    ensures { result ≡ next_of files.now file }
{
    next_if_there(files, file).unwrap_or(VersionNo(0))
}

/// Whether the file's version is held.
fn is_held(versions: &[VersionRow], file: FileId, number: VersionNo) -> bool
    ensures { result ≡ list_any (is_version file number) versions.now }
{
    versions
        .iter()
        .any(|row| row.file == file && row.number == number)
}

/// Whether the row is a live name of the directory.
fn names_directory(row: &NameRow, id: DirId) -> bool
    ensures { result ≡ is_live_directory id row.now }
{
    match row.target {
        Target::File(_) => false,
        Target::Directory(directory) => directory == id && row.death.is_none(),
    }
}

/// Whether the directory has a live name.
fn is_live_directory(names: &[NameRow], id: DirId) -> bool
    ensures { result ≡ list_any (is_live_directory id) names.now }
{
    names.iter().any(|row| names_directory(row, id))
}

/// Whether a name of the target can be restored.
fn may_return(world: &Flat, target: Target) -> bool
    ensures { result ≡ may_return world.entry.now target }
{
    match target {
        Target::File(file) => {
            let last = next_of(world.files.as_slice(), file).before();
            is_held(world.versions.as_slice(), file, last)
        }
        Target::Directory(id) => !is_live_directory(world.names.as_slice(), id),
    }
}

/// The name, if its newest row is dead and its target may have a name again.
fn returning(world: &Flat, row: &NameRow) -> Option<(DirId, Name, Target)>
    ensures { result ≡ option_map triple_of (returning world.entry.now row.now) }
{
    if row.death.is_some() && may_return(world, row.target) {
        return Some((row.directory, row.name, row.target));
    }
    None
}

/// The newest row of each directory and name.
fn newest_rows(
    rows: &[NameRow],
    alloc: Global,
) -> Result<BTreeMap<(DirId, Name), NameRow>, NoMemory>
    ensures { IfOk result (λ newest. newest.entries ≡ newest_rows rows.now) }
{
    let mut newest = BTreeMap::new(alloc);
    for row in rows {
        let _older = newest.insert((row.directory, row.name), *row)?;
    }
    Ok(newest)
}

/// The restorable names, by directory and then by the bytes of the name.
pub fn restorable(world: &Flat) -> Result<DeletedNameList, NoMemory>
    ensures { IfOk result (λ names. names ≡ restorable world.entry.now) }
{
    let alloc = world.names.allocator();
    let newest = newest_rows(world.names.as_slice(), alloc)?;
    let names: Vec<(DirId, Name, Target)> = newest
        .values()
        .filter_map(|row| returning(world, row))
        .collect(alloc)?;
    deleted_names(alloc, names.as_slice())
}
