//! The rows of a world after a clean, made in place. A contract sees them as a world.
ghost use Rattle.std.specs.Prelude.{◌≡◌, ◌∷◌, ◌==◌, ◌&&◌, [], IfOk, filter, not, position};
ghost use Rattle.std.specs.List.{list_any};
ghost use Rattle.ele_lists.specs.Lists.{remove_first};
ghost use Rattle.ele_model.specs.Change.{DropIdle, Take, after_change, after_changes, is_idle, without_file};
ghost use Rattle.ele_model.specs.FileView.{is_version_of};
ghost use Rattle.ele_model.specs.GroupRows.{forgets, forgotten};
ghost use Rattle.ele_model.specs.World.{has_draft, is_draft, is_file, is_target_file, is_version};

use ele_model::{
    DraftRow, FileRow, Flat, GroupRow, Key, ListOf, NameRow, NoMemory, Target, VersionRow, is_live,
};
use ele_moment::{FileId, VersionNo};
use std::alloc::Global;

/// Returns the world without the version with the key, and without its file if that has no live
/// name, no held version and no draft any more.
///
/// `NoMemory` if memory is refused.
/// Cost: scans the versions. If the file goes, it also scans the files and names, and takes memory
/// for the rows of groups.
pub(crate) fn cleaned(alloc: Global, world: Flat, key: Key) -> Result<Flat, NoMemory>
    ensures { IfOk result (λ left. left
        ≡ after_changes world (Take key.file key.number ∷ DropIdle key.file ∷ [])) }
{
    let left = without_version(world, key.file, key.number);
    if is_idle(&left, key.file) {
        return without_file(alloc, left, key.file);
    }
    Ok(left)
}

// ---- versions

// The world without the version.
fn without_version(world: Flat, file: FileId, number: VersionNo) -> Flat
    ensures { result ≡ after_change world (Take file number) }
{
    let mut world = world;
    let mut rows = world.versions.into_vec();
    take_version(&mut rows, file, number);
    world.versions = ListOf::from_vec(rows);
    world
}

// Removes the first row of the version, if there is one. The others keep their order.
#[tactic(auto, using(ele_lists::proofs::Places::first_places))]
fn take_version(rows: &mut Vec<VersionRow>, file: FileId, number: VersionNo)
    ensures { rows.new.items ≡ remove_first (is_version file number) rows.old.items }
{
    if let Some(place) = version_place(rows, file, number) {
        let _row = rows.remove(place);
    }
}

// The place of the first row of the version.
fn version_place(rows: &[VersionRow], file: FileId, number: VersionNo) -> Option<usize>
    ensures { result ≡ position (is_version file number) rows.now }
{
    rows.iter()
        .position(|row| row.file == file && row.number == number)
}

// ---- whether a file goes

// Whether the file has no live name, no held version and no draft.
fn is_idle(world: &Flat, file: FileId) -> bool
    ensures { result ≡ is_idle world.entry.now file }
{
    !is_live(world.names.as_slice(), file) && has_nothing(world, file)
}

// Whether the file has no held version and no draft.
fn has_nothing(world: &Flat, file: FileId) -> bool
    ensures { result ≡ (not (list_any (is_version_of file) world.entry.now.versions)
        && not (has_draft world.entry.now file)) }
{
    !has_version(world.versions.as_slice(), file) && !has_draft(world.drafts.as_slice(), file)
}

// Whether a version of the file is held.
fn has_version(rows: &[VersionRow], file: FileId) -> bool
    ensures { result ≡ list_any (is_version_of file) rows.now }
{
    rows.iter().any(|row| row.file == file)
}

// Whether the file has a draft.
fn has_draft(rows: &[DraftRow], file: FileId) -> bool
    ensures { result ≡ list_any (is_draft file) rows.now }
{
    rows.iter().any(|row| row.file == file)
}

// ---- without the file

// The world without the file, its names and its memberships in groups.
fn without_file(alloc: Global, world: Flat, file: FileId) -> Result<Flat, NoMemory>
    ensures { IfOk result (λ left. left ≡ without_file world file) }
{
    let mut world = world;
    let groups = forgotten(alloc, world.groups.into_vec(), file)?;
    world.groups = ListOf::from_vec(groups);
    let mut files = world.files.into_vec();
    take_file(&mut files, file);
    world.files = ListOf::from_vec(files);
    let mut names = world.names.into_vec();
    take_names(&mut names, file);
    world.names = ListOf::from_vec(names);
    Ok(world)
}

// Removes the first row of the file, if there is one. The others keep their order.
#[tactic(auto, using(ele_lists::proofs::Places::first_places))]
fn take_file(rows: &mut Vec<FileRow>, file: FileId)
    ensures { rows.new.items ≡ remove_first (is_file file) rows.old.items }
{
    if let Some(place) = file_place(rows, file) {
        let _row = rows.remove(place);
    }
}

// The place of the first row of the file.
fn file_place(rows: &[FileRow], file: FileId) -> Option<usize>
    ensures { result ≡ position (is_file file) rows.now }
{
    rows.iter().position(|row| row.id == file)
}

// Removes the names of the file.
fn take_names(rows: &mut Vec<NameRow>, file: FileId)
    ensures { rows.new.items
        ≡ filter (λ row. not (is_target_file file row.target)) rows.old.items }
{
    rows.retain(|row| !is_target_file(&row.target, file));
}

// Whether the target is the file.
fn is_target_file(target: &Target, file: FileId) -> bool
    ensures { result ≡ is_target_file file target.now }
{
    match target {
        Target::File(other) => *other == file,
        Target::Directory(_) => false,
    }
}

// The groups without the file.
fn forgotten(alloc: Global, groups: Vec<GroupRow>, file: FileId) -> Result<Vec<GroupRow>, NoMemory>
    ensures { IfOk result (λ rows. rows.items ≡ forgotten file groups.items) }
{
    Ok(
        groups
            .into_iter()
            .map(|group| without_member(group, file))
            .collect(alloc)?,
    )
}

// The group without the file.
fn without_member(group: GroupRow, file: FileId) -> GroupRow
    ensures { result ≡ forgets file group }
{
    let GroupRow {
        name,
        members,
        marks,
    } = group;
    let mut left = members.into_vec();
    take_member(&mut left, file);
    GroupRow {
        name,
        members: ListOf::from_vec(left),
        marks,
    }
}

// Removes the file from members.
fn take_member(members: &mut Vec<FileId>, file: FileId)
    ensures { members.new.items ≡ filter (λ member. not (member == file)) members.old.items }
{
    members.retain(|member| *member != file);
}
