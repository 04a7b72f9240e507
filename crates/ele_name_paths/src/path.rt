//! The path of a file or directory by the live names, or by the last ones. A contract sees the names
//! as rows.
ghost use Rattle.std.specs.Prelude.{◌≡◌, [], IfOk, Some, None, cond, find, if◌then◌else◌, reverse};
ghost use Rattle.std.specs.Option.{option_or};
ghost use Rattle.ele_name_paths.specs.LivePath.{is_live_name_to, is_name_to, name_by, names_in, path_by};
ghost use Rattle.ele_lists.specs.Last.{last_passing};
ghost use Rattle.ele_model.specs.NameRows.{is_live_directory, is_target_directory};
ghost use Rattle.ele_model.specs.World.{is_live_name_of, is_target_file, root};

use ele_model::{NameRow, Target};
use ele_moment::{DirId, FileId, Name, NoMemory};
use std::alloc::Global;

/// By which names a path goes.
#[derive(Clone, Copy)]
pub enum Above {
    /// By the first live name of each target.
    Live,
    /// By that one, and by the last name of a target that has no live one.
    Last,
}

/// Returns the names of the path to the target, from the root on. None if no such names lead from
/// the root to it.
///
/// `NoMemory` if memory is refused.
/// Cost: scans the rows for each name of the path, which takes memory.
pub fn path_of(
    alloc: Global,
    above: Above,
    rows: &[NameRow],
    target: Target,
) -> Result<Option<Vec<Name>>, NoMemory>
    ensures { IfOk result (λ path. names_in path ≡ path_by above rows.now target) }
{
    let mut names = Vec::new(alloc);
    if !climb(above, rows, target, &mut names)? {
        return Ok(None);
    }
    names.reverse();
    Ok(Some(names))
}

// Pushes the names from the target up to the root. Returns whether it came to the root.
fn climb(
    above: Above,
    rows: &[NameRow],
    target: Target,
    names: &mut Vec<Name>,
) -> Result<bool, NoMemory>
    requires { names.now.items ≡ [] }
    ensures { IfOk result (λ is_whole. path_by above rows.now target
        ≡ (if is_whole then Some (reverse names.new.items) else None)) }
{
    let mut at = target;
    for _ in 0..rows.len() {
        let Some(row) = name_above(above, rows, &at) else {
            return Ok(is_root(&at));
        };
        names.push(row.name)?;
        at = Target::Directory(row.directory);
    }
    Ok(is_root(&at))
}

// The name of the target that the path goes by; the root has none.
fn name_above(above: Above, rows: &[NameRow], at: &Target) -> Option<NameRow>
    ensures { result
        ≡ (if is_target_directory root at.now then None else name_by above rows.now at.now) }
{
    if is_root(at) {
        return None;
    }
    name_by(above, rows, at)
}

// The name of the target that a path goes by.
fn name_by(above: Above, rows: &[NameRow], at: &Target) -> Option<NameRow>
    ensures { result ≡ name_by above rows.now at.now }
{
    match above {
        Above::Live => first_name(rows, at),
        Above::Last => known_name(rows, at),
    }
}

// The first live name of the target, or if it has none its last name.
fn known_name(rows: &[NameRow], at: &Target) -> Option<NameRow>
    ensures { result
        ≡ option_or (find (is_live_name_to at.now) rows.now) (last_passing (is_name_to at.now) rows.now) }
{
    if let Some(row) = first_name(rows, at) {
        return Some(row);
    }
    last_name(rows, at)
}

// The first live name of the target.
fn first_name(rows: &[NameRow], at: &Target) -> Option<NameRow>
    ensures { result ≡ find (is_live_name_to at.now) rows.now }
{
    rows.iter().copied().find(|row| is_live_name_to(row, at))
}

// The last name of the target, live or dead.
fn last_name(rows: &[NameRow], at: &Target) -> Option<NameRow>
    ensures { result ≡ last_passing (is_name_to at.now) rows.now }
{
    let mut last = None;
    for row in rows {
        last = later_name(row, at, last);
    }
    last
}

// The row, if it is a name of the target, else the one before it.
fn later_name(row: &NameRow, at: &Target, before: Option<NameRow>) -> Option<NameRow>
    ensures { result ≡ option_or (cond (is_name_to at.now row.now) (Some row.now) None) before }
{
    if is_name_to(row, at) {
        return Some(*row);
    }
    before
}

/// Whether the row is a name of the target, live or dead.
/// Cost: constant time.
pub fn is_name_to(row: &NameRow, target: &Target) -> bool
    ensures { result ≡ is_name_to target.now row.now }
{
    match target {
        Target::File(id) => is_target_file(&row.target, *id),
        Target::Directory(id) => is_target_directory(&row.target, *id),
    }
}

// Whether the row is a live name of the target.
fn is_live_name_to(row: &NameRow, target: &Target) -> bool
    ensures { result ≡ is_live_name_to target.now row.now }
{
    match target {
        Target::File(id) => is_name_of_file(row, *id),
        Target::Directory(id) => is_name_of_directory(row, *id),
    }
}

// Whether the row is a live name of the file.
fn is_name_of_file(row: &NameRow, id: FileId) -> bool
    ensures { result ≡ is_live_name_of id row.now }
{
    is_target_file(&row.target, id) && row.death.is_none()
}

// Whether the row is a live name of the directory.
fn is_name_of_directory(row: &NameRow, id: DirId) -> bool
    ensures { result ≡ is_live_directory id row.now }
{
    is_target_directory(&row.target, id) && row.death.is_none()
}

// Whether the target is the file.
fn is_target_file(target: &Target, id: FileId) -> bool
    ensures { result ≡ is_target_file id target.now }
{
    match target {
        Target::File(file) => *file == id,
        Target::Directory(_) => false,
    }
}

// Whether the target is the directory.
fn is_target_directory(target: &Target, id: DirId) -> bool
    ensures { result ≡ is_target_directory id target.now }
{
    match target {
        Target::File(_) => false,
        Target::Directory(directory) => *directory == id,
    }
}

// Whether the target is the root.
fn is_root(target: &Target) -> bool
    ensures { result ≡ is_target_directory root target.now }
{
    is_target_directory(target, DirId(0))
}
