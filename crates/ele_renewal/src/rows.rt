//! Rows with fresh numbers.
//! A contract sees each row as the definition of it.
ghost use Rattle.std.specs.Prelude.{◌≡◌, IfOk, map};
ghost use Rattle.ele_renewal.specs.Numbers.{new_file};
ghost use Rattle.ele_renewal.specs.Renewed.{renewed_cells, renewed_directory, renewed_file, renewed_group, renewed_name, renewed_target, renewed_version};
ghost use Rattle.ele_renewal.specs.Writers.{AreFirst, IsInOrder, cells_by};

use crate::numbers::{new_directory, new_file, new_version};
use crate::writers::{Writers, writer_in};
use ele_lists::ListOf;
use ele_model::{
    Cell, DirectoryRow, FileId, FileRow, Flat, GroupRow, NameRow, NoMemory, Target, VersionRow,
};
use std::alloc::Global;

// A copy of plain items.
fn copy_list<T: Copy + Drop>(alloc: Global, items: &ListOf<T>) -> Result<ListOf<T>, NoMemory>
    ensures { IfOk result (λ copied. copied ≡ items.now) }
{
    Ok(ListOf::from_vec(Vec::from_slice(alloc, items.as_slice())?))
}

/// Returns the directory with its fresh number.
pub(crate) fn renewed_directory(flat: &Flat, row: &DirectoryRow) -> DirectoryRow
    requires { IsInOrder flat.now }
    ensures { result ≡ renewed_directory flat.entry.now row.now }
{
    DirectoryRow {
        id: new_directory(flat.directories.as_slice(), row.id),
        default: row.default,
    }
}

/// Returns the file with its fresh number and next number.
pub(crate) fn renewed_file(flat: &Flat, row: &FileRow) -> FileRow
    requires { IsInOrder flat.now }
    ensures { result ≡ renewed_file flat.entry.now row.now }
{
    let last = new_version(flat.versions.as_slice(), row.id, row.next.before());
    FileRow {
        id: new_file(flat.files.as_slice(), row.id),
        policy: row.policy,
        next: last.after(),
    }
}

// The target with its fresh number.
fn renewed_target(flat: &Flat, target: Target) -> Target
    requires { IsInOrder flat.now }
    ensures { result ≡ renewed_target flat.entry.now target }
{
    match target {
        Target::File(file) => Target::File(new_file(flat.files.as_slice(), file)),
        Target::Directory(directory) => {
            Target::Directory(new_directory(flat.directories.as_slice(), directory))
        }
    }
}

/// Returns the name with the fresh numbers of its directory and its target.
pub(crate) fn renewed_name(flat: &Flat, row: &NameRow) -> NameRow
    requires { IsInOrder flat.now }
    ensures { result ≡ renewed_name flat.entry.now row.now }
{
    NameRow {
        directory: new_directory(flat.directories.as_slice(), row.directory),
        name: row.name,
        target: renewed_target(flat, row.target),
        birth: row.birth,
        death: row.death,
    }
}

// The cells of a file's content, with the fresh writers that are known.
//
// `NoMemory` if memory is refused.
fn cells_by(
    alloc: Global,
    known: &Writers,
    file: FileId,
    cells: &[Cell],
) -> Result<ListOf<Cell>, NoMemory>
    ensures { IfOk result (λ fresh. fresh ≡ cells_by known.now file 0 cells.now) }
{
    let mut fresh = Vec::new(alloc);
    for slot in 0..cells.len() {
        let cell = &cells[slot];
        let writer = writer_in(known, file, slot, cell.writer);
        let bytes = copy_list(alloc, &cell.bytes)?;
        fresh.push(Cell { writer, bytes })?;
    }
    Ok(ListOf::from_vec(fresh))
}

/// Returns the version with the fresh numbers of its file, itself and its writers.
///
/// `NoMemory` if memory is refused.
pub(crate) fn renewed_version(
    alloc: Global,
    flat: &Flat,
    known: &Writers,
    row: &VersionRow,
) -> Result<VersionRow, NoMemory>
    requires order { IsInOrder flat.now }
    requires first { AreFirst flat.now.versions flat.now.versions known.now }
    ensures { IfOk result (λ fresh. fresh ≡ renewed_version flat.entry.now row.now) }
{
    Ok(VersionRow {
        file: new_file(flat.files.as_slice(), row.file),
        number: new_version(flat.versions.as_slice(), row.file, row.number),
        opened: row.opened,
        closed: row.closed,
        ended: row.ended,
        cells: cells_by(alloc, known, row.file, row.cells.as_slice())?,
    })
}

// The files with their fresh numbers.
//
// `NoMemory` if memory is refused.
fn renewed_members(
    alloc: Global,
    flat: &Flat,
    members: &[FileId],
) -> Result<ListOf<FileId>, NoMemory>
    requires { IsInOrder flat.now }
    ensures { IfOk result (λ fresh. fresh ≡ map (new_file flat.entry.now.files) members.now) }
{
    let mut fresh = Vec::new(alloc);
    for member in members {
        fresh.push(new_file(flat.files.as_slice(), *member))?;
    }
    Ok(ListOf::from_vec(fresh))
}

/// Returns the group with the fresh numbers of its files.
///
/// `NoMemory` if memory is refused.
pub(crate) fn renewed_group(
    alloc: Global,
    flat: &Flat,
    row: &GroupRow,
) -> Result<GroupRow, NoMemory>
    requires { IsInOrder flat.now }
    ensures { IfOk result (λ fresh. fresh ≡ renewed_group flat.entry.now row.now) }
{
    Ok(GroupRow {
        name: row.name,
        members: renewed_members(alloc, flat, row.members.as_slice())?,
        marks: copy_list(alloc, &row.marks)?,
    })
}
