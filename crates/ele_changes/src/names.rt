//! The names that are there at one of two moments alone. A contract sees them as rows.
ghost use Rattle.std.specs.Prelude.{◌≡◌, ◌&&◌, IfOk};
ghost use Rattle.std.specs.List.{list_any};
ghost use Rattle.ele_changes.specs.Names.{is_name_of, is_only_at, is_same_name, is_there, only_at};
ghost use Rattle.ele_model.specs.NameRows.{covers};

use ele_model::{NameRow, NoMemory, Target};
use ele_moment::Moment;
use std::alloc::Global;

/// Whether the name was there at the moment, by this row.
pub(crate) fn covers(row: &NameRow, moment: Moment) -> bool
    ensures { result ≡ covers moment row.now }
{
    row.birth <= moment && row.death.is_none_or(|death| moment < death)
}

/// Whether the row is a name of the target.
pub(crate) fn is_name_of(row: &NameRow, target: &Target) -> bool
    ensures { result ≡ is_name_of target.now row.now }
{
    match (target, &row.target) {
        (Target::File(id), Target::File(file)) => file == id,
        (Target::Directory(id), Target::Directory(directory)) => directory == id,
        _ => false,
    }
}

/// Whether both are names of one target, in one directory and of the same bytes.
pub(crate) fn is_same_name(row: &NameRow, other: &NameRow) -> bool
    ensures { result ≡ is_same_name row.now other.now }
{
    other.directory == row.directory && other.name == row.name && is_name_of(other, &row.target)
}

/// Whether the row covers the one moment, and its name isn't there at the other.
pub(crate) fn is_only_at(here: Moment, there: Moment, rows: &[NameRow], row: &NameRow) -> bool
    ensures { result ≡ is_only_at here there rows.now row.now }
{
    covers(row, here) && !is_there(there, rows, row)
}

// Whether the name is there at the moment, by this row or by another one.
fn is_there(moment: Moment, rows: &[NameRow], row: &NameRow) -> bool
    ensures { result ≡ is_there moment rows.now row.now }
{
    covers(row, moment) || has_same(moment, rows, row)
}

// Whether another of the rows is the same name, and covers the moment.
fn has_same(moment: Moment, rows: &[NameRow], row: &NameRow) -> bool
    ensures { result ≡ list_any (λ other. covers moment other && is_same_name row.now other) rows.now }
{
    rows.iter()
        .any(|other| covers(other, moment) && is_same_name(row, other))
}

/// Returns the names that are there at the one moment and not at the other.
///
/// `NoMemory` if memory is refused.
/// Cost: scans the rows for each of them that covers the one moment alone.
pub(crate) fn only_at(
    alloc: Global,
    here: Moment,
    there: Moment,
    rows: &[NameRow],
) -> Result<Vec<NameRow>, NoMemory>
    ensures { IfOk result (λ names. names.items ≡ only_at here there rows.now) }
{
    Ok(
        rows.iter()
            .copied()
            .filter(|row| is_only_at(here, there, rows, row))
            .collect(alloc)?,
    )
}
