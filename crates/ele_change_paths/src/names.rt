//! The names of a moment, and the paths by these. A contract sees them as rows.
ghost use Rattle.std.specs.Prelude.{◌≡◌, IfOk};
ghost use Rattle.ele_name_paths.specs.LivePath.{names_in};
ghost use Rattle.ele_change_paths.specs.PathChanges.{living, names_then, path_by, path_of_name};
ghost use Rattle.ele_model.specs.NameRows.{covers};

use ele_model::{NameRow, Target};
use ele_moment::{Moment, Name, NoMemory};
use ele_name_paths::{Above, path_of};
use std::alloc::Global;

/// Returns the names of the moment, as they were while they lived.
///
/// `NoMemory` if memory is refused.
pub(crate) fn names_then(
    alloc: Global,
    moment: Moment,
    rows: &[NameRow],
) -> Result<Vec<NameRow>, NoMemory>
    ensures { IfOk result (λ names. names.items ≡ names_then moment rows.now) }
{
    Ok(
        rows.iter()
            .filter(|row| covers(row, moment))
            .map(|row| living(row))
            .collect(alloc)?,
    )
}

// Whether the name was there at the moment, by this row.
fn covers(row: &NameRow, moment: Moment) -> bool
    ensures { result ≡ covers moment row.now }
{
    row.birth <= moment && row.death.is_none_or(|death| moment < death)
}

// The name as it was while it lived.
fn living(row: &NameRow) -> NameRow
    ensures { result ≡ living row.now }
{
    NameRow {
        death: None,
        ..*row
    }
}

/// Returns the path of a name by the names of its moment. None without a name, or if these names
/// don't lead to its directory.
///
/// `NoMemory` if memory is refused.
/// Cost: scans the names for each name of the path.
pub(crate) fn path_by(
    alloc: Global,
    rows: &[NameRow],
    row: &Option<NameRow>,
) -> Result<Option<Vec<Name>>, NoMemory>
    ensures { IfOk result (λ path. names_in path ≡ path_by rows.now row.now) }
{
    match row {
        Some(row) => path_of_name(alloc, rows, row),
        None => Ok(None),
    }
}

// The path of a name by these names.
fn path_of_name(
    alloc: Global,
    rows: &[NameRow],
    row: &NameRow,
) -> Result<Option<Vec<Name>>, NoMemory>
    ensures { IfOk result (λ path. names_in path ≡ path_of_name rows.now row.now) }
{
    let above = path_of(alloc, Above::Live, rows, Target::Directory(row.directory))?;
    match above {
        Some(mut names) => {
            names.push(row.name)?;
            Ok(Some(names))
        }
        None => Ok(None),
    }
}
