//! The last name of a file. A contract sees the names as rows.
ghost use Rattle.std.specs.Prelude.{◌≡◌, IfOk, filter};
ghost use Rattle.std.specs.List.{list_any};
ghost use Rattle.ele_name_paths.specs.LivePath.{is_name_to};
ghost use Rattle.ele_removals.specs.Removals.{IsNameIf, is_later, is_latest, known_name, outlives};

use ele_audit::{NameStory, name_story};
use ele_model::{NameRow, NoMemory, Target};
use ele_moment::Moment;
use ele_name_paths::is_name_to;
use std::alloc::Global;

/// Returns what is known of the name that leads to the target or, if none does, of the last one that
/// did. None if the target never had a name.
///
/// `NoMemory` if memory is refused.
/// Cost: scans the rows, also for each name of the path.
pub(crate) fn known_story(
    alloc: Global,
    rows: &[NameRow],
    target: &Target,
) -> Result<Option<NameStory>, NoMemory>
    ensures { IfOk result (λ name. IsNameIf rows.now (known_name rows.now target.now) name) }
{
    match known_name(alloc, rows, target)? {
        Some(row) => {
            let name = name_story(alloc, rows, &row)?;
            Ok(Some(name))
        }
        None => Ok(None),
    }
}

// The name that leads to the target, or the last one that did.
fn known_name(alloc: Global, rows: &[NameRow], target: &Target) -> Result<Option<NameRow>, NoMemory>
    ensures { IfOk result (λ name. name ≡ known_name rows.now target.now) }
{
    let names = names_of(alloc, rows, target)?;
    let found = names.iter().copied().find(|row| is_latest(&names, row));
    Ok(found)
}

// The names of the target, live and dead.
fn names_of(alloc: Global, rows: &[NameRow], target: &Target) -> Result<Vec<NameRow>, NoMemory>
    ensures { IfOk result (λ names. names.items ≡ filter (is_name_to target.now) rows.now) }
{
    Ok(
        rows.iter()
            .copied()
            .filter(|row| is_name_to(row, target))
            .collect(alloc)?,
    )
}

// Whether none of the names lived longer.
fn is_latest(names: &[NameRow], row: &NameRow) -> bool
    ensures { result ≡ is_latest names.now row.now }
{
    !any_outlives(names, row)
}

// Whether one of the names lived longer.
fn any_outlives(names: &[NameRow], row: &NameRow) -> bool
    ensures { result ≡ list_any (outlives row.now) names.now }
{
    names.iter().any(|other| outlives(row, other))
}

// Whether the other name lived longer.
fn outlives(row: &NameRow, other: &NameRow) -> bool
    ensures { result ≡ outlives row.now other.now }
{
    is_later(other.death, row.death)
}

// Whether one moment is later than the other; none is the latest.
fn is_later(moment: Option<Moment>, other: Option<Moment>) -> bool
    ensures { result ≡ is_later moment other }
{
    match (moment, other) {
        (_, None) => false,
        (None, Some(_)) => true,
        (Some(moment), Some(other)) => other < moment,
    }
}
