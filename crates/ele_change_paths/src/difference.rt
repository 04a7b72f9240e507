//! What changed between two moments, by path. A contract sees it as rows.
ghost use Rattle.std.specs.Prelude.{◌≡◌, ◌++◌, ◌∷◌, [], IfOk, List, filter};
ghost use Rattle.std.specs.List.{AllZip};
ghost use Rattle.ele_change_paths.specs.PathChanges.{ArePathChanges, IsDifference, IsPathChange, is_asked, names_then};
ghost use Rattle.ele_changes.specs.Changes.{changes_between};

use crate::names::{names_then, path_by};
use crate::row::{Difference, PathChange};
use crate::within::touches;
use ele_changes::{Change, Span, changes, span_refusal};
use ele_model::{Explain, Flat, NameRow, NoMemory, Refusal};
use ele_path::Path;
use std::alloc::Global;

/// Returns what changed between the moments, as look-ups with these see names and versions. With a
/// path, only what has a path at it or below it at one of the moments. Refused: `Future` if the
/// second moment is after now, `NotAhead` if it is before the first.
///
/// `NoMemory` if memory is refused.
/// Cost: a copy of all rows, and what `changes` of `ele_changes` costs. It scans the names for each
/// name of the path of a change.
pub fn changes_by_path<C: Explain>(
    span: &Span,
    within: &Option<Path>,
    core: &C,
) -> Result<Result<Difference, Refusal>, NoMemory>
    ensures { IfOk result (IsDifference (C.world core.now) span.now within.now) }
{
    match span_refusal(core.now(), span) {
        Some(refusal) => Ok(Err(refusal)),
        None => {
            let found = difference_of(span, within, core)?;
            Ok(Ok(found))
        }
    }
}

// The changes between moments that aren't refused.
fn difference_of<C: Explain>(
    span: &Span,
    within: &Option<Path>,
    core: &C,
) -> Result<Difference, NoMemory>
    ensures { IfOk result
        (λ found. ArePathChanges (names_then span.now.first (C.world core.now).names)
        (names_then span.now.second (C.world core.now).names) within.now
        (changes_between (C.world core.now) span.now) found.rows.items) }
{
    let world = core.flat()?;
    let rows = rows_between(span, within, &world)?;
    Ok(Difference { rows })
}

// The changes between the moments, with the paths of both.
fn rows_between(
    span: &Span,
    within: &Option<Path>,
    world: &Flat,
) -> Result<Vec<PathChange>, NoMemory>
    ensures { IfOk result (λ rows. ArePathChanges (names_then span.now.first world.entry.now.names)
        (names_then span.now.second world.entry.now.names) within.now
        (changes_between world.entry.now span.now) rows.items) }
{
    let alloc = world.names.allocator();
    let was = names_then(alloc, span.first, world.names.as_slice())?;
    let is = names_then(alloc, span.second, world.names.as_slice())?;
    let found = changes(world, span)?;
    let rows = rows_of(alloc, &was, &is, within, &found)?;
    Ok(rows)
}

// These changes, if they are asked for, with the paths by the names of each moment.
fn rows_of(
    alloc: Global,
    was: &[NameRow],
    is: &[NameRow],
    within: &Option<Path>,
    changes: &[Change],
) -> Result<Vec<PathChange>, NoMemory>
    ensures { IfOk result
        (λ rows. ArePathChanges was.now is.now within.now changes.now rows.items) }
{
    let mut rows = Vec::new(alloc);
    for change in changes {
        add_row(alloc, was, is, within, change, &mut rows)?;
    }
    Ok(rows)
}

// Pushes the row of the change, if it is asked for.
#[tactic(auto, using(ele_name_paths::proofs::Gathers::keeps_one, ele_name_paths::proofs::Gathers::keeps_no))]
fn add_row(
    alloc: Global,
    was: &[NameRow],
    is: &[NameRow],
    within: &Option<Path>,
    change: &Change,
    rows: &mut Vec<PathChange>,
) -> Result<(), NoMemory>
    ensures { IfOk result (λ _. (added : List PathChange)
        × AllZip (IsPathChange was.now is.now)
        (filter (is_asked was.now is.now within.now) (change.now ∷ [])) added
        × (rows.new.items ≡ rows.old.items ++ added)) }
{
    let row = row_of(alloc, was, is, change)?;
    if !touches(within, &row.from, &row.to) {
        return Ok(());
    }
    rows.push(row)?;
    Ok(())
}

// The change with the paths of its name.
fn row_of(
    alloc: Global,
    was: &[NameRow],
    is: &[NameRow],
    change: &Change,
) -> Result<PathChange, NoMemory>
    ensures { IfOk result (IsPathChange was.now is.now change.now) }
{
    let from = path_by(alloc, was, &change.from)?;
    let to = path_by(alloc, is, &change.to)?;
    Ok(PathChange {
        change: *change,
        from,
        to,
    })
}
