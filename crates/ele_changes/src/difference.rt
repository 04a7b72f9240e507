//! What changed between two moments. A contract sees it as rows.
ghost use Rattle.std.specs.Prelude.{◌≡◌, IfOk};
ghost use Rattle.ele_changes.specs.Changes.{change_by, change_of, changes_between, kind_gained, kind_kept, kind_lost, kind_of, span_refusal, told};

use crate::among::{is_known_by, is_named_at, other_name};
use crate::change::{Change, ChangeKind, Span};
use crate::names::{covers, is_only_at, only_at};
use crate::told::{NameChange, gained_name, lost_name};
use crate::version::{may_differ, number_at};
use ele_model::{Flat, NameRow, NoMemory, Refusal};
use ele_moment::{Moment, VersionNo};

/// Returns why the moments are refused, if they are: `Future` if the second one is after now,
/// `NotAhead` if it is before the first.
/// Cost: constant time.
pub fn span_refusal(now: Moment, span: &Span) -> Option<Refusal>
    ensures { result ≡ span_refusal now span.now }
{
    if now < span.second {
        return Some(Refusal::Future);
    }
    if span.second < span.first {
        return Some(Refusal::NotAhead);
    }
    None
}

/// Returns what changed between the moments, as look-ups with these see names and versions: a row for
/// each name that is there at one of them alone, one for two of these that belong together, and one
/// for each file with its name at both, unless it is known that it had one version. They are in order
/// of the making of names.
///
/// `NoMemory` if memory is refused.
/// Cost: scans the versions twice for each name of a file, and the names for each change.
pub fn changes(world: &Flat, span: &Span) -> Result<Vec<Change>, NoMemory>
    ensures { IfOk result (λ rows. rows.items ≡ changes_between world.entry.now span.now) }
{
    let alloc = world.names.allocator();
    let rows = world.names.as_slice();
    let lost = only_at(alloc, span.first, span.second, rows)?;
    let gained = only_at(alloc, span.second, span.first, rows)?;
    Ok(
        rows.iter()
            .filter_map(|row| change_by(world, span, &lost, &gained, row))
            .collect(alloc)?,
    )
}

// The change that the row of a name tells, if it tells one.
fn change_by(
    world: &Flat,
    span: &Span,
    lost: &[NameRow],
    gained: &[NameRow],
    row: &NameRow,
) -> Option<Change>
    ensures { result ≡ change_by world.entry.now span.now lost.now gained.now row.now }
{
    let names = told(world, span, lost, gained, row)?;
    Some(change_of(world, span, &names))
}

// What the row of a name tells, beside the names that are lost and those that are gained.
fn told(
    world: &Flat,
    span: &Span,
    lost: &[NameRow],
    gained: &[NameRow],
    row: &NameRow,
) -> Option<NameChange>
    ensures { result ≡ told world.entry.now span.now lost.now gained.now row.now }
{
    let rows = world.names.as_slice();
    if is_only_at(span.first, span.second, rows, row) {
        return lost_name(row, other_name(lost, gained, row));
    }
    if is_only_at(span.second, span.first, rows, row) {
        return gained_name(row, other_name(gained, lost, row));
    }
    if covers(row, span.first) && may_differ(world.versions.as_slice(), span, &row.target) {
        return Some(NameChange::Kept(*row));
    }
    None
}

// The change that the names tell, with the versions of both moments.
fn change_of(world: &Flat, span: &Span, names: &NameChange) -> Change
    ensures { result ≡ change_of world.entry.now span.now names.now }
{
    let versions = world.versions.as_slice();
    let kind = kind_of(world, span, names);
    let before = number_at(versions, span.first, &names.target());
    let after = number_at(versions, span.second, &names.target());
    Change {
        kind,
        target: names.target(),
        before,
        after,
        from: names.first_name(),
        to: names.second_name(),
    }
}

// What kind of change the names tell.
fn kind_of(world: &Flat, span: &Span, names: &NameChange) -> ChangeKind
    ensures { result ≡ kind_of world.entry.now span.now names.now }
{
    let rows = world.names.as_slice();
    let versions = world.versions.as_slice();
    match names {
        NameChange::Gained(row) => kind_gained(rows, span, row),
        NameChange::Lost(row) => kind_lost(rows, span, row),
        NameChange::Moved(..) => ChangeKind::Renamed,
        NameChange::Kept(row) => {
            let before = number_at(versions, span.first, &row.target);
            kind_kept(before, number_at(versions, span.second, &row.target))
        }
    }
}

// What kind of change a name tells that is gained.
fn kind_gained(rows: &[NameRow], span: &Span, row: &NameRow) -> ChangeKind
    ensures { result ≡ kind_gained span.now rows.now row.now }
{
    if is_named_at(span.first, rows, &row.target) {
        return ChangeKind::Linked;
    }
    if is_known_by(span.first, rows, &row.target) {
        return ChangeKind::Back;
    }
    ChangeKind::Made
}

// What kind of change a name tells that is lost.
fn kind_lost(rows: &[NameRow], span: &Span, row: &NameRow) -> ChangeKind
    ensures { result ≡ kind_lost span.now rows.now row.now }
{
    if is_named_at(span.second, rows, &row.target) {
        return ChangeKind::Unlinked;
    }
    ChangeKind::Deleted
}

// What kind of change it is of a file that keeps its name.
fn kind_kept(before: Option<VersionNo>, after: Option<VersionNo>) -> ChangeKind
    ensures { result ≡ kind_kept before after }
{
    if before.is_none() && after.is_none() {
        return ChangeKind::Forgotten;
    }
    ChangeKind::Saved
}
