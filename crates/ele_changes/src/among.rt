//! Which of the names of two moments belong together. A contract sees the names as rows.
ghost use Rattle.std.specs.Prelude.{◌≡◌};
ghost use Rattle.ele_changes.specs.Names.{is_first, is_known_by, is_named_at, name_among, other_name};

use crate::names::{covers, is_name_of, is_same_name};
use ele_model::{NameRow, Target};
use ele_moment::Moment;

/// The name of the row's target among the other ones, if the row is the first of its own.
pub(crate) fn other_name(own: &[NameRow], others: &[NameRow], row: &NameRow) -> Option<NameRow>
    ensures { result ≡ other_name own.now others.now row.now }
{
    if !is_first(own, row) {
        return None;
    }
    name_among(others, &row.target)
}

// Whether the row is the first of these names that its target has.
fn is_first(rows: &[NameRow], row: &NameRow) -> bool
    ensures { result ≡ is_first rows.now row.now }
{
    match name_among(rows, &row.target) {
        Some(first) => is_same_name(row, &first),
        None => false,
    }
}

// The first of these names that is one of the target.
fn name_among(rows: &[NameRow], target: &Target) -> Option<NameRow>
    ensures { result ≡ name_among rows.now target.now }
{
    rows.iter().copied().find(|row| is_name_of(row, target))
}

/// Whether the target has a name at the moment.
pub(crate) fn is_named_at(moment: Moment, rows: &[NameRow], target: &Target) -> bool
    ensures { result ≡ is_named_at moment rows.now target.now }
{
    rows.iter()
        .any(|row| covers(row, moment) && is_name_of(row, target))
}

/// Whether the target had got a name by the moment.
pub(crate) fn is_known_by(moment: Moment, rows: &[NameRow], target: &Target) -> bool
    ensures { result ≡ is_known_by moment rows.now target.now }
{
    rows.iter()
        .any(|row| row.birth <= moment && is_name_of(row, target))
}
