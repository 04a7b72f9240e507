//! The versions: each by itself, and one after the other.
//! A contract sees the part of a world that says so.
ghost use Rattle.std.specs.Prelude.{◌≡◌, ◌<◌, ◌↔◌, IfNone, IfSome, IsTrue};
ghost use Rattle.std.specs.List.{AllByRecursion};
ghost use Rattle.ele_lists.specs.Keys.{Rises};
ghost use Rattle.ele_lists.specs.Lists.{AllLater};
ghost use Rattle.ele_model.specs.WellFormed.{ArePlaced, AreVersions, IsVersion};
ghost use Rattle.ele_well_formed.specs.Fault.{IsEither};
ghost use Rattle.ele_well_formed.specs.Means.{AreMoments, IsNumbered, IsSpan};
ghost use Rattle.ele_well_formed.specs.Wrong.{IsMisplaced};

use crate::content::{are_written_by, is_content};
use crate::files::next_of;
use crate::test::{Test, first_wrong};
use ele_model::{FileRow, Moment, VersionNo, VersionRow};

// Whether the moments of a version are in order, up to a moment.
fn are_in_order(row: &VersionRow, moment: Moment) -> bool
    ensures { IsTrue result ↔ AreMoments moment row.now }
{
    let ended = match row.ended {
        Some(ended) => row.closed <= ended && ended <= moment,
        None => true,
    };
    ended && row.opened <= row.closed && row.closed <= moment
}

// Whether a version's number fits its file's next one.
fn is_numbered(row: &VersionRow, next: VersionNo) -> bool
    ensures { IsTrue result ↔ IsNumbered next row.now }
{
    if row.number >= next {
        return false;
    }
    row.number.0 >= 1 && (row.ended.is_some() || next.0 - 1 == row.number.0)
}

// The test of a version by itself, beside the files, at a moment.
#[derive(Drop)]
struct VersionTest<'a> {
    files: &'a [FileRow],
    moment: Moment,
}

impl<'a> Test<VersionRow> for VersionTest<'a> {
    ghost use Rattle.ele_lists.specs.Keys.{Rises};
    ghost use Rattle.ele_model.specs.WellFormed.{IsVersion};

    ghost ready = { λ test. Rises (λ row. row.id) test.files.now };

    ghost fits = { λ test row. IsVersion test.files.now test.moment row };

    fn fits(&self, row: &VersionRow) -> bool {
        is_numbered(row, next_of(self.files, row.file))
            && are_in_order(row, self.moment)
            && is_content(row.cells.as_slice())
            && are_written_by(row.number, row.cells.as_slice())
    }
}

// Whether the later version follows the earlier one.
fn are_placed(earlier: &VersionRow, later: &VersionRow) -> bool
    ensures { IsTrue result ↔ ArePlaced earlier.now later.now }
{
    if later.file > earlier.file {
        return true;
    }
    let ended = match earlier.ended {
        Some(ended) => ended <= later.closed,
        None => false,
    };
    later.file == earlier.file && later.number > earlier.number && ended
}

/// Returns the place of a version that doesn't follow the one before it.
pub fn misplaced_version(rows: &[VersionRow]) -> Option<usize>
    requires { AllByRecursion IsSpan rows.now }
    ensures none { IfNone result (AllLater ArePlaced rows.now) }
    ensures some { IfSome result (IsMisplaced ArePlaced rows.now) }
{
    for place in 0..rows.len().saturating_sub(1) {
        if !are_placed(&rows[place], &rows[place + 1]) {
            return Some(place + 1);
        }
    }
    None
}

/// Returns the place of a version that doesn't fit by itself, or doesn't follow the one before it.
pub fn wrong_version(rows: &[VersionRow], files: &[FileRow], moment: Moment) -> Option<usize>
    requires { Rises (λ row. row.id) files.now }
    ensures none { IfNone result (AreVersions files.now moment rows.now) }
    ensures some { IfSome result (IsEither (IsVersion files.now moment) ArePlaced rows.now) }
{
    if let Some(at) = first_wrong(rows, &VersionTest { files, moment }) {
        return Some(at);
    }
    misplaced_version(rows)
}
