//! The drafts and the handles that write them.
//! A contract sees the parts of a world that say so.
ghost use Rattle.std.specs.Prelude.{◌≡◌, ◌<◌, ◌↔◌, IfNone, IfSome, IfOk, IsTrue};
ghost use Rattle.std.specs.List.{AllByRecursion, list_any};
ghost use Rattle.ele_lists.specs.Keys.{Rises};
ghost use Rattle.ele_model.specs.WellFormed.{AreDrafts, AreHandles, AreHeldRead, IsDraft, IsHandle, IsReadable};
ghost use Rattle.ele_model.specs.World.{is_draft};
ghost use Rattle.ele_well_formed.specs.Fault.{IsEither};

use crate::content::{are_written_by, is_content};
use crate::files::next_of;
use crate::numbered::{first_misplaced, row_of};
use crate::test::{Test, first_wrong};
use ele_model::{DraftRow, FileRow, HandleRow, Moment, Reads};

// The test of a draft by itself, beside the files, at a moment.
#[derive(Drop)]
struct DraftTest<'a> {
    files: &'a [FileRow],
    moment: Moment,
}

impl<'a> Test<DraftRow> for DraftTest<'a> {
    ghost use Rattle.ele_lists.specs.Keys.{Rises};
    ghost use Rattle.ele_model.specs.WellFormed.{IsDraft};

    ghost ready = { λ test. Rises (λ row. row.id) test.files.now };

    ghost fits = { λ test row. IsDraft test.files.now test.moment row };

    fn fits(&self, row: &DraftRow) -> bool {
        let next = next_of(self.files, row.file);
        next.0 > 0
            && row.opened <= self.moment
            && is_content(row.cells.as_slice())
            && are_written_by(next, row.cells.as_slice())
    }
}

/// Returns the place of a draft that doesn't fit or isn't in order.
pub fn wrong_draft(rows: &[DraftRow], files: &[FileRow], moment: Moment) -> Option<usize>
    requires { Rises (λ row. row.id) files.now }
    ensures none { IfNone result (AreDrafts files.now moment rows.now) }
    ensures some { IfSome result (IsEither (IsDraft files.now moment)
        (λ earlier later. earlier.file < later.file) rows.now) }
{
    if let Some(at) = first_wrong(rows, &DraftTest { files, moment }) {
        return Some(at);
    }
    first_misplaced(rows)
}

/// Whether the file has a draft.
pub fn has_draft(drafts: &[DraftRow], file: u64) -> bool
    requires { Rises (λ row. row.file) drafts.now }
    ensures { result ≡ list_any (is_draft file) drafts.now }
{
    row_of(drafts, file).is_some()
}

// Whether the draft that is written is there. A version is another test's.
fn is_readable(drafts: &[DraftRow], reads: Reads) -> bool
    requires { Rises (λ row. row.file) drafts.now }
    ensures { IsTrue result ↔ IsReadable drafts.now reads }
{
    match reads {
        Reads::Draft(file) => has_draft(drafts, file.0),
        Reads::Version(_, _) => true,
    }
}

// The test of a handle, beside how many were opened and the drafts.
#[derive(Drop)]
struct HandleTest<'a> {
    made: u64,
    drafts: &'a [DraftRow],
}

impl<'a> Test<HandleRow> for HandleTest<'a> {
    ghost use Rattle.ele_lists.specs.Keys.{Rises};
    ghost use Rattle.ele_model.specs.WellFormed.{IsHandle};

    ghost ready = { λ test. Rises (λ row. row.file) test.drafts.now };

    ghost fits = { λ test row. IsHandle test.made test.drafts.now row };

    fn fits(&self, row: &HandleRow) -> bool {
        row.number.0 >= 1 && row.number.0 <= self.made && is_readable(self.drafts, row.reads)
    }
}

/// Returns the place of a handle that doesn't fit or isn't in order.
pub fn wrong_handle(rows: &[HandleRow], made: u64, drafts: &[DraftRow]) -> Option<usize>
    requires { Rises (λ row. row.file) drafts.now }
    ensures none { IfNone result (AreHandles made drafts.now rows.now) }
    ensures some { IfSome result (IsEither (IsHandle made drafts.now)
        (λ earlier later. earlier.number < later.number) rows.now) }
{
    if let Some(at) = first_wrong(rows, &HandleTest { made, drafts }) {
        return Some(at);
    }
    first_misplaced(rows)
}
