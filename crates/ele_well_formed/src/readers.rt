//! The versions that handles read: each is held.
//! A contract sees the part of a world that says so.
ghost use Rattle.std.specs.Prelude.{◌≡◌, ◌↔◌, IfNone, IfSome, IsTrue};
ghost use Rattle.std.specs.List.{list_any};
ghost use Rattle.ele_lists.specs.Lists.{AllLater};
ghost use Rattle.ele_model.specs.WellFormed.{AreHeldRead, ArePlaced, IsHeldRead};
ghost use Rattle.ele_model.specs.World.{is_version};
ghost use Rattle.ele_well_formed.specs.Means.{is_before};
ghost use Rattle.ele_well_formed.specs.Wrong.{IsWrong};

use crate::test::{Test, first_wrong};
use ele_model::{FileId, HandleRow, Reads, VersionNo, VersionRow};

// Whether the version comes before that number of that file.
fn is_before(row: &VersionRow, file: FileId, number: VersionNo) -> bool
    ensures { result ≡ is_before file number row.now }
{
    row.file < file || row.file == file && row.number < number
}

// Whether the version has that number of that file.
fn is_version(row: &VersionRow, file: FileId, number: VersionNo) -> bool
    ensures { result ≡ is_version file number row.now }
{
    row.file == file && row.number == number
}

// Whether the version is held, by a binary search.
fn is_held(versions: &[VersionRow], file: FileId, number: VersionNo) -> bool
    requires { AllLater ArePlaced versions.now }
    ensures { result ≡ list_any (is_version file number) versions.now }
{
    let at = versions.partition_point(|row| is_before(row, file, number));
    match versions.get(at) {
        Some(row) => is_version(row, file, number),
        None => false,
    }
}

// The test that the version that a handle reads is held, beside all versions.
#[derive(Drop)]
struct ReaderTest<'a> {
    versions: &'a [VersionRow],
}

impl<'a> Test<HandleRow> for ReaderTest<'a> {
    ghost use Rattle.ele_lists.specs.Lists.{AllLater};
    ghost use Rattle.ele_model.specs.WellFormed.{ArePlaced, IsHeldRead};

    ghost ready = { λ test. AllLater ArePlaced test.versions.now };

    ghost fits = { λ test row. IsHeldRead test.versions.now row.reads };

    fn fits(&self, row: &HandleRow) -> bool {
        match row.reads {
            Reads::Draft(_) => true,
            Reads::Version(file, number) => is_held(self.versions, file, number),
        }
    }
}

/// Returns the place of a handle that reads a version that isn't held.
pub fn wrong_reader(rows: &[HandleRow], versions: &[VersionRow]) -> Option<usize>
    requires { AllLater ArePlaced versions.now }
    ensures none { IfNone result (AreHeldRead versions.now rows.now) }
    ensures some { IfSome result (IsWrong (λ row. IsHeldRead versions.now row.reads) rows.now) }
{
    first_wrong(rows, &ReaderTest { versions })
}
