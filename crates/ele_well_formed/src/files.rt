//! The files: numbers that rise and were given, and the next number of a file's versions.
//! A contract sees the part of a world that says so, and the next number as `ele_model` does.
ghost use Rattle.std.specs.Prelude.{◌≡◌, ◌<◌, ◌↔◌, IfNone, IfSome, IsTrue};
ghost use Rattle.ele_lists.specs.Keys.{Rises};
ghost use Rattle.ele_model.specs.WellFormed.{AreFiles, IsFile, IsThere};
ghost use Rattle.ele_model.specs.World.{next_of};
ghost use Rattle.ele_well_formed.specs.Fault.{IsEither};

use crate::numbered::{first_misplaced, row_of};
use crate::test::{Test, first_wrong};
use ele_model::{Counts, FileId, FileRow, Target, VersionNo};

// The test of a file, beside how many files and versions were made.
#[derive(Drop)]
struct FileTest {
    files: u64,
    versions: u64,
}

impl Test<FileRow> for FileTest {
    ghost use Rattle.ele_model.specs.WellFormed.{IsFile};

    ghost ready = { λ test. Unit {0} };

    ghost fits = { λ test row. IsFile test.files test.versions row };

    fn fits(&self, row: &FileRow) -> bool {
        row.policy.lemma_valid();
        let next = row.next.0;
        row.id.0 >= 1 && row.id.0 <= self.files && next >= 2 && next - 1 <= self.versions
    }
}

/// Returns the place of a file that doesn't fit or isn't in order.
pub fn wrong_file(rows: &[FileRow], made: &Counts) -> Option<usize>
    ensures none { IfNone result (AreFiles made.now.files made.now.versions rows.now) }
    ensures some { IfSome result (IsEither (IsFile made.now.files made.now.versions)
        (λ earlier later. earlier.id < later.id) rows.now) }
{
    let test = FileTest {
        files: made.files,
        versions: made.versions,
    };
    if let Some(at) = first_wrong(rows, &test) {
        return Some(at);
    }
    first_misplaced(rows)
}

/// Returns the number that the file's next version gets, or 0 if there is no such file.
pub fn next_of(files: &[FileRow], file: FileId) -> VersionNo
    requires { Rises (λ row. row.id) files.now }
    ensures { result ≡ next_of files.now file }
{
    match row_of(files, file.0) {
        Some(row) => row.next,
        None => VersionNo(0),
    }
}

/// Whether the target's file is there. A directory is another test's.
pub fn is_there(files: &[FileRow], target: Target) -> bool
    requires { Rises (λ row. row.id) files.now }
    ensures { IsTrue result ↔ IsThere files.now target }
{
    match target {
        Target::File(file) => next_of(files, file).0 > 0,
        Target::Directory(_) => true,
    }
}
