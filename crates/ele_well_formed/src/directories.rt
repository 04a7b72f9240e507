//! The directories: the root, and numbers that rise and were given.
//! A contract sees the part of a world that says so.
ghost use Rattle.std.specs.Prelude.{◌≡◌, ◌<◌, IfNone, IfSome};
ghost use Rattle.std.specs.List.{list_any, AllByRecursion};
ghost use Rattle.ele_lists.specs.Lists.{AllLater};
ghost use Rattle.ele_model.specs.World.{is_directory, root};
ghost use Rattle.ele_well_formed.specs.Fault.{IsDirectory, IsEither};

use crate::numbered::first_misplaced;
use crate::test::{Test, first_wrong};
use ele_model::{DirId, DirectoryRow};

/// Whether the root is there.
pub fn has_root(rows: &[DirectoryRow]) -> bool
    ensures { result ≡ list_any (is_directory root) rows.now }
{
    rows.iter().any(|row| row.id == DirId(0))
}

// The test of a directory, beside how many were made.
#[derive(Drop)]
struct DirectoryTest {
    made: u64,
}

impl Test<DirectoryRow> for DirectoryTest {
    ghost use Rattle.ele_well_formed.specs.Fault.{IsDirectory};

    ghost ready = { λ test. Unit {0} };

    ghost fits = { λ test row. IsDirectory test.made row };

    fn fits(&self, row: &DirectoryRow) -> bool {
        row.default.lemma_valid();
        row.id.0 <= self.made
    }
}

/// Returns the place of a directory whose number wasn't given, or isn't above the one before it.
pub fn wrong_directory(rows: &[DirectoryRow], made: u64) -> Option<usize>
    ensures each { IfNone result (AllByRecursion (IsDirectory made) rows.now) }
    ensures placed { IfNone result (AllLater (λ earlier later. earlier.id < later.id) rows.now) }
    ensures some { IfSome result
        (IsEither (IsDirectory made) (λ earlier later. earlier.id < later.id) rows.now) }
{
    if let Some(at) = first_wrong(rows, &DirectoryTest { made }) {
        return Some(at);
    }
    first_misplaced(rows)
}
