//! The writers of drafts: each draft has one.
//! A contract sees the part of a world that says so.
ghost use Rattle.std.specs.Prelude.{◌≡◌, ℕ, IfNone, IfSome, IfOk};
ghost use Rattle.std.specs.BTreeSet.{contains};
ghost use Rattle.std.specs.List.{AllByRecursion, filter_map, list_any};
ghost use Rattle.std.specs.Ordering.{nat_cmp};
ghost use Rattle.ele_model.specs.World.{is_writer};
ghost use Rattle.ele_well_formed.specs.Fault.{IsWritten};
ghost use Rattle.ele_well_formed.specs.Means.{file_written};
ghost use Rattle.ele_well_formed.specs.Wrong.{IsWrong};

use crate::sets::set_of;
use crate::test::{Test, first_wrong};
use ele_model::{DraftRow, HandleRow, NoMemory, Reads};
use std::alloc::Global;
use std::collections::BTreeSet;

// The file whose draft the handle writes, if it writes one.
fn file_of(row: &HandleRow) -> Option<u64>
    ensures { result ≡ file_written row.now.reads }
{
    match row.reads {
        Reads::Draft(file) => Some(file.0),
        Reads::Version(_, _) => None,
    }
}

// The files that handles write.
fn written_ids(handles: &[HandleRow], alloc: Global) -> Result<Vec<u64>, NoMemory>
    ensures { IfOk result (λ ids. ids.items ≡ filter_map (λ row. file_written row.reads) handles.now) }
{
    Ok(
        handles
            .iter()
            .filter_map(|row| file_of(row))
            .collect(alloc)?,
    )
}

// The files that have writers.
fn written_files(handles: &[HandleRow], alloc: Global) -> Result<BTreeSet<u64>, NoMemory>
    ensures { IfOk result (λ set. (q : ℕ) → contains nat_cmp set q
        ≡ list_any (is_writer q) handles.now) }
{
    let ids = written_ids(handles, alloc)?;
    set_of(&ids, alloc)
}

// The test that a handle writes a draft, beside all handles. `written` has the files that these
// write.
#[derive(Drop)]
struct WriterTest<'a> {
    handles: &'a [HandleRow],
    written: &'a BTreeSet<u64>,
}

impl<'a> Test<DraftRow> for WriterTest<'a> {
    ghost use Rattle.std.specs.Prelude.{◌≡◌, ℕ};
    ghost use Rattle.std.specs.BTreeSet.{contains};
    ghost use Rattle.std.specs.List.{list_any};
    ghost use Rattle.std.specs.Ordering.{nat_cmp};
    ghost use Rattle.ele_model.specs.World.{is_writer};
    ghost use Rattle.ele_well_formed.specs.Fault.{IsWritten};

    ghost ready = { λ test. (q : ℕ) → contains nat_cmp test.written.now q
        ≡ list_any (is_writer q) test.handles.now };

    ghost fits = { λ test row. IsWritten test.handles.now row };

    fn fits(&self, row: &DraftRow) -> bool {
        self.written.contains(&row.file.0)
    }
}

/// Returns the place of a draft that no handle writes.
///
/// `NoMemory` if memory is refused.
pub fn unwritten_draft(
    drafts: &[DraftRow],
    handles: &[HandleRow],
    alloc: Global,
) -> Result<Option<usize>, NoMemory>
    ensures none { IfOk result (λ found. IfNone found
        (AllByRecursion (IsWritten handles.now) drafts.now)) }
    ensures some { IfOk result (λ found. IfSome found
        (IsWrong (IsWritten handles.now) drafts.now)) }
{
    let written = written_files(handles, alloc)?;
    let test = WriterTest {
        handles,
        written: &written,
    };
    Ok(first_wrong(drafts, &test))
}
