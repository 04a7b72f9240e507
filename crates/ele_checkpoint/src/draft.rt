//! Rows of drafts as bytes, each beside the last version of its file.
//! A contract sees the rows, and bytes.
ghost use Rattle.std.specs.Prelude.{◌≡◌, ◌++◌, OnOk};
ghost use Rattle.ele_checkpoint.specs.Contents.{base_of, draft_text, drafts_text};
ghost use Rattle.ele_checkpoint.specs.PartsRead.{draft_at, drafts_at, items_at};
ghost use Rattle.ele_checkpoint.specs.Reading.{Gives};

use crate::content::{content_of, put_content};
use crate::fault::Stop;
use crate::number::{number_of, put_number};
use crate::value::{moment_of, put_moment, put_truth, truth_of};
use ele_lists::ListOf;
use ele_model::{Cell, DraftRow, VersionRow};
use ele_moment::{FileId, NoMemory};
use std::alloc::Global;

// The content beside which a draft of the file is told. It looks from the last version back.
fn base_of(rows: &[VersionRow], file: u64) -> &[Cell]
    ensures { result.now ≡ base_of rows.now file }
{
    for place in (0..rows.len()).rev() {
        let row = &rows[place];
        if row.file.0 == file {
            return row.cells.as_slice();
        }
    }
    &[]
}

// Adds a draft.
fn put_draft(out: &mut Vec<u8>, rows: &[VersionRow], row: &DraftRow) -> Result<(), NoMemory>
    ensures { OnOk result (out.new.items ≡ out.old.items ++ draft_text rows.now row.now) }
{
    put_number(out, row.file.0)?;
    put_moment(out, row.opened)?;
    put_truth(out, row.changed)?;
    put_content(out, base_of(rows, row.file.0), row.cells.as_slice())
}

/// Adds the drafts.
pub(crate) fn put_drafts(
    out: &mut Vec<u8>,
    rows: &[VersionRow],
    made: &[DraftRow],
) -> Result<(), NoMemory>
    ensures { OnOk result (out.new.items ≡ out.old.items ++ drafts_text rows.now made.now) }
{
    put_number(out, made.len() as u64)?;
    for row in made {
        put_draft(out, rows, row)?;
    }
    Ok(())
}

// Reads a draft.
#[tactic(auto, unfolding(crate::specs::PartsRead::draft_at))]
fn draft_of<'a>(
    alloc: Global,
    rows: &[VersionRow],
    bytes: &'a [u8],
) -> Result<(DraftRow, &'a [u8]), Stop>
    ensures { Gives (λ x. (x.0, x.1.now)) result (draft_at rows.now bytes.now) }
{
    let (file, rest) = number_of(bytes)?;
    let (opened, rest) = taken!(moment_of(rest));
    let (changed, rest) = truth_of(rest)?;
    let (cells, rest) = taken!(content_of(alloc, base_of(rows, file), rest));
    let row = DraftRow {
        file: FileId(file),
        opened,
        cells: ListOf::from_vec(cells),
        changed,
    };
    Ok((row, rest))
}

/// Reads the drafts.
#[tactic(auto, unfolding(crate::specs::PartsRead::drafts_at, crate::specs::PartsRead::list_at))]
pub(crate) fn drafts_of<'a>(
    alloc: Global,
    rows: &[VersionRow],
    bytes: &'a [u8],
) -> Result<(Vec<DraftRow>, &'a [u8]), Stop>
    ensures { Gives (λ x. (x.0.items, x.1.now)) result (drafts_at rows.now bytes.now) }
{
    let (count, rest) = number_of(bytes)?;
    each_draft_of(alloc, rows, count, rest)
}

// Reads so many drafts.
fn each_draft_of<'a>(
    alloc: Global,
    rows: &[VersionRow],
    count: u64,
    bytes: &'a [u8],
) -> Result<(Vec<DraftRow>, &'a [u8]), Stop>
    ensures { Gives (λ x. (x.0.items, x.1.now)) result
        (items_at (draft_at rows.now) count bytes.now) }
{
    let mut made = Vec::new(alloc);
    let mut rest = bytes;
    for _ in 0..count {
        let (row, after) = taken!(draft_of(alloc, rows, rest));
        made.push(row)?;
        rest = after;
    }
    Ok((made, rest))
}
