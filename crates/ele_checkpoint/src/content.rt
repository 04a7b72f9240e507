//! Contents as bytes: the cells that an earlier content of the file has in the same slots are kept,
//! and told by their number alone. A contract sees both contents, and bytes.
ghost use Rattle.std.specs.Prelude.{◌≡◌, ◌+◌, ◌<◌, ◌^◌, ◌++◌, IfOk, OnOk, slice_get};
ghost use Rattle.std.specs.Option.{option_copied};
ghost use Rattle.ele_checkpoint.specs.Cells.{cell_text, content_text, is_kept};
ghost use Rattle.ele_checkpoint.specs.PartsRead.{IsPut, cell_at, content_at, slot_at, slots_at};
ghost use Rattle.ele_checkpoint.specs.Reading.{Gives};

use crate::fault::{Flaw, Stop, wrong};
use crate::number::{number_of, put_number};
use crate::value::{put_string, string_of};
use ele_lists::ListOf;
use ele_model::Cell;
use ele_moment::{NoMemory, VersionNo};
use std::alloc::Global;

// Adds a cell.
fn put_cell(out: &mut Vec<u8>, told: &Cell) -> Result<(), NoMemory>
    ensures { OnOk result (out.new.items ≡ out.old.items ++ cell_text told.now) }
{
    put_number(out, told.writer.0)?;
    put_string(out, told.bytes.as_slice())
}

// Reads a cell.
#[tactic(auto, unfolding(crate::specs::PartsRead::cell_at))]
fn cell_of(alloc: Global, bytes: &[u8]) -> Result<(Cell, &[u8]), Stop>
    ensures { Gives (λ x. (x.0, x.1.now)) result (cell_at bytes.now) }
{
    let (writer, rest) = number_of(bytes)?;
    let (held, rest) = string_of(rest)?;
    let writer = VersionNo(writer);
    let bytes = ListOf::from_vec(Vec::from_slice(alloc, held)?);
    Ok((Cell { writer, bytes }, rest))
}

// Whether the earlier content has that cell in the slot.
fn is_kept(before: Option<&Cell>, told: &Cell) -> bool
    ensures { result ≡ is_kept (option_copied before.entry) told.now }
{
    match before {
        None => false,
        Some(earlier) => {
            earlier.writer.0 == told.writer.0 && earlier.bytes.as_slice() == told.bytes.as_slice()
        }
    }
}

// The cell of a slot, if the content has one.
fn cell_in(base: &[Cell], slot: usize) -> Option<&Cell>
    ensures { option_copied result ≡ slice_get base.now slot }
{
    if slot < base.len() {
        Some(&base[slot])
    } else {
        None
    }
}

// A copy of a cell.
fn copy_cell(alloc: Global, earlier: &Cell) -> Result<Cell, NoMemory>
    ensures { IfOk result (λ copied. copied ≡ earlier.now) }
{
    Ok(Cell {
        writer: earlier.writer,
        bytes: ListOf::from_vec(Vec::from_slice(alloc, earlier.bytes.as_slice())?),
    })
}

// Adds the cell of a slot, unless it is kept, after the number of those kept before it. It returns
// how many are kept now.
fn put_slot(
    out: &mut Vec<u8>,
    before: Option<&Cell>,
    told: &Cell,
    kept: u64,
) -> Result<u64, NoMemory>
    requires { kept + 1 < 2 ^ 64 }
    ensures { IfOk result (λ next. IsPut (option_copied before.entry) told.now kept out.old.items next out.new.items) }
{
    if is_kept(before, told) {
        return Ok(kept + 1);
    }
    put_number(out, kept)?;
    put_cell(out, told)?;
    Ok(0)
}

/// Adds a content, beside an earlier one of the same file.
pub(crate) fn put_content(out: &mut Vec<u8>, base: &[Cell], cells: &[Cell]) -> Result<(), NoMemory>
    ensures { OnOk result (out.new.items ≡ out.old.items ++ content_text base.now cells.now) }
{
    put_number(out, cells.len() as u64)?;
    let mut kept = 0;
    for slot in 0..cells.len() {
        kept = put_slot(out, cell_in(base, slot), &cells[slot], kept)?;
    }
    put_number(out, kept)
}

/// Reads a content, beside an earlier one of the same file.
#[tactic(auto, unfolding(crate::specs::PartsRead::content_at))]
pub(crate) fn content_of<'a>(
    alloc: Global,
    base: &[Cell],
    bytes: &'a [u8],
) -> Result<(Vec<Cell>, &'a [u8]), Stop>
    ensures { Gives (λ x. (x.0.items, x.1.now)) result (content_at base.now bytes.now) }
{
    let (count, rest) = number_of(bytes)?;
    let (kept, rest) = number_of(rest)?;
    slots_of(alloc, base, count, kept, rest)
}

// Reads so many cells, of which some are kept first. Each is kept of the base or takes bytes, or is
// a mistake.
fn slots_of<'a>(
    alloc: Global,
    base: &[Cell],
    count: u64,
    kept: u64,
    bytes: &'a [u8],
) -> Result<(Vec<Cell>, &'a [u8]), Stop>
    ensures { Gives (λ x. (x.0.items, x.1.now)) result
        (slots_at base.now count 0 kept bytes.now) }
{
    let mut cells = Vec::new(alloc);
    let mut kept = kept;
    let mut rest = bytes;
    for slot in 0..count {
        let ((cell, after), behind) = taken!(slot_of(
            alloc,
            cell_in(base, slot as usize),
            kept,
            rest
        ));
        cells.push(cell)?;
        kept = after;
        rest = behind;
    }
    if kept != 0 {
        return Err(wrong(rest, Flaw::Kept));
    }
    Ok((cells, rest))
}

// Reads the cell of a slot, and how many are kept after it.
#[tactic(auto, unfolding(crate::specs::PartsRead::slot_at))]
fn slot_of<'a>(
    alloc: Global,
    before: Option<&Cell>,
    kept: u64,
    bytes: &'a [u8],
) -> Result<((Cell, u64), &'a [u8]), Stop>
    ensures { Gives (λ x. (x.0, x.1.now)) result
        (slot_at (option_copied before.entry) kept bytes.now) }
{
    if kept == 0 {
        return told_of(alloc, before, bytes);
    }
    match before {
        None => Err(wrong(bytes, Flaw::Kept)),
        Some(earlier) => Ok(((copy_cell(alloc, earlier)?, kept - 1), bytes)),
    }
}

// Reads a cell that isn't kept, and how many are kept after it.
#[tactic(auto, unfolding(crate::specs::PartsRead::slot_at))]
fn told_of<'a>(
    alloc: Global,
    before: Option<&Cell>,
    bytes: &'a [u8],
) -> Result<((Cell, u64), &'a [u8]), Stop>
    ensures { Gives (λ x. (x.0, x.1.now)) result (slot_at (option_copied before.entry) 0 bytes.now) }
{
    let (told, rest) = taken!(cell_of(alloc, bytes));
    let (kept, rest) = number_of(rest)?;
    if is_kept(before, &told) {
        return Err(wrong(bytes, Flaw::Repeated));
    }
    Ok(((told, kept), rest))
}
