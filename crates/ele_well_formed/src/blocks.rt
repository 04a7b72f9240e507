//! Cells of one file, slot and writer: all have the same bytes.
//! A contract sees the part of a world that says so.
ghost use Rattle.std.specs.Prelude.{◌≡◌, IfNone, IfSome, IfOk, slice_get};
ghost use Rattle.std.specs.Bool.{OnFalse, OnTrue};
ghost use Rattle.std.specs.Option.{option_map};
ghost use Rattle.ele_lists.specs.Lists.{AllLater};
ghost use Rattle.ele_well_formed.specs.Fault.{CountsHold};
ghost use Rattle.ele_well_formed.specs.Known.{Differs, DiffersAt, Puts, PutsCell};
ghost use Rattle.ele_well_formed.specs.Sharing.{AreShared, contents};
ghost use Rattle.ele_well_formed.specs.Wrong.{IsMisplaced};

use ele_model::{Cell, Flat, NoMemory};
use std::alloc::Global;
use std::collections::BTreeMap;

// Makes the bytes known at a file, a slot and a writer. False if others are known there.
//
// `NoMemory` if memory is refused.
fn put_cell<'a>(
    known: &mut BTreeMap<(u64, usize, u64), &'a [u8]>,
    place: (u64, usize, u64),
    bytes: &'a [u8],
) -> Result<bool, NoMemory>
    ensures same { IfOk result (λ same. OnTrue same (PutsCell known.old known.new
        (record { file = place.0; slot = place.1; writer = place.2 }) bytes.entry.now)) }
    ensures differ { IfOk result (λ same. OnFalse same (DiffersAt known.old
        (record { file = place.0; slot = place.1; writer = place.2 }) bytes.entry.now)) }
{
    let Some(there) = known.get(&place) else {
        let _none = known.insert(place, bytes)?;
        return Ok(true);
    };
    Ok(*there == bytes)
}

// The number of the version that wrote the cell.
fn writer_of(cell: &Cell) -> u64
    ensures { result ≡ cell.now.writer }
{
    cell.writer.0
}

// Makes the bytes of a file's cells known. False if others are known for one of them.
//
// `NoMemory` if memory is refused.
fn put_cells<'a>(
    known: &mut BTreeMap<(u64, usize, u64), &'a [u8]>,
    file: u64,
    cells: &'a [Cell],
) -> Result<bool, NoMemory>
    ensures same { IfOk result (λ same. OnTrue same
        (Puts known.old known.new (record { file = file; cells = cells.entry.now }))) }
    ensures differ { IfOk result (λ same. OnFalse same
        (Differs known.old (record { file = file; cells = cells.entry.now }))) }
{
    for slot in 0..cells.len() {
        let cell = &cells[slot];
        if !put_cell(known, (file, slot, writer_of(cell)), cell.bytes.as_slice())? {
            return Ok(false);
        }
    }
    Ok(true)
}

// The file and the cells of the version at the place, or counted on after the versions, of the
// draft.
fn content_at(flat: &Flat, at: usize) -> Option<(u64, &[Cell])>
    ensures { option_map (λ content. record { file = content.0; cells = content.1.now }) result
        ≡ slice_get (contents flat.entry.now) at }
{
    let versions = flat.versions.as_slice();
    if at < versions.len() {
        let row = &versions[at];
        return Some((row.file.0, row.cells.as_slice()));
    }
    let row = flat.drafts.as_slice().get(at - versions.len())?;
    Some((row.file.0, row.cells.as_slice()))
}

/// Returns the place of a content that has other bytes in a cell than an earlier content in its
/// cell of the same file, slot and writer. The place counts the versions, and then the drafts.
///
/// `NoMemory` if memory is refused.
pub fn differing(flat: &Flat, alloc: Global) -> Result<Option<usize>, NoMemory>
    requires { CountsHold flat.now }
    ensures none { IfOk result (λ found. IfNone found (AllLater AreShared (contents flat.entry.now))) }
    ensures some { IfOk result (λ found. IfSome found
        (IsMisplaced AreShared (contents flat.entry.now))) }
{
    flat.limits.lemma_within();
    let mut known = BTreeMap::new(alloc);
    let count = flat.versions.as_slice().len() + flat.drafts.as_slice().len();
    for at in 0..count {
        let Some((file, cells)) = content_at(flat, at) else {
            unreachable!();
        };
        if !put_cells(&mut known, file, cells)? {
            return Ok(Some(at));
        }
    }
    Ok(None)
}
