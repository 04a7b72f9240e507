//! The fresh writers of cells: for each block the number of its first holder.
//! A contract sees a look-up by file, slot and writer.
ghost use Rattle.std.specs.Prelude.{◌≡◌, ℕ, IfOk, OnOk, Some, None, cond};
ghost use Rattle.std.specs.BTreeMap.{get, is_at};
ghost use Rattle.std.specs.Option.{option_map_or, option_or};
ghost use Rattle.ele_lists.specs.Lists.{AllLater};
ghost use Rattle.ele_model.specs.WellFormed.{ArePlaced};
ghost use Rattle.ele_renewal.specs.Writers.{AddsBlocks, AreFirst, block_cmp, writer_in};

use crate::numbers::new_version;
use ele_model::{Cell, FileId, NoMemory, VersionNo, VersionRow};
use std::alloc::Global;
use std::collections::BTreeMap;

/// Fresh numbers of writers, by file, slot and old writer.
pub(crate) type Writers = BTreeMap<(FileId, usize, VersionNo), VersionNo>;

// Makes the number known for the block, unless one is.
//
// `NoMemory` if memory is refused.
fn put_block(
    known: &mut Writers,
    block: (FileId, usize, VersionNo),
    number: VersionNo,
) -> Result<(), NoMemory>
    ensures { OnOk result ((other : ℕ × ℕ × ℕ) → get block_cmp known.new other
        ≡ option_or (get block_cmp known.old other) (cond (is_at (block_cmp block) other) (Some number) None)) }
{
    if !known.contains_key(&block) {
        let _none = known.insert(block, number)?;
    }
    Ok(())
}

// Makes the number known for the blocks of a file's version, unless others are.
//
// `NoMemory` if memory is refused.
fn put_blocks(
    known: &mut Writers,
    file: FileId,
    number: VersionNo,
    cells: &[Cell],
) -> Result<(), NoMemory>
    ensures { OnOk result (AddsBlocks known.old known.new file number cells.now) }
{
    for slot in 0..cells.len() {
        let writer = cells[slot].writer;
        put_block(known, (file, slot, writer), number)?;
    }
    Ok(())
}

/// Returns the fresh writers of all blocks.
///
/// `NoMemory` if memory is refused.
pub(crate) fn first_writers(alloc: Global, rows: &[VersionRow]) -> Result<Writers, NoMemory>
    requires { AllLater ArePlaced rows.now }
    ensures { IfOk result (AreFirst rows.now rows.now) }
{
    let mut known = BTreeMap::new(alloc);
    for row in rows {
        let number = new_version(rows, row.file, row.number);
        put_blocks(&mut known, row.file, number, row.cells.as_slice())?;
    }
    Ok(known)
}

/// Returns the fresh writer of a block, or 0 if none is known.
pub(crate) fn writer_in(known: &Writers, file: FileId, slot: usize, writer: VersionNo) -> VersionNo
    ensures { result ≡ option_map_or (λ number. number) (writer_in known.now file slot writer) 0 }
{
    match known.get(&(file, slot, writer)) {
        Some(number) => *number,
        None => VersionNo(0),
    }
}
