//! The blocks of one file's slots, by slot and writer.
//! A contract sees the block of each slot and writer, if there is one.
ghost use Rattle.std.specs.Prelude.{◌≡◌, ℕ, ◌&&◌, ◌==◌, [], ◌++◌, IfOk, OnOk, Some, List, if◌then◌else◌};
ghost use Rattle.ele_blocks.specs.Distinct.{Named, names_of};
ghost use Rattle.ele_blocks.specs.LivesIn.{LivesIn};
ghost use Rattle.ele_blocks.specs.Placed.{Finds, block_in, slot_with, slots_with};

use crate::map::BlockMap;
use crate::new_slot::NewSlot;
use crate::store::{BlockId, BlockStore};
use ele_content::Cell;
use ele_moment::{NoMemory, VersionNo};
use std::alloc::Global;
use std::collections::HashMap;

/// The blocks of the slots that maps of one file have, by slot and writer. The maps stay in their
/// store while a new one is made of these blocks.
#[derive(Drop)]
pub struct PlacedBlocks {
    blocks: HashMap<(usize, u64), BlockId>,
}

impl PlacedBlocks {
    /// Makes an empty list. It takes no memory.
    pub fn new(alloc: Global) -> PlacedBlocks
        ensures { (file : ℕ) → Finds result file [] }
    {
        PlacedBlocks {
            blocks: HashMap::new(alloc),
        }
    }

    // The block of the slot and writer.
    fn get(&self, slot: usize, writer: VersionNo) -> Option<BlockId>
        ensures { result ≡ block_in self.now slot writer }
    {
        self.blocks.get(&(slot, writer.0)).copied()
    }

    // Sets the block of the slot and writer.
    fn put(&mut self, slot: usize, writer: VersionNo, block: BlockId) -> Result<(), NoMemory>
        ensures { OnOk result ((other by : ℕ) → block_in self.new other by
            ≡ (if (slot == other) && (writer == by) then Some block else block_in self.old other by)) }
    {
        let _before = self.blocks.insert((slot, writer.0), block)?;
        Ok(())
    }

    // The new slot of a cell.
    fn slot_of(&self, alloc: Global, slot: usize, cell: &Cell) -> Result<NewSlot, NoMemory>
        ensures { IfOk result (λ new. new ≡ slot_with (block_in self.now slot cell.now.writer) cell.now) }
    {
        match self.get(slot, cell.writer) {
            Some(block) => Ok(NewSlot::shared(cell.writer, block)),
            None => NewSlot::fresh(alloc, cell.writer, cell.bytes.as_slice()),
        }
    }

    /// Returns the new slots of a content's cells. Each shares the block of its slot and writer, or
    /// copies the cell's bytes if there is none.
    ///
    /// `NoMemory` if memory is refused. Cost: a look-up for each cell, and a copy of the bytes that
    /// have no block.
    pub fn slots_of(&self, alloc: Global, cells: &[Cell]) -> Result<Vec<NewSlot>, NoMemory>
        ensures { IfOk result (λ slots. slots.items ≡ slots_with self.now 0 cells.now) }
    {
        let mut slots = Vec::with_capacity(alloc, cells.len())?;
        for (slot, cell) in cells.iter().enumerate() {
            slots.push(self.slot_of(alloc, slot, cell)?)?;
        }
        Ok(slots)
    }

    /// Adds the blocks of the map's slots.
    ///
    /// `NoMemory` if memory is refused; then only some of them may be there. Cost: a look-up for
    /// each slot.
    pub fn add(&mut self, store: &BlockStore, map: &BlockMap) -> Result<(), NoMemory>
        requires { LivesIn store.now map.now }
        ensures { OnOk result ((file : ℕ) (names : List Named) → Finds self.old file names
            → Finds self.new file (names_of store.now file map.now ++ names)) }
    {
        for slot in 0..map.slots() {
            let Some(cell) = map.cell(store, slot) else {
                unreachable!()
            };
            let (writer, block) = cell;
            self.put(slot, writer, block)?;
        }
        Ok(())
    }
}
