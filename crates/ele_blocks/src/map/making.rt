//! A map that is made slot by slot.
//! A contract sees its cells, and which of its blocks are new.
ghost use Rattle.std.specs.Prelude.{◌≡◌, ◌≤◌, true, OnErr, IfOk, map};
ghost use Rattle.std.specs.List.{AllByRecursion};
ghost use Rattle.ele_content.specs.Content.{longest_content};
ghost use Rattle.ele_blocks.specs.LivesIn.{fills};
ghost use Rattle.ele_blocks.specs.Made.{HasBlock, IsMade, cell_for};

use crate::leaf::LEAF;
use crate::leaf_list::LeafList;
use crate::map::BlockMap;
use crate::new_slot::NewSlot;
use crate::store::BlockStore;
use ele_moment::NoMemory;
use std::alloc::Global;

impl BlockMap {
    /// Makes the map of these slots, whose bytes are `size` in all: 512 each, and 1 to 512 in the
    /// last. A slot that shares a block adds an owner to it, and every other gets a new block.
    /// `NoMemory` if memory is refused; then the store is as it was.
    ///
    /// It takes 8 bytes for each slot, and the memory of the new blocks. Its time grows with the
    /// slots.
    pub fn of_slots(
        alloc: Global,
        store: &mut BlockStore,
        size: u64,
        slots: Vec<NewSlot>,
    ) -> Result<BlockMap, NoMemory>
        requires there { AllByRecursion (λ slot. HasBlock store.old.blocks slot.bytes) slots.items }
        requires whole { fills 512 (λ cell. cell.bytes) size
            (map (cell_for store.old) slots.items) ≡ true }
        requires short { size ≤ longest_content }
        ensures made { IfOk result (IsMade store.old store.new size slots.items) }
        ensures err { OnErr result (store.new ≡ store.old) }
    {
        let mut list = LeafList::new();
        // Before the store changes, since memory may be refused here.
        list.reserve(alloc, slots.len().div_ceil(LEAF))?;
        let leaves = store.put_slots(slots)?;
        let count = leaves.len();
        list.lay(size, 0, &leaves, count);
        Ok(BlockMap { list, alloc })
    }
}
