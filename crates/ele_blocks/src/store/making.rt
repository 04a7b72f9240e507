//! Blocks and leaves for the slots of a new map.
//! A contract sees how the owners of blocks and leaves change.
ghost use Rattle.std.specs.Prelude.{◌≡◌, ◌<◌, ◌≤◌, ◌+◌, ◌^◌, [], OnErr, IfOk, IsTrue, vec_len, vec_capacity};
ghost use Rattle.std.specs.List.{AllByRecursion};
ghost use Rattle.slab.specs.Slab.{HasRoomFor};
ghost use Rattle.ele_blocks.specs.Made.{HasBlock};
ghost use Rattle.ele_blocks.specs.Making.{CanTake, CanMake, Takes, AreMade, ArePut};

use crate::block::Block;
use crate::leaf::LEAF;
use crate::new_slot::{NewSlot, SlotBytes};
use crate::shared::Shared;
use crate::slot::{Number, Slot};
use crate::store::BlockStore;
use crate::store::leaves::{NO_WRITER, put_leaves, rooms_for};
use crate::store::shares::CROWD;
use ele_moment::NoMemory;

/// The numbers of blocks that fit into a slot are before this one.
const NO_BLOCK: usize = 1 << 32;

// Whether a block that the slot shares can be numbered in it, and can count it.
fn can_take(blocks: &Shared<Block>, bytes: &SlotBytes) -> bool
    requires { HasBlock blocks.now.slots bytes.now }
    ensures { IsTrue result → CanTake (2 ^ 62) blocks.now.slots bytes.now }
{
    match bytes {
        SlotBytes::Shared(id) => id.key < NO_BLOCK && blocks.owners(id.key) < CROWD,
        SlotBytes::Fresh(_block) => true,
    }
}

// Whether every slot can be made, if there is memory.
fn can_make(blocks: &Shared<Block>, slots: &[NewSlot]) -> bool
    requires { AllByRecursion (λ slot. HasBlock blocks.now.slots slot.bytes) slots.now }
    ensures { IsTrue result → AllByRecursion (CanMake blocks.now.slots) slots.now }
{
    for slot in slots {
        if slot.writer.0 >= NO_WRITER || !can_take(blocks, &slot.bytes) {
            return false;
        }
    }
    true
}

// Adds an owner to the block that is shared, or a new block in reserved memory. Returns its number.
fn take_block(blocks: &mut Shared<Block>, bytes: SlotBytes) -> usize
    requires ready { CanTake (2 ^ 63) blocks.old.slots bytes }
    requires room { HasRoomFor blocks.old 1 }
    requires numbers { blocks.old.capacity ≤ 2 ^ 32 }
    ensures takes { Takes blocks.old.slots blocks.new.slots bytes result }
    ensures small { result < 2 ^ 32 }
    ensures room { (more : _) → HasRoomFor blocks.old (1 + more) → HasRoomFor blocks.new more }
    ensures capacity { blocks.new.capacity ≡ blocks.old.capacity }
{
    match bytes {
        SlotBytes::Shared(id) => {
            blocks.share(id.key);
            id.key
        }
        SlotBytes::Fresh(block) => blocks.put_reserved(block),
    }
}

// Makes each of the slots, in reserved memory.
fn make_each(blocks: &mut Shared<Block>, made: &mut Vec<Slot>, slots: Vec<NewSlot>)
    requires ready { AllByRecursion (CanMake blocks.old.slots) slots.items }
    requires few { vec_len slots < 2 ^ 61 }
    requires room { HasRoomFor blocks.old (vec_len slots) }
    requires numbers { blocks.old.capacity ≤ 2 ^ 32 }
    requires room_made { vec_len made.old + vec_len slots ≤ vec_capacity made.old }
    requires empty { made.old.items ≡ [] }
    ensures { AreMade blocks.old.slots blocks.new.slots slots.items made.new.items }
{
    for slot in slots {
        let NewSlot { writer, bytes } = slot;
        let block = take_block(blocks, bytes);
        made.push_reserved(Slot {
            writer: Number::new(writer.0 as u32),
            block: Number::new(block as u32),
        });
    }
}

impl BlockStore {
    /// Makes new leaves of the slots, and a block for each that shares none. If memory is refused,
    /// the store is as it was. Memory also counts as refused if the number of a writer, block or
    /// leaf doesn't fit into 32 bits, or if a block that is to be shared has 2^62 owners.
    pub(crate) fn put_slots(&mut self, slots: Vec<NewSlot>) -> Result<Vec<u32>, NoMemory>
        requires there { AllByRecursion (λ slot. HasBlock self.old.blocks slot.bytes) slots.items }
        requires few { vec_len slots < 2 ^ 61 }
        ensures put { IfOk result
            (λ leaves. ArePut self.old self.new slots.items leaves.items) }
        ensures err { OnErr result (self.new ≡ self.old) }
    {
        if !can_make(&self.blocks, &slots) {
            return Err(NoMemory);
        }
        let count = slots.len().div_ceil(LEAF);
        let mut leaves = Vec::with_capacity(self.alloc, count)?;
        let rooms = rooms_for(self.alloc, slots.len())?;
        let mut made = Vec::with_capacity(self.alloc, slots.len())?;
        self.leaves.reserve(count)?;
        self.blocks.reserve(slots.len())?;
        make_each(&mut self.blocks, &mut made, slots);
        put_leaves(&mut self.leaves, &mut leaves, &made, rooms);
        Ok(leaves)
    }
}
