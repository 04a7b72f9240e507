//! Owners of many blocks at once.
//! A contract sees how often the slots name each block.
ghost use Rattle.std.specs.Prelude.{◌≡◌, ◌<◌, ◌≤◌, ◌+◌, ◌^◌, [], IsTrue, length};
ghost use Rattle.ele_blocks.specs.Hands.{AreThere};
ghost use Rattle.ele_blocks.specs.Layout.{ids_of};
ghost use Rattle.ele_blocks.specs.Shared.{Sets, Trades, Covers, owners, place_at, shared, times};
ghost use Rattle.ele_blocks.specs.Store.{owners_at};

use crate::block::Block;
use crate::shared::Shared;
use crate::slot::Slot;
use crate::store::{BlockId, BlockStore};

/// A block with so many owners gets no more.
pub const CROWD: u64 = 1 << 62;

// Adds an owner to a block.
fn share_one(blocks: &mut Shared<Block>, id: BlockId)
    requires there { 0 < owners blocks.old.slots id }
    requires few { owners blocks.old.slots id < 2 ^ 63 }
    ensures { Sets blocks.old.slots blocks.new.slots id (shared (place_at blocks.old.slots id)) }
{
    blocks.share(id.key);
}

/// Adds an owner to the block of each slot.
#[tactic(auto, using(crate::proofs::Lemmas::slot_named, crate::proofs::Lemmas::share_next, crate::proofs::Lemmas::share_few, crate::proofs::Lemmas::share_more))]
pub fn share_all(blocks: &mut Shared<Block>, slots: &[Slot])
    requires there { (id : _) → 0 < times id (ids_of slots.now) → 0 < owners blocks.old.slots id }
    requires few { (id : _) → 0 < times id (ids_of slots.now)
        → owners blocks.old.slots id + length slots.now ≤ 2 ^ 63 }
    ensures { Trades blocks.old.slots blocks.new.slots [] (ids_of slots.now) }
{
    for slot in slots {
        share_one(blocks, slot.block.block());
    }
}

impl BlockStore {
    /// Whether the block of each slot has few enough owners to count more.
    #[tactic(auto, using(crate::proofs::Cited::slot_named, crate::proofs::Cited::slot_next))]
    pub(crate) fn can_share(&self, slots: &[Slot]) -> bool
        requires { AreThere self.now slots.now }
        ensures { IsTrue result
            → (id : _) → 0 < times id (ids_of slots.now) → owners_at self.now id < 2 ^ 62 }
    {
        for slot in slots {
            if self.owners(slot.block.block()) >= CROWD {
                return false;
            }
        }
        true
    }

    /// Takes one owner from the block of each slot.
    #[tactic(auto, using(crate::proofs::Lemmas::release_next, crate::proofs::Lemmas::release_more))]
    pub(crate) fn release_all(&mut self, slots: &[Slot])
        requires { Covers self.old.blocks (ids_of slots.now) }
        ensures trades { Trades self.old.blocks self.new.blocks (ids_of slots.now) [] }
        ensures leaves { self.new.leaves ≡ self.old.leaves }
    {
        for slot in slots {
            self.release(slot.block.block());
        }
    }
}
