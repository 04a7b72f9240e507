//! A slot of a map that is made slot by slot.
//! A contract sees its writer, and the block that it shares or the bytes of a new one.
ghost use Rattle.std.specs.Prelude.{◌≡◌, IfOk};
ghost use Rattle.ele_blocks.specs.declared.new_slot.SlotBytes.TheVariants as from;

use crate::block::Block;
use crate::store::BlockId;
use ele_moment::{NoMemory, VersionNo};
use std::alloc::Global;

/// The bytes of a slot of a new map.
#[derive(Drop)]
pub enum SlotBytes {
    /// Those of a block of the store, which the slot shares with others.
    Shared(BlockId),
    /// Those of a block of its own.
    Fresh(Block),
}

/// A slot of a new map: the version that last wrote it, and its bytes.
#[derive(Drop)]
pub struct NewSlot {
    pub writer: VersionNo,
    pub bytes: SlotBytes,
}

impl NewSlot {
    /// Makes a slot that shares a block. It takes no memory.
    pub fn shared(writer: VersionNo, block: BlockId) -> NewSlot
        ensures { result ≡ record { writer = writer; bytes = from.Shared block } }
    {
        NewSlot {
            writer,
            bytes: SlotBytes::Shared(block),
        }
    }

    /// Makes a slot with a copy of the bytes, as a new block. `NoMemory` if memory for more than 30
    /// bytes is refused.
    pub fn fresh(alloc: Global, writer: VersionNo, bytes: &[u8]) -> Result<NewSlot, NoMemory>
        ensures { IfOk result
            (λ slot. slot ≡ record { writer = writer; bytes = from.Fresh bytes.now }) }
    {
        let block = Block::from_slice(alloc, bytes)?;
        Ok(NewSlot {
            writer,
            bytes: SlotBytes::Fresh(block),
        })
    }
}
