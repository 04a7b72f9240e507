//! The blocks and leaves that all maps of one core share.
//! A contract sees what is under each number: bytes or slots and a count of owners, or nothing.
ghost use Rattle.std.specs.Prelude.{◌≡◌, ◌<◌, ◌≤◌, ◌^◌, OnErr, IfOk, Some, None, List, length, count_by, is_some, nat_eq};
ghost use Rattle.ele_content.specs.Place.{different};
ghost use Rattle.ele_blocks.specs.Distinct.{blocks_of};
ghost use Rattle.ele_blocks.specs.Owes.{Owes};
ghost use Rattle.ele_blocks.specs.Shared.{Sets, shared, released};
ghost use Rattle.ele_blocks.specs.Layout.{Layout};
ghost use Rattle.ele_blocks.specs.Store.{no_blocks, owners_at, block_at, bytes_at};

pub(crate) mod leaves;
mod making;
mod shares;

use crate::block::Block;
use crate::leaf::Leaf;
use crate::shared::Shared;
use ele_moment::NoMemory;
use std::alloc::Global;
use std::marker::Model;

/// The number of a block in its store. A later block may get the number of a removed one.
#[derive(Clone, Copy, PartialEq, Eq)]
pub struct BlockId {
    pub(crate) key: usize,
}

impl Model for BlockId {
    ghost use Rattle.std.specs.Prelude.{ℕ};

    ghost Value = { ℕ };

    ghost view = { λ id. id.key };

    ghost inverse = { λ n. record { key = n } };
}

/// Blocks of 1 to 512 bytes and leaves, each with a count of its owners. The owners of a leaf are
/// the maps of this store that have it. Each slot of a leaf owns its block.
#[derive(Drop)]
pub struct BlockStore {
    blocks: Shared<Block>,
    leaves: Shared<Leaf>,
    alloc: Global,
}

impl Model for BlockStore {
    ghost use Rattle.ele_blocks.specs.Store.{Store};

    ghost Value = { Store };

    ghost view = { λ store. record { blocks = store.blocks.slots; leaves = store.leaves.slots } };
}

impl BlockStore {
    /// Makes an empty store. It takes no memory.
    pub fn new(alloc: Global) -> BlockStore
        ensures { result ≡ no_blocks }
    {
        BlockStore {
            blocks: Shared::new(alloc),
            leaves: Shared::new(alloc),
            alloc,
        }
    }

    /// Adds a copy of 1 to 512 bytes as a new block with one owner. If memory is refused, the store
    /// is as it was.
    pub fn put(&mut self, bytes: &[u8]) -> Result<BlockId, NoMemory>
        requires some { 0 < length bytes.now }
        requires fits { length bytes.now ≤ 512 }
        ensures vacant { IfOk result (λ id. block_at self.old id ≡ None) }
        ensures ok { IfOk result (λ id. Sets self.old.blocks self.new.blocks id
            (Some (record { value = bytes.now; owners = 1 }))) }
        ensures leaves { self.new.leaves ≡ self.old.leaves }
        ensures err { OnErr result (self.new ≡ self.old) }
    {
        let block = Block::from_slice(self.alloc, bytes)?;
        let key = self.blocks.put(block)?;
        Ok(BlockId { key })
    }

    /// Adds an owner to a block.
    pub fn share(&mut self, id: BlockId)
        requires there { 0 < owners_at self.old id }
        requires few { owners_at self.old id < 2 ^ 63 }
        ensures sets { Sets self.old.blocks self.new.blocks id (shared (block_at self.old id)) }
        ensures leaves { self.new.leaves ≡ self.old.leaves }
    {
        self.blocks.share(id.key);
    }

    /// Takes one owner from a block. With its last owner the block is removed.
    pub fn release(&mut self, id: BlockId)
        requires { 0 < owners_at self.old id }
        ensures sets { Sets self.old.blocks self.new.blocks id (released (block_at self.old id)) }
        ensures leaves { self.new.leaves ≡ self.old.leaves }
    {
        let _last = self.blocks.release(id.key);
    }

    /// Returns the bytes of a block.
    pub fn get(&self, id: BlockId) -> &[u8]
        requires { 0 < owners_at self.now id }
        ensures { result.now ≡ bytes_at self.now id }
    {
        self.blocks.get(id.key).as_slice()
    }

    /// Returns how many owners a block has.
    pub fn owners(&self, id: BlockId) -> u64
        requires { 0 < owners_at self.now id }
        ensures { result ≡ owners_at self.now id }
    {
        self.blocks.owners(id.key)
    }

    /// Returns the number of blocks, each counted once: as many different ones as the store's maps
    /// name.
    #[tactic(auto, using(crate::proofs::Cited::distinct_named))]
    pub fn distinct(&self) -> u64
        ensures count { result ≡ count_by is_some self.now.blocks }
        ensures named { (maps : List Layout) → Owes self.now maps
            → result ≡ different nat_eq (blocks_of self.now maps) }
    {
        self.leaves.lemma_owned();
        self.blocks.len() as u64
    }

    /// Returns the number of leaves, each counted once.
    pub fn leaves(&self) -> u64
        ensures { result ≡ count_by is_some self.now.leaves }
    {
        self.leaves.len() as u64
    }
}
