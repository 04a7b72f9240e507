//! A block map: one content of at most 1,048,576 bytes, cut into slots of 512 bytes, in leaves of
//! 16 slots. A contract sees its length and leaves, and through a store the cells of the content.
ghost use Rattle.std.specs.Prelude.{◌≡◌, ◌<◌, ◌-◌, ◌*◌, ◌/◌, [], ◌∷◌, OnOk, OnErr, IfOk, IfSome, Some, drop, slice_get, take, vec_len};
ghost use Rattle.std.specs.Option.{option_map};
ghost use Rattle.ele_content.specs.Content.{content_of, slot_bytes, slot_count};
ghost use Rattle.ele_blocks.specs.Layout.{Layout, slots_of, shown};
ghost use Rattle.ele_blocks.specs.LivesIn.{LivesIn};
ghost use Rattle.ele_blocks.specs.Owes.{Moves, IsUncrowded};
ghost use Rattle.ele_blocks.specs.Shared.{owners};
ghost use Rattle.ele_blocks.specs.Store.{bytes_at, owners_at, leaf_at};

mod change;
mod making;

use crate::leaf::LEAF;
use crate::leaf_list::LeafList;
use crate::slot::{SLOT, Slot};
use crate::store::{BlockId, BlockStore};
use ele_moment::{NoMemory, VersionNo};
use std::alloc::Global;
use std::marker::Model;

/// One content, as the leaves of its slots. A store holds the leaves, and the map owns a share of
/// them. Who makes a map has to call `give_up` with that store, or its leaves and blocks stay
/// there.
#[derive(Drop)]
pub struct BlockMap {
    list: LeafList,
    alloc: Global,
}

impl Model for BlockMap {
    ghost use Rattle.ele_blocks.specs.Layout.{Layout};

    ghost Value = { Layout };

    ghost use Rattle.ele_blocks.specs.LayoutInside.{layout_of, IsLaidOut};

    ghost view = { layout_of };

    ghost invariant = { IsLaidOut };
}

impl BlockMap {
    /// Makes the map of an empty content. It takes no memory.
    pub fn new(alloc: Global) -> BlockMap
        ensures { result ≡ record { size = 0; leaves = [] } }
    {
        BlockMap {
            list: LeafList::new(),
            alloc,
        }
    }

    /// Returns the length of the content, in bytes.
    pub fn length(&self) -> u64
        ensures { result ≡ self.now.size }
    {
        self.list.size()
    }

    /// Returns the number of slots: one for each 512 bytes, and one for a shorter rest.
    pub fn slots(&self) -> usize
        ensures { result ≡ slot_count self.now.size }
    {
        (self.length() as usize).div_ceil(SLOT)
    }

    /// Returns the version that last wrote the slot, and the slot's block. None past the last slot.
    #[tactic(auto, using(crate::proofs::Cited::slice_get_past, crate::proofs::Cited::slots_count))]
    pub fn cell(&self, store: &BlockStore, slot: usize) -> Option<(VersionNo, BlockId)>
        requires { LivesIn store.now self.now }
        ensures cell { result ≡ option_map (λ cell. (cell.writer, cell.block))
            (slice_get (slots_of store.now self.now) slot) }
        ensures owned { IfSome result (λ cell. 0 < owners_at store.now cell.1) }
    {
        if slot >= self.slots() {
            return None;
        }
        let cell = self.slot_at(store, slot);
        Some((cell.writer.version(), cell.block.block()))
    }

    // A slot of the map.
    #[tactic(auto, using(crate::proofs::Cited::length_take, crate::proofs::Cited::length_drop, crate::proofs::Cited::slots_count, crate::proofs::Cited::slot_found, crate::proofs::Cited::slots_of, crate::proofs::Cited::slot_owned, crate::proofs::Cited::its_bytes))]
    fn slot_at(&self, store: &BlockStore, slot: usize) -> Slot
        requires lives { LivesIn store.now self.now }
        requires within { slot < slot_count self.now.size }
        ensures at { slice_get (slots_of store.now self.now) slot ≡ Some result }
        ensures owned { 0 < owners_at store.now result.block }
        ensures bytes { bytes_at store.now result.block
            ≡ slot_bytes (content_of (shown store.now self.now)) slot }
    {
        let leaf = self.leaf_of(store, slot);
        store.leaf(leaf)[slot % LEAF]
    }

    // The leaf that holds the slot.
    #[tactic(auto, using(crate::proofs::Lemmas::leaf_owned, crate::proofs::Lemmas::Layout, crate::proofs::Lemmas::leaf_is))]
    fn leaf_of(&self, store: &BlockStore, slot: usize) -> usize
        requires lives { LivesIn store.now self.now }
        requires within { slot < slot_count self.now.size }
        ensures owned { 0 < owners store.now.leaves result }
        ensures is { leaf_at store.now result
            ≡ take 16 (drop (16 * (slot / 16)) (slots_of store.now self.now)) }
    {
        self.list.as_slice()[slot / LEAF] as usize
    }

    /// Makes a second map of the same content, which shares every leaf with this one. If memory is
    /// refused, the store is as it was.
    pub fn copy(&self, store: &mut BlockStore) -> Result<BlockMap, NoMemory>
        requires lives { LivesIn store.old self.now }
        requires few { IsUncrowded store.old }
        ensures same { IfOk result (λ copy. copy ≡ self.now) }
        ensures moves { OnOk result (Moves store.old store.new [] (self.now ∷ [])) }
        ensures err { OnErr result (store.new ≡ store.old) }
    {
        let list = self.list.copy(self.alloc)?;
        store.share_leaves(self.list.as_slice());
        Ok(BlockMap {
            list,
            alloc: self.alloc,
        })
    }

    /// Returns the bytes of the content.
    #[tactic(auto, using(crate::proofs::Cited::content_of, crate::proofs::Cited::shown, crate::proofs::Cited::take_add, crate::proofs::Cited::take_all, crate::proofs::Cited::length_content))]
    pub fn content(&self, store: &BlockStore) -> Result<Vec<u8>, NoMemory>
        requires { LivesIn store.now self.now }
        ensures bytes { IfOk result (λ bytes. bytes.items ≡ content_of (shown store.now self.now)) }
        ensures length { IfOk result (λ bytes. vec_len bytes ≡ self.now.size) }
    {
        let mut all = Vec::with_capacity(self.alloc, self.length() as usize)?;
        for slot in 0..self.slots() {
            all.extend_from_slice(self.bytes_at(store, slot))?;
        }
        Ok(all)
    }

    /// Ends the map: each of its leaves loses an owner. Leaves without an owner are freed, and then
    /// the blocks that no other leaf names.
    pub fn give_up(self, store: &mut BlockStore)
        requires { LivesIn store.old self }
        ensures { Moves store.old store.new (self ∷ []) [] }
    {
        store.release_leaves(self.list.as_slice());
    }

    // The bytes of a slot; none past the last.
    #[tactic(auto, using(crate::proofs::Cited::drop_all, crate::proofs::Cited::length_content, crate::proofs::Cited::take_nil))]
    fn bytes_at<'a>(&self, store: &'a BlockStore, slot: usize) -> &'a [u8]
        requires { LivesIn store.now self.now }
        ensures { result.now ≡ slot_bytes (content_of (shown store.now self.now)) slot }
    {
        if slot >= self.slots() {
            return &[];
        }
        store.get(self.slot_at(store, slot).block.block())
    }
}
