//! Leaves, as they get and lose owners.
//! A contract sees how the owners of leaves change, and with them the owners of blocks.
ghost use Rattle.std.specs.Prelude.{◌≡◌, ◌≢◌, ◌<◌, ◌≤◌, ◌+◌, ◌^◌, [], ◌∷◌, OnOk, OnErr, IfOk, Some, length, map, max, vec_len, vec_capacity};
ghost use Rattle.slab.specs.Slab.{HasRoomFor};
ghost use Rattle.ele_blocks.specs.Hands.{Hands, AreThere};
ghost use Rattle.ele_blocks.specs.Layout.{ids_of};
ghost use Rattle.ele_blocks.specs.LivesIn.{AreBacked, backing, leaf_count};
ghost use Rattle.ele_blocks.specs.Renewed.{IsLaid, IsRenewed, parts};
ghost use Rattle.ele_blocks.specs.Shared.{Covers, Adds, owners, times, value_at};
ghost use Rattle.ele_blocks.specs.Store.{leaf_at, slots_in};

use crate::block::Block;
use crate::laid::lay_slots;
use crate::leaf::{LEAF, Leaf, LeafRoom};
use crate::shared::Shared;
use crate::slot::Slot;
use crate::store::BlockStore;
use crate::store::shares::share_all;
use ele_moment::{NoMemory, VersionNo};
use std::alloc::Global;

/// The versions whose numbers fit into a slot are before this one.
pub(crate) const NO_WRITER: u64 = 1 << 32;

/// New slots for a run of leaves: their bytes, from this place on.
#[derive(Drop)]
pub(crate) struct Stage {
    pub window: Vec<Slot>,
    pub first: usize,
    pub writer: VersionNo,
    pub staged: Vec<Block>,
}

/// Takes memory for the leaves of so many slots. A leaf of one slot needs none.
pub(crate) fn rooms_for(alloc: Global, slots: usize) -> Result<Vec<LeafRoom>, NoMemory>
    requires { slots < 2 ^ 62 }
    ensures { IfOk result (λ rooms. slots ≢ 1 → vec_len rooms ≡ leaf_count slots) }
{
    let mut rooms = Vec::new(alloc);
    if slots == 1 {
        return Ok(rooms);
    }
    let count = slots.div_ceil(LEAF);
    rooms.reserve(count)?;
    for _ in 0..count {
        rooms.push(LeafRoom::new(alloc)?)?;
    }
    Ok(rooms)
}

// Adds the slots as new leaves of memory that was taken, and their numbers to the list.
#[tactic(auto, using(crate::proofs::Cited::chunk_next, crate::proofs::Cited::puts_more, crate::proofs::Cited::length_drop, crate::proofs::Cited::length_append, crate::proofs::Cited::backing_put))]
fn fill_leaves(leaves: &mut Shared<Leaf>, ids: &mut Vec<u32>, slots: &[Slot], rooms: Vec<LeafRoom>)
    requires rooms { vec_len rooms ≡ leaf_count (length slots.now) }
    requires room { HasRoomFor leaves.old (leaf_count (length slots.now)) }
    requires room_ids { leaf_count (length slots.now) ≤ vec_capacity ids.old }
    requires empty { ids.old.items ≡ [] }
    requires numbers { leaves.old.capacity ≤ 2 ^ 32 }
    ensures adds { Adds leaves.old.slots leaves.new.slots ids.new.items }
    ensures values { map (value_at leaves.new.slots) ids.new.items ≡ map Some (parts slots.now) }
    ensures backing { (id : _) → backing leaves.new.slots id
        ≡ backing leaves.old.slots id + times id (ids_of slots.now) }
{
    let mut rest = slots;
    for room in rooms {
        let (part, more) = rest.split_at(rest.len().min(LEAF));
        ids.push_reserved(leaves.put_reserved(room.fill(part)) as u32);
        rest = more;
    }
}

// Adds a leaf of one slot in reserved memory, and its number to the list.
fn put_leaf(leaves: &mut Shared<Leaf>, ids: &mut Vec<u32>, slot: Slot)
    requires room { HasRoomFor leaves.old 1 }
    requires room_ids { 1 ≤ vec_capacity ids.old }
    requires empty { ids.old.items ≡ [] }
    requires numbers { leaves.old.capacity ≤ 2 ^ 32 }
    ensures adds { Adds leaves.old.slots leaves.new.slots ids.new.items }
    ensures values { map (value_at leaves.new.slots) ids.new.items ≡ map Some (parts (slot ∷ [])) }
    ensures backing { (id : _) → backing leaves.new.slots id
        ≡ backing leaves.old.slots id + times id (ids_of (slot ∷ [])) }
{
    ids.push_reserved(leaves.put_reserved(Leaf::one(slot)) as u32);
}

/// Adds the slots as new leaves in reserved memory, and their numbers to the list.
pub(crate) fn put_leaves(
    leaves: &mut Shared<Leaf>,
    ids: &mut Vec<u32>,
    slots: &[Slot],
    rooms: Vec<LeafRoom>,
)
    requires rooms { length slots.now ≢ 1 → vec_len rooms ≡ leaf_count (length slots.now) }
    requires room { HasRoomFor leaves.old (leaf_count (length slots.now)) }
    requires room_ids { leaf_count (length slots.now) ≤ vec_capacity ids.old }
    requires empty { ids.old.items ≡ [] }
    requires numbers { leaves.old.capacity ≤ 2 ^ 32 }
    ensures adds { Adds leaves.old.slots leaves.new.slots ids.new.items }
    ensures values { map (value_at leaves.new.slots) ids.new.items ≡ map Some (parts slots.now) }
    ensures backing { (id : _) → backing leaves.new.slots id
        ≡ backing leaves.old.slots id + times id (ids_of slots.now) }
{
    if let [slot] = slots {
        put_leaf(leaves, ids, *slot);
    } else {
        fill_leaves(leaves, ids, slots, rooms);
    }
}

// Makes new blocks for the staged bytes, and the window of slots with these in it. The block of
// every other slot gets one owner more. If memory is refused, the blocks are as they were.
fn lay_stage(blocks: &mut Shared<Block>, alloc: Global, stage: Stage) -> Result<Vec<Slot>, NoMemory>
    requires there { (id : _) → 0 < times id (ids_of stage.window.items)
        → 0 < owners blocks.old.slots id }
    requires few { (id : _) → 0 < times id (ids_of stage.window.items)
        → owners blocks.old.slots id < 2 ^ 62 }
    requires within { stage.first ≤ vec_len stage.window }
    requires writer { stage.writer < 2 ^ 32 }
    requires small { vec_len stage.window + vec_len stage.staged < 2 ^ 61 }
    ensures laid { IfOk result (λ slots. IsLaid blocks.old.slots blocks.new.slots
        stage.window.items stage.first stage.writer stage.staged.items slots.items) }
    ensures count { IfOk result (λ slots.
        vec_len slots ≡ max (vec_len stage.window) (stage.first + vec_len stage.staged)) }
    ensures err { OnErr result (blocks.new.slots ≡ blocks.old.slots) }
{
    let Stage {
        mut window,
        first,
        writer,
        staged,
    } = stage;
    let past = first + staged.len();
    window.reserve(past.saturating_sub(window.len()))?;
    let fresh = blocks.put_all(alloc, staged)?;
    share_all(blocks, window.split_at(first).0);
    share_all(blocks, window.split_at(past.min(window.len())).1);
    lay_slots(&mut window, first, writer, &fresh);
    Ok(window)
}

impl BlockStore {
    /// Returns the slots of a leaf.
    pub(crate) fn leaf(&self, leaf: usize) -> &[Slot]
        requires { 0 < owners self.now.leaves leaf }
        ensures { result.now ≡ leaf_at self.now leaf }
    {
        self.leaves.get(leaf).as_slice()
    }

    /// Returns the slots of some leaves, in order.
    pub(crate) fn slots_in(&self, leaves: &[u32]) -> Result<Vec<Slot>, NoMemory>
        requires { Covers self.now.leaves leaves.now }
        ensures { IfOk result (λ slots. slots.items ≡ slots_in self.now leaves.now) }
    {
        let mut slots = Vec::with_capacity(self.alloc, leaves.len().saturating_mul(LEAF))?;
        for leaf in leaves {
            slots.extend_from_slice(self.leaf(*leaf as usize))?;
        }
        Ok(slots)
    }

    // Adds an owner to a leaf.
    fn share_leaf(&mut self, leaf: usize)
        requires there { 0 < owners self.old.leaves leaf }
        requires few { owners self.old.leaves leaf < 2 ^ 63 }
        ensures { Hands self.old self.new (λ other. 0) (λ other. times other (leaf ∷ [])) }
    {
        self.leaves.share(leaf);
    }

    /// Adds an owner to each leaf.
    pub(crate) fn share_leaves(&mut self, leaves: &[u32])
        requires there { Covers self.old.leaves leaves.now }
        requires few { (leaf : _) → owners self.old.leaves leaf + length leaves.now ≤ 2 ^ 63 }
        ensures { Hands self.old self.new (λ leaf. 0) (λ leaf. times leaf leaves.now) }
    {
        for leaf in leaves {
            self.share_leaf(*leaf as usize);
        }
    }

    // Takes one owner from a leaf. With its last owner the leaf is removed, and releases its
    // blocks.
    fn release_leaf(&mut self, leaf: usize)
        requires there { 0 < owners self.old.leaves leaf }
        requires backed { AreBacked self.old (leaf_at self.old leaf) }
        ensures { Hands self.old self.new (λ other. times other (leaf ∷ [])) (λ other. 0) }
    {
        if let Some(slots) = self.leaves.release(leaf) {
            self.release_all(slots.as_slice());
        }
    }

    /// Takes one owner from each leaf.
    pub(crate) fn release_leaves(&mut self, leaves: &[u32])
        requires owned { Covers self.old.leaves leaves.now }
        requires backed { AreBacked self.old (slots_in self.old leaves.now) }
        ensures { Hands self.old self.new (λ leaf. times leaf leaves.now) (λ leaf. 0) }
    {
        for leaf in leaves {
            self.release_leaf(*leaf as usize);
        }
    }

    /// Makes new leaves and blocks in place of these leaves, each of which loses an owner. The new
    /// leaves name the blocks that stay, so these have one owner more until the old leaf is
    /// removed. If memory is refused, the store is as it was. Memory also counts as refused if the
    /// writer's number or that of a new block or leaf doesn't fit into 32 bits, or if a block has
    /// 2^62 owners.
    pub(crate) fn renew(&mut self, was: &[u32], stage: Stage) -> Result<Vec<u32>, NoMemory>
        requires owned { Covers self.old.leaves was.now }
        requires backed { AreBacked self.old (slots_in self.old was.now) }
        requires there { AreThere self.old stage.window.items }
        requires within { stage.first ≤ vec_len stage.window }
        requires small { vec_len stage.window + vec_len stage.staged < 2 ^ 61 }
        ensures renewed { IfOk result (λ now. IsRenewed self.old self.new was.now
            stage.window.items stage.first stage.writer stage.staged.items now.items) }
        ensures err { OnErr result (self.new ≡ self.old) }
    {
        if stage.writer.0 >= NO_WRITER || !self.can_share(&stage.window) {
            return Err(NoMemory);
        }
        let past = stage.first + stage.staged.len();
        let length = past.max(stage.window.len());
        let count = length.div_ceil(LEAF);
        let mut now = Vec::with_capacity(self.alloc, count)?;
        let rooms = rooms_for(self.alloc, length)?;
        self.leaves.reserve(count)?;
        let slots = lay_stage(&mut self.blocks, self.alloc, stage)?;
        put_leaves(&mut self.leaves, &mut now, &slots, rooms);
        self.release_leaves(was);
        Ok(now)
    }
}
