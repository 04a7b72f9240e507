//! Items that replace part of a list, from one of its places on.
//! A contract sees lists.
ghost use Rattle.std.specs.Prelude.{◌≡◌, ◌<◌, ◌≤◌, ◌+◌, ◌^◌, [], ◌∷◌, length, map, vec_capacity};
ghost use Rattle.ele_blocks.specs.LaidOver.{laid_over};
ghost use Rattle.ele_blocks.specs.Layout.{slot_by};

use crate::slot::{Number, Slot};
use ele_moment::VersionNo;

// Sets the item at its place, or adds it at the end, in reserved memory.
#[tactic(auto, using(crate::proofs::LaidOvers::laid_set))]
fn place<T: Copy>(items: &mut Vec<T>, at: usize, item: T)
    requires within { at ≤ length items.old.items }
    requires room { at < vec_capacity items.old }
    ensures items { items.new.items ≡ laid_over at (item ∷ []) items.old.items }
    ensures room { vec_capacity items.old ≤ vec_capacity items.new }
{
    if at < items.len() {
        items[at] = item;
    } else {
        items.push_reserved(item);
    }
}

/// Replaces slots from `first` on by the writer's slots for the blocks. The caller has reserved
/// memory for those past the end.
pub fn lay_slots(slots: &mut Vec<Slot>, first: usize, writer: VersionNo, ids: &[u32])
    requires writer { writer < 2 ^ 32 }
    requires within { first ≤ length slots.old.items }
    requires room { first + length ids.now ≤ vec_capacity slots.old }
    ensures { slots.new.items ≡ laid_over first (map (slot_by writer) ids.now) slots.old.items }
{
    for (i, id) in ids.iter().enumerate() {
        let slot = Slot {
            writer: Number::new(writer.0 as u32),
            block: Number::new(*id),
        };
        place(slots, first + i, slot);
    }
}

/// Replaces leaves from `first` on. The caller has reserved memory for those past the end.
#[tactic(auto, using(crate::proofs::Cited::length_take_le, crate::proofs::Cited::take_more, crate::proofs::Cited::laid_more))]
pub fn lay_leaves(leaves: &mut Vec<u32>, first: usize, ids: &[u32])
    requires within { first ≤ length leaves.old.items }
    requires room { first + length ids.now ≤ vec_capacity leaves.old }
    ensures { leaves.new.items ≡ laid_over first ids.now leaves.old.items }
{
    for (i, id) in ids.iter().enumerate() {
        place(leaves, first + i, *id);
    }
}
