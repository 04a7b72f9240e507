//! A leaf: at most 16 slots in a row of a block map.
//! A contract sees them as their list.
ghost use Rattle.std.specs.Prelude.{◌≡◌, ◌≤◌, [], ◌∷◌, IfOk, length};

use crate::slot::Slot;
use arrayvec::ArrayVec;
use std::alloc::{AllocError, Global};
use std::marker::Model;
use std::slice::from_ref;

/// How many slots a leaf holds.
pub const LEAF: usize = 16;

/// Slots. A single one is stored in place, and takes no memory of its own.
#[derive(Drop)]
pub struct Leaf {
    slots: Slots,
}

#[derive(Drop)]
enum Slots {
    One(Slot),
    Many(Box<ArrayVec<Slot, 16>>),
}

impl Model for Leaf {
    ghost use Rattle.std.specs.Prelude.{List};
    ghost use Rattle.ele_blocks.specs.declared.slot.Slot.{Slot};

    ghost Value = { List Slot };

    ghost use Rattle.ele_blocks.specs.LeafInside.{slots_in_leaf};

    ghost view = { λ leaf. slots_in_leaf leaf.slots };
}

/// Memory for a leaf of several slots.
#[derive(Drop)]
pub struct LeafRoom {
    slots: Box<ArrayVec<Slot, 16>>,
}

impl LeafRoom {
    /// Takes memory for a leaf.
    pub fn new(alloc: Global) -> Result<LeafRoom, AllocError> {
        let slots = Box::new(alloc, ArrayVec::new())?;
        Ok(LeafRoom { slots })
    }

    /// Makes a leaf of these slots in the memory.
    pub fn fill(self, part: &[Slot]) -> Leaf
        requires { length part.now ≤ 16 }
        ensures { result ≡ part.now }
    {
        let mut slots = self.slots;
        slots.clear();
        match slots.try_extend_from_slice(part) {
            Ok(()) => {}
            Err(_full) => unreachable!(),
        }
        Leaf {
            slots: Slots::Many(slots),
        }
    }
}

impl Leaf {
    /// Makes a leaf of one slot.
    pub fn one(slot: Slot) -> Leaf
        ensures { result ≡ slot ∷ [] }
    {
        Leaf {
            slots: Slots::One(slot),
        }
    }

    /// Returns the slots.
    pub fn as_slice(&self) -> &[Slot]
        ensures { result.now ≡ self.now }
    {
        match &self.slots {
            Slots::One(slot) => from_ref(slot),
            Slots::Many(slots) => slots.as_slice(),
        }
    }
}
