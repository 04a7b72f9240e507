//! Values with many owners, each under a number, with the count of its owners.
//! A contract sees the places, each with a value and its owners or empty, and the capacity.
ghost use Rattle.std.specs.Prelude.{◌≡◌, ◌<◌, ◌≤◌, ◌+◌, ◌^◌, [], OnOk, OnErr, IfOk, Some, None, map, count_by, is_some, vec_len, vec_capacity};
ghost use Rattle.slab.specs.Slab.{HasRoomFor};
ghost use Rattle.ele_blocks.specs.Shared.{place_at, value_at, owners, Sets, Adds, Owned, shared, released, leaving};

use slab::Slab;
use std::alloc::{AllocError, Global};
use std::marker::Model;

/// The largest number of places in a store: as many as 32 bits can number.
const MOST: usize = 1 << 32;

/// Values under numbers that the store picks. A value is removed with its last owner. The counts
/// are in a list of their own, so that a change of hundreds of them reads no value.
#[derive(Drop)]
pub struct Shared<T> {
    values: Slab<T>,
    owners: Vec<u64>,
}

impl<T> Model for Shared<T> {
    ghost use Rattle.slab.specs.Slab.{Slab};
    ghost use Rattle.ele_blocks.specs.Shared.{Counted};

    ghost Value = { Slab (Counted T) };

    ghost use Rattle.ele_blocks.specs.SharedInside.{counted_slab, AreOwned};

    ghost view = { counted_slab };

    ghost invariant = { AreOwned };
}

impl<T: Drop> Shared<T> {
    /// Makes an empty store. It takes no memory.
    pub fn new(alloc: Global) -> Self
        ensures { result.slots ≡ [] }
    {
        Shared {
            values: Slab::new(alloc),
            owners: Vec::new(alloc),
        }
    }

    /// Adds a value with one owner, and returns its number. If memory is refused, the store is as
    /// it was.
    pub fn put(&mut self, value: T) -> Result<usize, AllocError>
        ensures vacant { IfOk result (λ id. place_at self.old.slots id ≡ None) }
        ensures sets { IfOk result (λ id.
            Sets self.old.slots self.new.slots id (Some (record { value = value; owners = 1 }))) }
        ensures err { OnErr result (self.new.slots ≡ self.old.slots) }
    {
        self.reserve(1)?;
        Ok(self.put_reserved(value))
    }

    /// Reserves memory for so many more values, each with a number of 32 bits.
    pub fn reserve(&mut self, more: usize) -> Result<(), AllocError>
        ensures room { OnOk result (HasRoomFor self.new more) }
        ensures numbers { OnOk result (self.new.capacity ≤ 2 ^ 32) }
        ensures same { self.new.slots ≡ self.old.slots }
    {
        self.values.reserve(more)?;
        let capacity = self.values.capacity();
        if capacity > MOST {
            return Err(AllocError);
        }
        if self.owners.len() < capacity {
            self.owners.resize(capacity, 0)?;
        }
        Ok(())
    }

    /// Adds a value with one owner, in reserved memory.
    #[tactic(auto, using(crate::proofs::Cited::room_in, crate::proofs::Cited::HasRoomFor, crate::proofs::Cited::owned_new, crate::proofs::Cited::place_counted, crate::proofs::Cited::sets_new, crate::proofs::Cited::room_after))]
    pub fn put_reserved(&mut self, value: T) -> usize
        requires { HasRoomFor self.old 1 }
        ensures vacant { place_at self.old.slots result ≡ None }
        ensures sets { Sets self.old.slots self.new.slots result
            (Some (record { value = value; owners = 1 })) }
        ensures room { (more : _) → HasRoomFor self.old (1 + more) → HasRoomFor self.new more }
        ensures owned { Owned self.new.slots }
        ensures within { result < self.old.capacity }
        ensures capacity { self.new.capacity ≡ self.old.capacity }
    {
        let id = self.values.insert_reserved(value);
        self.owners[id] = 1;
        id
    }

    /// Adds each of the values with one owner, and returns their numbers in the same order. If
    /// memory is refused, it adds none, and the store is as it was.
    pub fn put_all(&mut self, alloc: Global, values: Vec<T>) -> Result<Vec<u32>, AllocError>
        ensures adds { IfOk result (λ ids. Adds self.old.slots self.new.slots ids.items) }
        ensures values { IfOk result (λ ids.
            map (value_at self.new.slots) ids.items ≡ map Some values.items) }
        ensures err { OnErr result (self.new.slots ≡ self.old.slots) }
    {
        let mut ids = Vec::new(alloc);
        ids.reserve(values.len())?;
        self.reserve(values.len())?;
        put_each(self, &mut ids, values);
        Ok(ids)
    }

    /// Returns the value under the number.
    #[tactic(auto, using(crate::proofs::Cited::place_counted))]
    pub fn get(&self, id: usize) -> &T
        requires { 0 < owners self.now.slots id }
        ensures { value_at self.now.slots id ≡ Some result.now }
    {
        &self.values[id]
    }

    /// Returns how many owners the value under the number has.
    #[tactic(auto, using(crate::proofs::Cited::is_counted, crate::proofs::Cited::get_or_default_zero, crate::proofs::Cited::owners_counted))]
    pub fn owners(&self, id: usize) -> u64
        requires { 0 < owners self.now.slots id }
        ensures { result ≡ owners self.now.slots id }
    {
        self.owners[id]
    }

    /// Returns the number of values.
    #[tactic(auto, using(crate::proofs::Cited::count_counted))]
    pub fn len(&self) -> usize
        ensures count { result ≡ count_by is_some self.now.slots }
        ensures owned { Owned self.now.slots }
    {
        self.values.len()
    }

    /// Brings a proof the fact that each value has an owner.
    pub fn lemma_owned(&self)
        ensures { Owned self.now.slots }
    {
        let _ = &self.values;
    }

    /// Adds an owner to the value.
    #[tactic(auto, using(crate::proofs::Cited::is_counted, crate::proofs::Cited::get_or_default_zero, crate::proofs::Cited::owners_counted, crate::proofs::Cited::owned_more, crate::proofs::Cited::sets_more))]
    pub fn share(&mut self, id: usize)
        requires there { 0 < owners self.old.slots id }
        requires few { owners self.old.slots id < 2 ^ 63 }
        ensures sets { Sets self.old.slots self.new.slots id (shared (place_at self.old.slots id)) }
        ensures room { (more : _) → HasRoomFor self.old more → HasRoomFor self.new more }
        ensures capacity { self.new.capacity ≡ self.old.capacity }
    {
        self.owners[id] += 1;
    }

    /// Takes one owner from the value. With the last owner the value is removed and returned.
    #[tactic(auto, using(crate::proofs::Cited::is_counted, crate::proofs::Cited::get_or_default_zero, crate::proofs::Cited::owned_less, crate::proofs::Cited::owners_counted, crate::proofs::Cited::none_leaves))]
    pub fn release(&mut self, id: usize) -> Option<T>
        requires { 0 < owners self.old.slots id }
        ensures sets { Sets self.old.slots self.new.slots id
            (released (place_at self.old.slots id)) }
        ensures last { result ≡ leaving (place_at self.old.slots id) }
    {
        if self.owners[id] > 1 {
            self.owners[id] -= 1;
            return None;
        }
        self.values.try_remove(id)
    }
}

// Adds each of the values with one owner, in reserved memory.
fn put_each<T: Drop>(store: &mut Shared<T>, ids: &mut Vec<u32>, values: Vec<T>)
    requires room { HasRoomFor store.old (vec_len values) }
    requires numbers { store.old.capacity ≤ 2 ^ 32 }
    requires room_ids { vec_len ids.old + vec_len values ≤ vec_capacity ids.old }
    requires empty { ids.old.items ≡ [] }
    ensures adds { Adds store.old.slots store.new.slots ids.new.items }
    ensures values { map (value_at store.new.slots) ids.new.items ≡ map Some values.items }
{
    for value in values {
        ids.push_reserved(store.put_reserved(value) as u32);
    }
}
