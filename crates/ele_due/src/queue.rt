//! The queue of keys, in a search tree.
//! A contract sees it as the list of its keys, each key once, in order.
ghost use Rattle.std.specs.Prelude.{◌≡◌, ◌<◌, ◌^◌, ◌↔◌, ◌||◌, ◌&&◌, [], not, length, filter, slice_get, take_while, IsOk, IfOk, OnOk, OnErr, IsTrue, List, ℕ};
ghost use Rattle.std.specs.BTreeSet.{insert_key};
ghost use Rattle.std.specs.Set.{remove_key};
ghost use Rattle.ele_due.specs.declared.key.Key.{Key};
ghost use Rattle.ele_due.specs.Key.{key_cmp, is_key};
ghost use Rattle.ele_due.specs.Queue.{is_ripe_by, if_ripe, IsInOrder};
ghost use Rattle.ele_due.specs.InOrder.{in_order};
ghost use Rattle.ele_due.specs.HasKey.{has_key};

use crate::key::Key;
use ele_moment::{Moment, NoMemory};
use std::alloc::{AllocError, Global};
use std::collections::BTreeSet;
use std::marker::Model;

/// A queue of keys in order of removal, each key at most once.
#[derive(Drop)]
pub struct DueQueue {
    keys: BTreeSet<Key>,
    alloc: Global,
}

impl Model for DueQueue {
    ghost use Rattle.std.specs.Prelude.{List};
    ghost use Rattle.ele_due.specs.declared.key.Key.{Key};
    ghost use Rattle.ele_due.specs.Queue.{IsInOrder};

    ghost Value = { List Key };

    ghost view = { λ queue. queue.keys.keys };

    ghost invariant = { λ queue. IsInOrder queue.keys.keys };
}

impl DueQueue {
    /// Makes an empty queue. It takes no memory; later calls take theirs from `alloc`.
    pub fn new(alloc: Global) -> DueQueue
        ensures { result ≡ [] }
    {
        DueQueue {
            keys: BTreeSet::new(alloc),
            alloc,
        }
    }

    /// Returns the number of keys.
    pub fn len(&self) -> usize
        ensures value { result ≡ length self.now }
        ensures bound { result < 2 ^ 63 }
        ensures ordered { IsInOrder self.now }
    {
        self.keys.len()
    }

    /// Returns whether the queue has no key.
    pub fn is_empty(&self) -> bool
        ensures { IsTrue result ↔ (self.now ≡ []) }
    {
        self.keys.is_empty()
    }

    /// Adds the key, unless the queue has it already. `NoMemory` if memory for a new key is
    /// refused; the queue is then as it was.
    pub fn insert(&mut self, key: Key) -> Result<(), NoMemory>
        ensures ok { OnOk result (self.new ≡ insert_key key_cmp self.old key) }
        ensures members { OnOk result
            ((k : Key) → has_key k self.new ≡ (is_key k key || has_key k self.old)) }
        ensures again { IsTrue (has_key key self.old) → IsOk result × (self.new ≡ self.old) }
        ensures err { OnErr result (self.new ≡ self.old) }
        ensures ordered { IsInOrder self.new }
    {
        let _new = self.keys.insert(key)?;
        Ok(())
    }

    /// Removes the key, and returns whether it was there. It takes no memory.
    pub fn remove(&mut self, key: &Key) -> bool
        ensures was { result ≡ has_key key.now self.old }
        ensures rest { self.new ≡ remove_key (is_key key.now) self.old }
        ensures members { (k : Key)
            → has_key k self.new ≡ (not (is_key k key.now) && has_key k self.old) }
        ensures ordered { IsInOrder self.new }
    {
        self.keys.remove(key)
    }

    /// Returns whether the queue has the key.
    pub fn holds(&self, key: &Key) -> bool
        ensures { result ≡ has_key key.now self.now }
    {
        self.keys.contains(key)
    }

    /// Returns the first key in order. None if the queue is empty.
    pub fn first(&self) -> Option<Key>
        ensures value { result ≡ slice_get self.now 0 }
        // Of any list that has exactly the keys that are ripe by a moment it is the first, if it is
        // ripe.
        ensures ripe { (moment : ℕ) (ripe : List Key)
            → ((k : Key) → has_key k ripe ≡ (is_ripe_by moment k && has_key k self.now))
            → slice_get (in_order ripe) 0 ≡ if_ripe moment result }
        ensures ordered { IsInOrder self.now }
    {
        first_key(&self.keys)
    }

    /// Returns the keys of the versions that are ripe at the moment, in order. `NoMemory` if memory
    /// for the list is refused.
    pub fn until(&self, moment: Moment) -> Result<Vec<Key>, NoMemory>
        ensures keys { IfOk result
            (λ keys. keys.items ≡ filter (is_ripe_by moment) self.now) }
        // Any list that has exactly the ripe keys is the answer, once in order.
        ensures only { IfOk result (λ keys. (ripe : List Key)
            → ((k : Key) → has_key k ripe ≡ (is_ripe_by moment k && has_key k self.now))
            → keys.items ≡ in_order ripe) }
        ensures ordered { IsInOrder self.now }
    {
        Ok(ripe_keys(&self.keys, moment, self.alloc)?)
    }
}

// The least key.
fn first_key(keys: &BTreeSet<Key>) -> Option<Key>
    ensures { result ≡ slice_get keys.now.keys 0 }
{
    keys.first().copied()
}

// The keys before the first that is not ripe.
fn ripe_keys(keys: &BTreeSet<Key>, moment: Moment, alloc: Global) -> Result<Vec<Key>, AllocError>
    ensures { IfOk result
        (λ ripe. ripe.items ≡ take_while (is_ripe_by moment) keys.now.keys) }
{
    keys.iter()
        .copied()
        .take_while(|key| key.ripe <= moment)
        .collect(alloc)
}
