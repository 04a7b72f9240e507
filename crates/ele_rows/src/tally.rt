//! Counts by key.
//! A contract sees a tally as the count of each key.
ghost use Rattle.std.specs.Prelude.{◌≡◌, ◌<◌, ◌+◌, ◌-◌, ◌^◌, OnOk, IsOk, if◌then◌else◌};
ghost use Rattle.ele_rows.specs.Tally.{counted, room};

use std::alloc::{AllocError, Global};
use std::collections::HashMap;
use std::hash::Hash;

/// How often each key was counted. A key that never was has the count 0, and takes no memory.
#[derive(Drop)]
pub struct Tally<K: Eq + Hash> {
    counts: HashMap<K, u64>,
}

impl<K: Eq + Hash + Copy> Tally<K> {
    /// Makes an empty tally. It takes no memory.
    pub fn new(alloc: Global) -> Tally<K>
        ensures { (k : K) → counted K.eq result k ≡ 0 }
    {
        Tally {
            counts: HashMap::new(alloc),
        }
    }

    /// Reserves memory to count one more key, if there is none yet. `AllocError` if memory is
    /// refused; no count changes.
    pub fn reserve(&mut self) -> Result<(), AllocError>
        ensures same { (k : K) → counted K.eq self.new k ≡ counted K.eq self.old k }
        ensures ok { OnOk result (0 < room self.new) }
        ensures ready { 0 < room self.old → IsOk result }
    {
        self.counts.reserve(1)?;
        Ok(())
    }

    /// Returns how often the key was counted.
    pub fn count(&self, key: K) -> u64
        ensures { result ≡ counted K.eq self.now key }
    {
        if self.counts.is_empty() {
            // An empty tally needn't hash the key.
            return 0;
        }
        self.counts.get(&key).copied().unwrap_or(0)
    }

    /// Adds one to the count of the key, in reserved memory.
    pub fn add(&mut self, key: K)
        requires room { 0 < room self.old }
        requires fits { counted K.eq self.old key + 1 < 2 ^ 64 }
        ensures { (k : K) → counted K.eq self.new k
            ≡ counted K.eq self.old k + (if K.eq key k then 1 else 0) }
    {
        let count = self.count(key);
        match self.counts.insert(key, count + 1) {
            Ok(_) => {}
            Err(_) => unreachable!(),
        }
    }

    /// Takes one from the count of the key; a count of 0 stays. It takes no memory.
    pub fn take(&mut self, key: K)
        ensures { (k : K) → counted K.eq self.new k
            ≡ counted K.eq self.old k - (if K.eq key k then 1 else 0) }
    {
        let count = self.count(key);
        if count <= 1 {
            let _last = self.counts.remove(&key);
            return;
        }
        match self.counts.insert(key, count - 1) {
            Ok(_) => {}
            Err(_) => unreachable!(),
        }
    }
}
