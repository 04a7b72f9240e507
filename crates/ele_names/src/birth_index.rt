//! The rows of each name, by birth.
//! A contract sees a test: whether a serial number is under the number of a name and a birth.
ghost use Rattle.std.specs.Prelude.{◌≡◌, ℕ, ◌≤◌, ◌<◌, ◌^◌, cond, true, false, None, length, OnOk, OnErr, IfSome, IfNone};
ghost use Rattle.std.specs.Bool.{nat_eq};
ghost use Rattle.std.specs.Ordering.{nat_cmp};
ghost use Rattle.ele_rows.specs.Index.{has, is_entry, IsLastOf};
ghost use Rattle.ele_names.specs.BirthIndex.{AreBelow, is_up_to, has_birth, newest_of};

use ele_moment::NoMemory;
use ele_rows::Index;
use std::alloc::Global;

/// The birth of a row, in seconds, and its serial number.
#[derive(Clone, Copy)]
pub struct Born {
    pub birth: u64,
    pub serial: u64,
}

impl Born {
    // Whether this row is the other one or comes before it.
    fn is_up_to(self, other: Born) -> bool
        ensures { result ≡ is_up_to self.birth self.serial other }
    {
        self.birth < other.birth || self.birth == other.birth && self.serial <= other.serial
    }
}

/// The newest row of each name at the place of the name's number, and the older ones in a search
/// tree. Most names have only one row, and most calls ask for the newest.
#[derive(Drop)]
pub struct BirthIndex {
    pub newest: Vec<Option<Born>>,
    pub older: Index<u64>,
}

impl BirthIndex {
    /// Makes an empty index. It takes no memory.
    pub fn new(alloc: Global) -> BirthIndex
        ensures none { (q r s : ℕ) → has_birth result q r s ≡ false }
        ensures below { AreBelow result }
    {
        BirthIndex {
            newest: Vec::new(alloc),
            older: Index::new(alloc),
        }
    }

    // The newest row of the name.
    fn newest(&self, number: u64) -> Option<Born>
        ensures { result ≡ newest_of self.now number }
    {
        *self.newest.get(number as usize)?
    }

    // Makes a place for the name. `NoMemory` if memory is refused.
    fn know(&mut self, number: u64) -> Result<(), NoMemory>
        ensures newest { (q : ℕ) → newest_of self.new q ≡ newest_of self.old q }
        ensures older { self.new.older ≡ self.old.older }
        ensures known { OnOk result (number < length self.new.newest.items) }
    {
        if self.newest.len() <= number as usize {
            self.newest.resize(number as usize, None)?;
            self.newest.push(None)?;
        }
        Ok(())
    }

    // Sets the newest row of a name that has a place.
    fn set(&mut self, number: u64, newest: Option<Born>)
        requires { number < length self.old.newest.items }
        ensures newest { (q : ℕ) → newest_of self.new q
            ≡ cond (nat_eq number q) newest (newest_of self.old q) }
        ensures older { self.new.older ≡ self.old.older }
    {
        self.newest[number as usize] = newest;
    }

    /// Adds a row. `NoMemory` if memory is refused; the rows are then as they were.
    pub fn insert(&mut self, number: u64, birth: u64, serial: u64) -> Result<(), NoMemory>
        ensures ok { OnOk result ((q r s : ℕ) → has_birth self.new q r s
            ≡ cond (is_entry nat_cmp number birth serial q r s) true (has_birth self.old q r s)) }
        ensures err { OnErr result ((q r s : ℕ) → has_birth self.new q r s ≡ has_birth self.old q r s) }
        ensures below { AreBelow self.old → AreBelow self.new }
    {
        self.know(number)?;
        let born = Born { birth, serial };
        let Some(newest) = self.newest(number) else {
            self.set(number, Some(born));
            return Ok(());
        };
        if born.is_up_to(newest) {
            return Ok(self.older.insert(number, birth, serial)?);
        }
        self.older.insert(number, newest.birth, newest.serial)?;
        self.set(number, Some(born));
        Ok(())
    }

    /// Removes a row, if it is there. It takes no memory.
    pub fn remove(&mut self, number: u64, birth: u64, serial: u64)
        ensures removed { (q r s : ℕ) → has_birth self.new q r s
            ≡ cond (is_entry nat_cmp number birth serial q r s) false (has_birth self.old q r s) }
        ensures below { AreBelow self.old → AreBelow self.new }
    {
        self.older.remove(number, birth, serial);
        let Some(newest) = self.newest(number) else {
            return;
        };
        if newest.birth == birth && newest.serial == serial {
            self.renew(number);
        }
    }

    // Moves the name's last row from the tree, if there is one, to the place of the newest.
    fn renew(&mut self, number: u64)
        requires { number < length self.old.newest.items }
        ensures left { (q r s : ℕ) → has_birth self.new q r s
            ≡ cond (nat_eq number q) (has nat_cmp self.old.older q r s) (has_birth self.old q r s) }
        ensures below { AreBelow self.old → AreBelow self.new }
    {
        let Some((birth, serial)) = self.older.last(number, u64::MAX) else {
            self.set(number, None);
            return;
        };
        self.older.remove(number, birth, serial);
        self.set(number, Some(Born { birth, serial }));
    }

    /// Returns the last row of the name that was born by that many seconds: its birth and its
    /// serial number.
    pub fn last(&self, number: u64, birth: u64) -> Option<(u64, u64)>
        requires { AreBelow self.now }
        ensures some { IfSome result (λ e. IsLastOf (has_birth self.now number) birth e.0 e.1) }
        ensures none { IfNone result ((r s : ℕ) → r ≤ birth → s < 2 ^ 64
            → has_birth self.now number r s ≡ false) }
    {
        let newest = self.newest(number)?;
        if newest.birth <= birth {
            return Some((newest.birth, newest.serial));
        }
        self.older.last(number, birth)
    }
}
