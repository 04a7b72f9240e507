//! The members of each group, from the newest back, and how many of them are live.
//! A contract sees the newest member of each group, its count, and the member before each member.
ghost use Rattle.std.specs.Prelude.{◌≡◌, ◌+◌, ◌-◌, ◌<◌, ◌^◌, ℕ, Option, None, cond, OnOk, OnErr, IsSome, length, slice_get};
ghost use Rattle.std.specs.Bool.{nat_eq};
ghost use Rattle.std.specs.Option.{option_and_then};
ghost use Rattle.ele_names.specs.Chained.{Gains, Keeps, Loses, AreSame, live_in, newest_in};

use ele_moment::NoMemory;
use std::alloc::Global;

/// A group's newest member, by number, and how many of its members are live.
#[derive(Clone, Copy)]
pub struct Members {
    pub newest: Option<u64>,
    pub live: u64,
}

const NO_MEMBERS: Members = Members {
    newest: None,
    live: 0,
};

/// The groups by number, and for each member the number of the one before it. Groups are numbered
/// in order of making. Only the newest member of a group is removed, so the list needs no removal
/// between others.
#[derive(Drop)]
pub struct RowLists {
    pub groups: Vec<Members>,
    pub older: Vec<Option<u64>>,
}

impl RowLists {
    /// Makes an empty list. It takes no memory.
    pub fn new(alloc: Global) -> RowLists
        ensures newest { (g : ℕ) → newest_in result g ≡ None }
        ensures live { (g : ℕ) → live_in result g ≡ 0 }
    {
        RowLists {
            groups: Vec::new(alloc),
            older: Vec::new(alloc),
        }
    }

    /// Returns the number of the group's newest member.
    pub fn newest(&self, group: u64) -> Option<u64>
        ensures { result ≡ newest_in self.now group }
    {
        self.groups.get(group as usize)?.newest
    }

    /// Returns how many of the group's members are live.
    pub fn live(&self, group: u64) -> u64
        ensures { result ≡ live_in self.now group }
    {
        match self.groups.get(group as usize) {
            Some(members) => members.live,
            None => 0,
        }
    }

    /// Returns the number of the member before the one with the number.
    pub fn older(&self, number: u64) -> Option<u64>
        ensures { result ≡ option_and_then (λ o. o) (slice_get self.now.older.items number) }
    {
        *self.older.get(number as usize)?
    }

    // Makes a place for the group. `NoMemory` if memory is refused.
    fn know(&mut self, group: u64) -> Result<(), NoMemory>
        ensures same { AreSame self.old self.new }
        ensures known { OnOk result (group < length self.new.groups.items) }
    {
        if self.groups.len() <= group as usize {
            self.groups.resize(group as usize, NO_MEMBERS)?;
            self.groups.push(NO_MEMBERS)?;
        }
        Ok(())
    }

    /// Adds a newest member to its group, with a number above all others, and leaves the count.
    /// `NoMemory` if memory is refused; the member then isn't there.
    pub fn enter(&mut self, group: u64, number: u64) -> Result<(), NoMemory>
        ensures ok { OnOk result (Gains group number self.old self.new) }
        ensures err { OnErr result (Keeps number self.old self.new) }
    {
        self.know(group)?;
        self.older.resize(number as usize, None)?;
        let newest = self.newest(group);
        self.older.push(newest)?;
        self.groups[group as usize].newest = Some(number);
        Ok(())
    }

    /// Removes the newest member of its group. The count stays. It takes no memory.
    pub fn leave(&mut self, group: u64, number: u64)
        ensures lost { IsSome (newest_in self.old group) → Loses group number self.old self.new }
        ensures live { (g : ℕ) → live_in self.new g ≡ live_in self.old g }
    {
        if (group as usize) < self.groups.len() {
            self.groups[group as usize].newest = self.older(number);
        }
    }

    /// Adds one to the group's count of live members.
    pub fn add(&mut self, group: u64)
        requires member { IsSome (newest_in self.old group) }
        requires fits { live_in self.old group + 1 < 2 ^ 64 }
        ensures newest { (g : ℕ) → newest_in self.new g ≡ newest_in self.old g }
        ensures older { self.new.older ≡ self.old.older }
        ensures live { (g : ℕ) → live_in self.new g
            ≡ live_in self.old g + cond (nat_eq group g) 1 0 }
    {
        self.groups[group as usize].live += 1;
    }

    /// Takes one from the group's count of live members; a count of 0 stays. It takes no memory.
    pub fn take(&mut self, group: u64)
        ensures newest { (g : ℕ) → newest_in self.new g ≡ newest_in self.old g }
        ensures older { self.new.older ≡ self.old.older }
        ensures live { (g : ℕ) → live_in self.new g
            ≡ live_in self.old g - cond (nat_eq group g) 1 0 }
    {
        if (group as usize) < self.groups.len() {
            let live = self.live(group);
            self.groups[group as usize].live = live.saturating_sub(1);
        }
    }
}
