//! All names ever given, their live rows, and the number of live names in each directory. A
//! contract sees the names by number, and what the rest describes: a list of rows, and the row of
//! each serial number.
ghost use Rattle.std.specs.Prelude.{◌≡◌, ℕ, ◌<◌, ◌+◌, ◌^◌, true, false, [], List, Option, Some, None, cond, length, slice_get, IfSome, IfNone, IfOk, IsTrue, is_none};
ghost use Rattle.std.specs.Option.{option_map};
ghost use Rattle.std.specs.Ordering.{nat_cmp};
ghost use Rattle.std.specs.BTreeMap.{is_at};
ghost use Rattle.ele_model.specs.declared.rows.NameRow.{NameRow};
ghost use Rattle.ele_model.specs.Walk.{is_live_name};
ghost use Rattle.ele_names.specs.Chained.{live_in};
ghost use Rattle.ele_names.specs.Counted.{AreCounted, AreNumbered, Leaves, live_at};
ghost use Rattle.ele_names.specs.Placed.{AreListed, KeepsPlaces, name_eq, names_of, number_in, place_in};

use crate::found::Found;
use crate::row_lists::RowLists;
use ele_model::{NameRow, Target};
use ele_moment::{DirId, Name, NoMemory};
use indexmap::IndexMap;
use std::alloc::Global;

/// A live row: its serial number, and the name's target.
#[derive(Clone, Copy)]
pub struct Live<T> {
    pub serial: u64,
    pub target: T,
}

/// The names in a hash table, in which a walk along a path looks up each of its names. A name keeps
/// its number for good, which is its place in the table.
#[derive(Drop)]
pub struct LiveNames {
    pub by_name: IndexMap<(DirId, Name), Option<Live<Target>>>,
    pub in_directory: RowLists,
}

impl LiveNames {
    /// Makes an empty table.
    #[tactic(auto, using(crate::proofs::Given::listed_none))]
    pub fn new(alloc: Global) -> LiveNames
        ensures names { names_of result ≡ [] }
        ensures listed { AreListed result }
        ensures counted { AreCounted [] result }
        ensures numbered { (at : ℕ → Option NameRow) → AreNumbered at result }
    {
        LiveNames {
            by_name: IndexMap::new(alloc),
            in_directory: RowLists::new(alloc),
        }
    }

    /// Returns the number of the name, if it was ever given.
    #[tactic(auto, using(crate::proofs::Numbers::unnumbered))]
    pub fn number(&self, directory: DirId, name: &Name) -> Option<u64>
        ensures some { IfSome result (λ number.
            (number ≡ place_in (names_of self.now) directory name.now)
            × (number < length (names_of self.now))) }
        ensures none { IfNone result (place_in (names_of self.now) directory name.now
            ≡ length (names_of self.now)) }
    {
        let number = self.by_name.get_index_of(&(directory, *name))?;
        Some(number as u64)
    }

    /// Returns the number of the name, as `number` does. It first checks whether the hint is the
    /// number.
    pub fn number_by(&self, hint: u64, directory: DirId, name: &Name) -> Option<u64>
        ensures some { IfSome result (λ number.
            (number ≡ place_in (names_of self.now) directory name.now)
            × (number < length (names_of self.now))) }
        ensures none { IfNone result (place_in (names_of self.now) directory name.now
            ≡ length (names_of self.now)) }
    {
        if self.has(hint, directory, name) {
            return Some(hint);
        }
        self.number(directory, name)
    }

    // Whether the name has that number.
    fn has(&self, number: u64, directory: DirId, name: &Name) -> bool
        ensures { IsTrue result → (number ≡ place_in (names_of self.now) directory name.now)
            × (number < length (names_of self.now)) }
    {
        let len = self.by_name.len() as u64;
        match self.by_name.get_index(number as usize) {
            Some((key, _)) => number < len && *key == (directory, *name),
            None => false,
        }
    }

    /// Returns the target of the name's live row, with the name's number.
    pub fn find(&self, directory: DirId, name: &Name) -> Option<Found>
        ensures { result ≡ option_map (λ live. live.target)
            (live_at self.now directory name.now) }
    {
        let (number, _, live) = self.by_name.get_full(&(directory, *name))?;
        let target = (*live)?.target;
        Some(Found {
            target,
            number: number as u64,
        })
    }

    /// Returns the name of that number.
    pub fn name(&self, number: u64) -> Option<(DirId, Name)>
        ensures { result ≡ slice_get (names_of self.now) number }
    {
        let (name, _) = self.by_name.get_index(number as usize)?;
        Some(*name)
    }

    /// Returns the number of the name, which isn't live. A name that was never given gets the next
    /// number.
    #[tactic(auto, using(crate::proofs::Words::nat_tests, crate::proofs::Given::listed_told))]
    pub fn number_or_next(&mut self, directory: DirId, name: Name) -> Result<u64, NoMemory>
        requires { live_at self.old directory name ≡ None }
        ensures number { IfOk result (λ number.
            (number ≡ place_in (names_of self.new) directory name)
            × (number < length (names_of self.new))) }
        ensures places { KeepsPlaces (names_of self.old) (names_of self.new) }
        ensures listed { AreListed self.old → AreListed self.new }
        ensures counted { (rows : List NameRow)
            → AreCounted rows self.old → AreCounted rows self.new }
        ensures numbered { (at : ℕ → Option NameRow)
            → AreNumbered at self.old → AreNumbered at self.new }
    {
        let next = self.by_name.len() as u64;
        let (number, _) = self.by_name.insert_full((directory, name), None)?;
        let number = number as u64;
        if number < next {
            return Ok(number);
        }
        if let Err(refused) = self.in_directory.enter(directory.0, next) {
            self.by_name.pop();
            return Err(refused);
        }
        Ok(next)
    }

    /// Returns the live row of the name.
    pub fn live(&self, directory: DirId, name: &Name) -> Option<Live<Target>>
        ensures { result ≡ live_at self.now directory name.now }
    {
        *self.by_name.get(&(directory, *name))?
    }

    /// Returns the live row of the name of that number.
    pub fn live_of(&self, number: u64) -> Option<Live<Target>>
        requires { number < length (names_of self.now) }
        ensures { (d : ℕ) (n : List ℕ) → place_in (names_of self.now) d n ≡ number
            → result ≡ live_at self.now d n }
    {
        self.by_name[number as usize]
    }

    // Sets the live row of the name of that number.
    fn set(&mut self, number: u64, live: Option<Live<Target>>)
        requires { number < length (names_of self.old) }
        ensures names { names_of self.new ≡ names_of self.old }
        ensures live { (e : ℕ) (m : List ℕ) → place_in (names_of self.old) e m ≡ number
            → (d : ℕ) (n : List ℕ) → live_at self.new d n
            ≡ cond (name_eq (e, m) (d, n)) live (live_at self.old d n) }
        ensures listed { self.new.in_directory ≡ self.old.in_directory }
    {
        self.by_name[number as usize] = live;
    }

    /// Adds a live row with that serial number, for the name of that number.
    #[tactic(auto, using(crate::proofs::Words::nat_tests, crate::proofs::Given::listed_told, crate::proofs::Given::has_names, crate::proofs::Live::live_one, crate::proofs::Live::entered))]
    pub fn enter(&mut self, number: u64, row: &NameRow, serial: u64)
        requires its { number_in (names_of self.old) row.now ≡ number }
        requires known { number < length (names_of self.old) }
        requires listed { AreListed self.old }
        requires live { is_none row.now.death ≡ true }
        requires fits { live_in self.old.in_directory row.now.directory + 1 < 2 ^ 64 }
        ensures names { names_of self.new ≡ names_of self.old }
        ensures listed { AreListed self.new }
        ensures counted { (was now : List NameRow) → Leaves row.now now was
            → AreCounted was self.old → AreCounted now self.new }
        ensures numbered { (at : ℕ → Option NameRow) → at serial ≡ None → AreNumbered at self.old
            → AreNumbered (λ s. cond (is_at (nat_cmp serial) s) (Some row.now) (at s)) self.new }
    {
        let live = Live {
            serial,
            target: row.target,
        };
        self.set(number, Some(live));
        self.in_directory.add(number_of(row.directory));
    }

    /// Removes a row of the name of that number, if it is live. It takes no memory.
    #[tactic(auto, using(crate::proofs::Words::nat_tests, crate::proofs::Apart::named_live, crate::proofs::Live::own_name))]
    pub fn leave(&mut self, number: u64, row: &NameRow)
        requires its { number_in (names_of self.old) row.now ≡ number }
        requires known { number < length (names_of self.old) }
        ensures names { names_of self.new ≡ names_of self.old }
        ensures listed { AreListed self.old → AreListed self.new }
        ensures counted { (was now : List NameRow) → Leaves row.now was now
            → AreCounted was self.old → AreCounted now self.new }
        ensures numbered { (at to : ℕ → Option NameRow) (serial : ℕ) → at serial ≡ Some row.now
            → ((s : ℕ) → is_at (nat_cmp serial) s ≡ false → to s ≡ at s)
            → AreNumbered at self.old → AreNumbered to self.new }
    {
        if row.death.is_none() {
            self.end(number, row.directory);
        }
    }

    /// Removes the live row of the name of that number in the directory. It takes no memory.
    #[tactic(auto, using(crate::proofs::Words::nat_tests, crate::proofs::Given::listed_told, crate::proofs::Apart::named_and_live, crate::proofs::Live::live_one, crate::proofs::Live::left))]
    pub fn end(&mut self, number: u64, directory: DirId)
        requires { number < length (names_of self.old) }
        ensures names { names_of self.new ≡ names_of self.old }
        ensures listed { AreListed self.old → AreListed self.new }
        ensures counted { (row : NameRow) (was now : List NameRow)
            → number_in (names_of self.old) row ≡ number → row.directory ≡ directory
            → is_none row.death ≡ true → Leaves row was now
            → AreCounted was self.old → AreCounted now self.new }
        ensures numbered { (row : NameRow) (at to : ℕ → Option NameRow) (serial : ℕ)
            → number_in (names_of self.old) row ≡ number → at serial ≡ Some row
            → ((s : ℕ) → is_at (nat_cmp serial) s ≡ false → to s ≡ at s)
            → AreNumbered at self.old → AreNumbered to self.new }
    {
        self.set(number, None);
        self.in_directory.take(directory.0);
    }
}

// The number of a directory, under which its count is kept.
fn number_of(directory: DirId) -> u64
    ensures { result ≡ directory }
{
    directory.0
}
