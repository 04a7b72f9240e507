//! The place of each row, by the number of its name and among the rows of its file. Also the number
//! of live rows of each file and directory. A contract sees a row for each serial number that has a
//! place, and the counts.
ghost use Rattle.std.specs.Prelude.{◌≡◌, ◌≤◌, ◌<◌, ◌+◌, ◌-◌, ◌^◌, ℕ, List, Option, cond, Some, None, OnOk, OnErr, false, true, is_none};
ghost use Rattle.std.specs.Ordering.{nat_cmp};
ghost use Rattle.std.specs.BTreeMap.{is_at};
ghost use Rattle.ele_moment.specs.Last.{last_moment};
ghost use Rattle.ele_model.specs.declared.rows.NameRow.{NameRow};
ghost use Rattle.ele_model.specs.declared.rows.Target.{Target};
ghost use Rattle.ele_names.specs.Chained.{AreChained, is_member};
ghost use Rattle.ele_names.specs.Placed.{AreIndexed, is_of, live_of, number_in};
ghost use Rattle.ele_names.specs.Targets.{is_live_of, target_eq};

use crate::birth_index::BirthIndex;
use crate::row_lists::RowLists;
use ele_model::{NameRow, Target};
use ele_moment::{DirId, NoMemory};
use ele_rows::Tally;
use std::alloc::Global;

/// The rows of each name by birth, and those of each file from the newest back with a count of the
/// live ones. Also the count of live rows of each directory.
#[derive(Drop)]
pub struct Places {
    pub by_name: BirthIndex,
    pub of_file: RowLists,
    pub of_directory: Tally<DirId>,
}

impl Places {
    /// Makes an index without rows.
    #[tactic(auto, using(crate::proofs::Added::live_none))]
    pub fn new(alloc: Global) -> Places
        ensures placed { (names : List (ℕ × List ℕ)) → AreIndexed names (λ _. None) result }
        ensures live { (t : Target) → live_of result t ≡ 0 }
    {
        Places {
            by_name: BirthIndex::new(alloc),
            of_file: RowLists::new(alloc),
            of_directory: Tally::new(alloc),
        }
    }

    /// Returns how many live rows the target has.
    pub fn live(&self, target: Target) -> u64
        ensures { result ≡ live_of self.now target }
    {
        match target {
            Target::File(file) => self.of_file.live(file.0),
            Target::Directory(directory) => self.of_directory.count(directory),
        }
    }

    /// Adds a live row, newer than all others, at its places by the number of its name, and counts
    /// it. `NoMemory` if memory is refused; the row then has no place.
    #[tactic(auto, using(crate::proofs::Words::nat_tests, crate::proofs::Indexed::births_same, crate::proofs::Indexed::births_undo))]
    pub fn enter(&mut self, number: u64, row: &NameRow, serial: u64) -> Result<(), NoMemory>
        requires { live_of self.old row.now.target + 1 < 2 ^ 64 }
        ensures ok { OnOk result ((names : List (ℕ × List ℕ)) (at : ℕ → Option NameRow)
            → number_in names row.now ≡ number → ((s : ℕ) → serial ≤ s → at s ≡ None)
            → AreIndexed names at self.old
            → AreIndexed names (λ s. cond (is_at (nat_cmp serial) s) (Some row.now) (at s))
            self.new) }
        ensures err { OnErr result ((names : List (ℕ × List ℕ)) (at : ℕ → Option NameRow)
            → number_in names row.now ≡ number → ((s : ℕ) → serial ≤ s → at s ≡ None)
            → AreIndexed names at self.old
            → AreIndexed names at self.new) }
        ensures born { row.now.birth ≤ last_moment }
        ensures counted { OnOk result ((t : Target) → live_of self.new t
            ≡ live_of self.old t + cond (target_eq row.now.target t) 1 0) }
        ensures same { OnErr result ((t : Target) → live_of self.new t ≡ live_of self.old t) }
    {
        let birth = birth_of(row);
        self.by_name.insert(number, birth, serial)?;
        if let Err(refused) = self.enter_target(row.target, serial) {
            self.by_name.remove(number, birth, serial);
            return Err(refused);
        }
        Ok(())
    }

    // Adds a live row of the target to those of its file as the newest, and counts it.
    #[tactic(auto, using(crate::proofs::Words::nat_tests, crate::proofs::Chained::chained_kept))]
    fn enter_target(&mut self, target: Target, serial: u64) -> Result<(), NoMemory>
        requires { live_of self.old target + 1 < 2 ^ 64 }
        ensures named { self.new.by_name ≡ self.old.by_name }
        ensures ok { OnOk result ((at : ℕ → Option NameRow) (row : NameRow)
            → row.target ≡ target → ((s : ℕ) → serial ≤ s → at s ≡ None)
            → AreChained is_of at self.old.of_file
            → AreChained is_of (λ s. cond (is_at (nat_cmp serial) s) (Some row) (at s))
            self.new.of_file) }
        ensures err { OnErr result ((at : ℕ → Option NameRow)
            → ((s : ℕ) → serial ≤ s → at s ≡ None)
            → AreChained is_of at self.old.of_file → AreChained is_of at self.new.of_file) }
        ensures counted { OnOk result ((t : Target) → live_of self.new t
            ≡ live_of self.old t + cond (target_eq target t) 1 0) }
        ensures same { OnErr result ((t : Target) → live_of self.new t ≡ live_of self.old t) }
    {
        match target {
            Target::File(file) => {
                self.of_file.enter(file.0, serial)?;
                self.of_file.add(file.0);
            }
            Target::Directory(directory) => {
                self.of_directory.reserve()?;
                self.of_directory.add(directory);
            }
        }
        Ok(())
    }

    /// Removes the newest row of its target from its places and from the count.
    pub fn leave(&mut self, number: u64, row: &NameRow, serial: u64)
        ensures placed { (names : List (ℕ × List ℕ)) (at : ℕ → Option NameRow)
            → number_in names row.now ≡ number → at serial ≡ Some row.now
            → ((f s : ℕ) → is_of f row.now ≡ true → serial < s → is_member is_of at f s ≡ false)
            → AreIndexed names at self.old
            → AreIndexed names (λ s. cond (is_at (nat_cmp serial) s) None (at s)) self.new }
        ensures live { (t : Target) → live_of self.new t
            ≡ live_of self.old t - cond (is_live_of t row.now) 1 0 }
    {
        self.by_name.remove(number, birth_of(row), serial);
        self.leave_file(row.target, serial);
        if row.death.is_none() {
            self.end(row.target);
        }
    }

    // Removes the target's newest row from those of its file, if the target is a file.
    fn leave_file(&mut self, target: Target, serial: u64)
        ensures named { self.new.by_name ≡ self.old.by_name }
        ensures chained { (at : ℕ → Option NameRow) (row : NameRow)
            → row.target ≡ target → at serial ≡ Some row
            → ((f s : ℕ) → is_of f row ≡ true → serial < s → is_member is_of at f s ≡ false)
            → AreChained is_of at self.old.of_file
            → AreChained is_of (λ s. cond (is_at (nat_cmp serial) s) None (at s)) self.new.of_file }
        ensures live { (t : Target) → live_of self.new t ≡ live_of self.old t }
    {
        if let Target::File(file) = target {
            self.of_file.leave(file.0, serial);
        }
    }

    /// Takes one from the count of the target's live rows.
    pub fn end(&mut self, target: Target)
        ensures named { self.new.by_name ≡ self.old.by_name }
        ensures chained { (at : ℕ → Option NameRow)
            → AreChained is_of at self.old.of_file → AreChained is_of at self.new.of_file }
        ensures live { (t : Target) → live_of self.new t
            ≡ live_of self.old t - cond (target_eq target t) 1 0 }
    {
        match target {
            Target::File(file) => self.of_file.take(file.0),
            Target::Directory(directory) => self.of_directory.take(directory),
        }
    }
}

// The seconds of the row's birth.
fn birth_of(row: &NameRow) -> u64
    ensures value { result ≡ row.now.birth }
    ensures bound { result ≤ last_moment }
{
    row.birth.seconds()
}
