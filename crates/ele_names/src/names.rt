//! All name rows.
//! A contract sees them as their list in order of making.
ghost use Rattle.std.specs.Prelude.{◌≡◌, ℕ, ◌+◌, ◌≤◌, ◌<◌, ◌^◌, ◌++◌, ◌∷◌, [], List, Some, None, true, false, not, map, filter, is_none, is_some, length, slice_get, IsTrue, IsSome, IfSome, IfNone, IfOk, OnOk, OnErr};
ghost use Rattle.std.specs.BTreeMap.{is_at, insert_entry};
ghost use Rattle.std.specs.Cmp.Lexicographic.{slice_cmp};
ghost use Rattle.std.specs.List.{IsDistinct, count_by, list_any, AllByRecursion};
ghost use Rattle.std.specs.List.Sorted.{IsStrictlySortedBy};
ghost use Rattle.std.specs.Map.{keys_of, lookup};
ghost use Rattle.std.specs.Option.{option_map, option_map_or};
ghost use Rattle.std.specs.Ordering.{eq_by_cmp, nat_cmp};
ghost use Rattle.ele_lists.specs.Last.{last_passing};
ghost use Rattle.ele_lists.specs.Lists.{AllLater, update_first};
ghost use Rattle.ele_moment.specs.Last.{last_moment};
ghost use Rattle.ele_model.specs.NameRows.{is_named, target_at, last_dead, is_live_in, is_live_directory};
ghost use Rattle.ele_model.specs.Walk.{is_live_name, live_target};
ghost use Rattle.ele_model.specs.World.{is_live_name_of, is_target_file};
ghost use Rattle.ele_names.specs.Kept.{IsKept, is_born_by, rows_of};
ghost use Rattle.ele_names.specs.Listed.{by_name, name_cmp};
ghost use Rattle.ele_names.specs.Placed.{is_of};
ghost use Rattle.ele_names.specs.Rows.{born_row, dies, Follows};

use crate::found::Found;
use crate::live_names::{Live, LiveNames};
use crate::table::{Table, lives_past};
use ele_model::{NameRow, Target};
use ele_moment::{DirId, FileId, Moment, Name, NoMemory};
use std::alloc::Global;
use std::cmp::Ordering;
use std::collections::BTreeMap;
use std::marker::Model;

// A hint that is never right: no name has this number.
const NO_HINT: u64 = u64::MAX;

/// All name rows, each with a serial number in order of making.
#[derive(Drop)]
pub struct Names {
    table: Table,
    live_names: LiveNames,
    alloc: Global,
}

impl Model for Names {
    ghost use Rattle.std.specs.Prelude.{List};
    ghost use Rattle.ele_names.specs.Kept.{IsKept, rows_of};
    ghost use Rattle.ele_model.specs.declared.rows.NameRow.{NameRow};

    ghost Value = { List NameRow };

    ghost view = { λ names. rows_of names.table };

    ghost invariant = { λ names. IsKept names.table names.live_names };
}

impl Names {
    /// Makes an empty list of names. It takes no memory; later calls take theirs from `alloc`.
    pub fn new(alloc: Global) -> Names
        ensures { result ≡ [] }
    {
        Names {
            table: Table::new(alloc),
            live_names: LiveNames::new(alloc),
            alloc,
        }
    }

    /// Makes a live name. The caller knows that the directory has no such live name, and that
    /// earlier rows of the name have ended. `NoMemory` if memory is refused; the rows are as they
    /// were.
    pub fn add(
        &mut self,
        directory: DirId,
        name: Name,
        target: Target,
        birth: Moment,
    ) -> Result<(), NoMemory>
        requires { AllByRecursion
            (λ row. Follows row (born_row directory name target birth)) self.old }
        ensures ok { OnOk result
            (self.new ≡ self.old ++ born_row directory name target birth ∷ []) }
        ensures err { OnErr result (self.new ≡ self.old) }
    {
        let row = NameRow {
            directory,
            name,
            target,
            birth,
            death: None,
        };
        let number = self.live_names.number_or_next(directory, name)?;
        let serial = self.table.rows.next_serial();
        self.table.places.enter(number, &row, serial)?;
        if let Err(refused) = self.table.rows.push(row) {
            self.table.places.leave(number, &row, serial);
            return Err(refused);
        }
        self.live_names.enter(number, &row, serial);
        Ok(())
    }

    /// Removes the last row in order of making: just after `add`, the row that it made. It takes no
    /// memory.
    #[tactic(auto, using(crate::proofs::Words::nat_tests, crate::proofs::Gone::last_gone))]
    pub fn take_back(&mut self)
        requires { 0 < length self.old }
        ensures { (rows : List NameRow) (newest : NameRow)
            → self.old ≡ rows ++ newest ∷ [] → self.new ≡ rows }
    {
        let Some((serial, row)) = self.table.rows.pop() else {
            unreachable!()
        };
        let Some(number) = self.live_names.number(row.directory, &row.name) else {
            unreachable!()
        };
        self.table.places.leave(number, &row, serial);
        self.live_names.leave(number, &row);
    }

    /// Ends the live name at the moment: its row gets that death, and no other row changes. It
    /// takes no memory.
    pub fn kill(&mut self, directory: DirId, name: &Name, moment: Moment)
        requires { IsSome (live_target self.old directory name.now) }
        ensures { self.new
            ≡ update_first (is_live_name directory name.now) (dies moment) self.old }
    {
        let Some(found) = self.find(directory, name) else {
            unreachable!()
        };
        self.kill_found(directory, name, &found, moment);
    }

    /// Ends a live name that was found before, which saves a look-up. It takes no memory.
    #[tactic(auto, using(crate::proofs::Words::nat_tests, crate::proofs::Gone::found_known))]
    pub fn kill_found(&mut self, directory: DirId, name: &Name, found: &Found, moment: Moment)
        requires { IsSome (live_target self.old directory name.now) }
        ensures { self.new
            ≡ update_first (is_live_name directory name.now) (dies moment) self.old }
    {
        let Some(number) = self.live_names.number_by(found.number, directory, name) else {
            unreachable!()
        };
        let Some(live) = self.live_names.live_of(number) else {
            unreachable!()
        };
        self.table.rows.end(live.serial, moment);
        self.table.places.end(live.target);
        self.live_names.end(number, directory);
    }

    /// Removes all rows of the file, also live ones. It takes no memory.
    pub fn drop_file(&mut self, file: FileId)
        ensures { self.new
            ≡ filter (λ row. not (is_target_file file row.target)) self.old }
    {
        while self.drop_one(file) {}
    }

    // Removes one row of the file, if there is one, and returns whether there was.
    #[tactic(auto, using(crate::proofs::Words::nat_tests, crate::proofs::Gone::fewer, crate::proofs::Apart::row_known))]
    fn drop_one(&mut self, file: FileId) -> bool
        ensures others { filter (λ row. not (is_of file row)) self.new
            ≡ filter (λ row. not (is_of file row)) self.old }
        ensures fewer { IsTrue result → length self.new < length self.old }
        ensures none { result ≡ false → filter (λ row. not (is_of file row)) self.new ≡ self.new }
    {
        let Some(serial) = self.table.places.of_file.newest(file.0) else {
            return false;
        };
        let Some(row) = self.table.rows.take(serial) else {
            unreachable!()
        };
        let Some(number) = self.live_names.number(row.directory, &row.name) else {
            unreachable!()
        };
        self.table.places.leave(number, &row, serial);
        self.live_names.leave(number, &row);
        true
    }

    /// Returns the target of the live name.
    pub fn live(&self, directory: DirId, name: &Name) -> Option<Target>
        ensures { result ≡ live_target self.now directory name.now }
    {
        target_of(self.live_names.live(directory, name))
    }

    /// Returns the live name's target and number, for a change of the name.
    pub fn find(&self, directory: DirId, name: &Name) -> Option<Found>
        ensures { result ≡ live_target self.now directory name.now }
    {
        self.live_names.find(directory, name)
    }

    /// Returns the target of the name's newest row, if that row is dead. The name is not live then.
    pub fn last_dead(&self, directory: DirId, name: &Name) -> Option<Target>
        ensures value { result ≡ last_dead self.now directory name.now }
        ensures free { IfSome result (λ _. live_target self.now directory name.now ≡ None) }
    {
        self.last_dead_by(NO_HINT, directory, name)
    }

    // Does the same with a hint of the name's number.
    #[tactic(auto, using(crate::proofs::Words::nat_tests, crate::proofs::Apart::dead_by_newest))]
    fn last_dead_by(&self, hint: u64, directory: DirId, name: &Name) -> Option<Target>
        ensures value { result ≡ last_dead self.now directory name.now }
        ensures free { IfSome result (λ _. live_target self.now directory name.now ≡ None) }
    {
        let row = self.newest(hint, directory, name)?;
        if row.death.is_some() {
            Some(row.target)
        } else {
            None
        }
    }

    // The newest row of the name.
    #[tactic(auto, using(crate::proofs::Apart::born_by_end))]
    fn newest(&self, hint: u64, directory: DirId, name: &Name) -> Option<NameRow>
        ensures newest { result ≡ last_passing (is_named directory name.now) self.now }
        ensures apart { AllLater Follows self.now }
    {
        self.newest_by(hint, directory, name, u64::MAX)
    }

    // The newest row of the name that was born by that many seconds.
    #[tactic(auto, using(crate::proofs::Apart::none_known, crate::proofs::Apart::newest))]
    fn newest_by(&self, hint: u64, directory: DirId, name: &Name, seconds: u64) -> Option<NameRow>
        ensures newest { result
            ≡ last_passing (is_born_by directory name.now seconds) self.now }
        ensures apart { AllLater Follows self.now }
        ensures born { AllByRecursion (λ row. row.birth ≤ last_moment) self.now }
    {
        let number = self.live_names.number_by(hint, directory, name)?;
        let (_, serial) = self.table.places.by_name.last(number, seconds)?;
        self.table.rows.get(serial).copied()
    }

    /// Returns the target that the name had at the moment.
    pub fn at(&self, directory: DirId, name: &Name, moment: Moment) -> Option<Target>
        ensures { result ≡ target_at self.now moment directory name.now }
    {
        self.at_by(NO_HINT, directory, name, moment)
    }

    // Does the same with a hint of the name's number.
    #[tactic(auto, using(crate::proofs::Apart::covering_is_newest))]
    fn at_by(&self, hint: u64, directory: DirId, name: &Name, moment: Moment) -> Option<Target>
        ensures { result ≡ target_at self.now moment directory name.now }
    {
        let row = self.newest_by(hint, directory, name, moment.seconds())?;
        if lives_past(&row, moment) {
            Some(row.target)
        } else {
            None
        }
    }

    /// Returns the directory's names at the moment with their targets, by their bytes.
    pub fn list(&self, directory: DirId, moment: Moment) -> Result<Vec<(Name, Target)>, NoMemory>
        ensures sorted { IfOk result
            (λ items. IsStrictlySortedBy (slice_cmp nat_cmp) (keys_of items.items)) }
        ensures found { IfOk result (λ items. (name : List ℕ)
            → lookup (is_at (slice_cmp nat_cmp name)) items.items
            ≡ target_at self.now moment directory name) }
    {
        let mut found = BTreeMap::new(self.alloc);
        let mut next = self.live_names.in_directory.newest(directory.0);
        while let Some(number) = next {
            let Some(name) = self.live_names.name(number) else {
                unreachable!()
            };
            let target = self.at_by(number, directory, &name.1, moment);
            put_some(&mut found, name.1, target)?;
            next = self.live_names.in_directory.older(number);
        }
        Ok(found.into_iter().collect(self.alloc)?)
    }

    /// Returns the names whose newest row is dead, with that row's target, by directory and bytes.
    pub fn dead(&self) -> Result<Vec<(DirId, Name, Target)>, NoMemory>
        ensures sorted { IfOk result
            (λ items. IsStrictlySortedBy name_cmp (keys_of (map by_name items.items))) }
        ensures found { IfOk result (λ items. (directory : ℕ) (name : List ℕ)
            → lookup (is_at (name_cmp (directory, name))) (map by_name items.items)
            ≡ last_dead self.now directory name) }
    {
        let mut found = self.dead_unsorted()?;
        sort_by_name(&mut found);
        Ok(found)
    }

    // Returns the same names in any order.
    fn dead_unsorted(&self) -> Result<Vec<(DirId, Name, Target)>, NoMemory>
        ensures apart { IfOk result
            (λ items. IsDistinct (eq_by_cmp name_cmp) (keys_of (map by_name items.items))) }
        ensures found { IfOk result (λ items. (directory : ℕ) (name : List ℕ)
            → lookup (is_at (name_cmp (directory, name))) (map by_name items.items)
            ≡ last_dead self.now directory name) }
    {
        let mut found = Vec::new(self.alloc);
        // The names are numbered from 0.
        let mut number: u64 = 0;
        for (directory, name) in self.live_names.by_name.keys() {
            let target = self.last_dead_by(number, *directory, name);
            push_some(&mut found, *directory, name, target)?;
            number = number.wrapping_add(1);
        }
        Ok(found)
    }

    /// Returns whether the directory has no live name.
    #[tactic(auto, using(crate::proofs::Live::none_counted, crate::proofs::Words::is_live_in, crate::proofs::Words::rows_of))]
    pub fn is_empty(&self, directory: DirId) -> bool
        ensures { result ≡ not (list_any (is_live_in directory) self.now) }
    {
        self.live_names.in_directory.live(directory.0) == 0
    }

    /// Returns whether the directory itself has a live name.
    #[tactic(auto, using(crate::proofs::Words::any_count, crate::proofs::Live::directory_names))]
    pub fn dir_live(&self, directory: DirId) -> bool
        ensures { result ≡ list_any (is_live_directory directory) self.now }
    {
        self.table.places.live(Target::Directory(directory)) > 0
    }

    /// Returns whether the file has a live name.
    #[tactic(auto, using(crate::proofs::Words::any_count, crate::proofs::Words::is_live_name_of))]
    pub fn is_live(&self, file: FileId) -> bool
        ensures { result ≡ list_any (is_live_name_of file) self.now }
    {
        self.names_of(file) > 0
    }

    /// Returns how many live names the file has.
    #[tactic(auto, using(crate::proofs::Live::file_names))]
    pub fn names_of(&self, file: FileId) -> u64
        ensures { result ≡ count_by (is_live_name_of file) self.now }
    {
        self.table.places.live(Target::File(file))
    }

    /// Returns the row at that place in order of making. It passes over the rows before it.
    pub fn row(&self, place: usize) -> Option<NameRow>
        ensures { result ≡ slice_get self.now place }
    {
        self.table.rows.nth(place)
    }

    /// Returns a copy of all rows, in order of making.
    pub fn rows(&self) -> Result<Vec<NameRow>, NoMemory>
        ensures { IfOk result (λ rows. rows.items ≡ self.now) }
    {
        self.table.rows.rows(self.alloc)
    }
}

// The target of the live row.
fn target_of(found: Option<Live<Target>>) -> Option<Target>
    ensures { result ≡ option_map (λ live. live.target) found }
{
    match found {
        Some(live) => Some(live.target),
        None => None,
    }
}

// Adds the target under the key, if there is one.
fn put_some<K: Ord + Drop>(
    found: &mut BTreeMap<K, Target>,
    key: K,
    target: Option<Target>,
) -> Result<(), NoMemory>
    ensures { OnOk result (found.new.entries
        ≡ option_map_or (insert_entry K.cmp found.old.entries key) target found.old.entries) }
{
    if let Some(target) = target {
        let _was = found.insert(key, target)?;
    }
    Ok(())
}

// Adds the name with the target, if there is one.
fn push_some(
    found: &mut Vec<(DirId, Name, Target)>,
    directory: DirId,
    name: &Name,
    target: Option<Target>,
) -> Result<(), NoMemory>
    ensures { OnOk result (found.new.items ≡ option_map_or
        (λ target. found.old.items ++ (directory, name.now, target) ∷ []) target found.old.items) }
{
    if let Some(target) = target {
        found.push((directory, *name, target))?;
    }
    Ok(())
}

// Sorts names, each of which is there once.
fn sort_by_name(found: &mut Vec<(DirId, Name, Target)>)
    requires { IsDistinct (eq_by_cmp name_cmp) (keys_of (map by_name found.old.items)) }
    ensures sorted { IsStrictlySortedBy name_cmp (keys_of (map by_name found.new.items)) }
    ensures found { (directory : ℕ) (name : List ℕ)
        → lookup (is_at (name_cmp (directory, name))) (map by_name found.new.items)
        ≡ lookup (is_at (name_cmp (directory, name))) (map by_name found.old.items) }
{
    found.sort_unstable_by(|one, other| by_directory(one, other));
}

// The order of two names, by directory and then by their bytes.
fn by_directory(one: &(DirId, Name, Target), other: &(DirId, Name, Target)) -> Ordering
    ensures { result ≡ name_cmp (one.now.0, one.now.1) (other.now.0, other.now.1) }
{
    match one.0.cmp(&other.0) {
        Ordering::Equal => one.1.cmp(&other.1),
        order => order,
    }
}
