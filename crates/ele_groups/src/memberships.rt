//! The groups that have each file, by name.
//! A contract sees which names each file has.
ghost use Rattle.std.specs.Prelude.{◌≡◌, ◌==◌, ◌∷◌, ◌++◌, ◌&&◌, ◌||◌, not, ℕ, List, [], false, filter, OnOk, OnErr};
ghost use Rattle.std.specs.List.{list_any};
ghost use Rattle.std.specs.Str.{bytes_eq};
ghost use Rattle.ele_groups.specs.Members.{has, memberships_of};

use ele_moment::{FileId, Name, NoMemory};
use std::alloc::Global;
use std::collections::HashMap;

/// A group that has a file: its name, and its place when it got the file. The place changes only
/// after an earlier group was dropped.
#[derive(Clone, Copy)]
pub struct Membership {
    pub name: Name,
    pub place: usize,
}

/// The groups that have each file. A file in no group has no entry.
#[derive(Drop)]
pub struct Memberships {
    by_file: HashMap<FileId, Vec<Membership>>,
    alloc: Global,
}

impl Memberships {
    /// Makes an empty list. It takes no memory.
    pub fn new(alloc: Global) -> Memberships
        ensures { (q : ℕ) (n : List ℕ) → has result q n ≡ false }
    {
        Memberships {
            by_file: HashMap::new(alloc),
            alloc,
        }
    }

    /// Returns the file's groups.
    pub fn of(&self, file: FileId) -> &[Membership]
        ensures { result.now ≡ memberships_of self.now file }
    {
        match self.by_file.get(&file) {
            Some(memberships) => memberships,
            None => &[],
        }
    }

    /// Returns whether the file is in the group of that name.
    pub fn has(&self, file: FileId, name: &Name) -> bool
        ensures { result ≡ has self.now file name.now }
    {
        self.of(file)
            .iter()
            .any(|membership| membership.name == *name)
    }

    /// Adds a group to the file's. `NoMemory` if memory is refused; the file then has the groups
    /// that it had.
    pub fn insert(&mut self, file: FileId, membership: Membership) -> Result<(), NoMemory>
        ensures ok { OnOk result ((q : ℕ) (n : List ℕ) → has self.new q n
            ≡ (has self.old q n || (file == q && bytes_eq membership.name n))) }
        ensures err { OnErr result ((q : ℕ) (n : List ℕ) → has self.new q n ≡ has self.old q n) }
    {
        match self.by_file.get_mut(&file) {
            Some(memberships) => add_to(memberships, membership),
            None => {
                let memberships = vec![in self.alloc; membership]?;
                self.by_file.insert(file, memberships)?;
                Ok(())
            }
        }
    }

    /// Adds a group to the groups of each of the files. `NoMemory` if memory is refused; some of
    /// the files may then have it.
    pub fn enter(&mut self, files: &[FileId], membership: &Membership) -> Result<(), NoMemory>
        ensures { OnOk result ((q : ℕ) (n : List ℕ) → has self.new q n ≡ (has self.old q n
            || (bytes_eq membership.now.name n && list_any (λ file. file == q) files.now))) }
    {
        for file in files {
            self.insert(*file, *membership)?;
        }
        Ok(())
    }

    /// Removes the name from the file's groups, if it is there. It takes no memory.
    pub fn remove(&mut self, file: FileId, name: &Name)
        ensures { (q : ℕ) (n : List ℕ) → has self.new q n
            ≡ (has self.old q n && not (file == q && bytes_eq name.now n)) }
    {
        if let Some(memberships) = self.by_file.get_mut(&file) {
            take_from(memberships, name);
            if memberships.is_empty() {
                self.by_file.remove(&file);
            }
        }
    }

    /// Removes the name from the groups of each of the files. It takes no memory.
    pub fn leave(&mut self, files: &[FileId], name: &Name)
        ensures { (q : ℕ) (n : List ℕ) → has self.new q n ≡ (has self.old q n
            && not (bytes_eq name.now n && list_any (λ file. file == q) files.now)) }
    {
        for file in files {
            self.remove(*file, name);
        }
    }
}

// Adds the group at the end. The list reserves no spare memory, since most files are in few groups.
fn add_to(memberships: &mut Vec<Membership>, membership: Membership) -> Result<(), NoMemory>
    ensures ok { OnOk result
        (memberships.new.items ≡ memberships.old.items ++ membership ∷ []) }
    ensures err { OnErr result (memberships.new.items ≡ memberships.old.items) }
{
    memberships.reserve_exact(1)?;
    memberships.push_reserved(membership);
    Ok(())
}

// Removes the group of that name.
fn take_from(memberships: &mut Vec<Membership>, name: &Name)
    ensures { memberships.new.items
        ≡ filter (λ other. not (bytes_eq other.name name.now)) memberships.old.items }
{
    memberships.retain(|other| other.name != *name);
}
