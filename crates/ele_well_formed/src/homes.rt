//! The directories of names: each is there and can be reached, and has one live name at most.
//! A contract sees the part of a world that says so.
ghost use Rattle.std.specs.Prelude.{◌≡◌, ◌↔◌, ◌||◌, ℕ, IfNone, IfSome, IfOk, IsTrue};
ghost use Rattle.std.specs.BTreeSet.{contains};
ghost use Rattle.std.specs.List.{AllByRecursion, filter_map, list_any};
ghost use Rattle.std.specs.Ordering.{nat_cmp};
ghost use Rattle.ele_lists.specs.Keys.{Rises};
ghost use Rattle.ele_lists.specs.Lists.{AllLater};
ghost use Rattle.ele_model.specs.NameRows.{is_live_directory, is_name_of_directory};
ghost use Rattle.ele_model.specs.WellFormed.{AreOthers, IsDirectoryThere, IsHoused, has_directory};
ghost use Rattle.ele_well_formed.specs.Fault.{IsNamed};
ghost use Rattle.ele_well_formed.specs.Means.{directory_in, live_directory};
ghost use Rattle.ele_well_formed.specs.Wrong.{IsMisplaced, IsWrong};

use crate::numbered::row_of;
use crate::sets::set_of;
use crate::test::{Test, first_wrong};
use ele_model::{DirId, DirectoryRow, NameRow, NoMemory, Target};
use std::alloc::Global;
use std::collections::BTreeSet;

/// Returns the directory that the name means, live or dead.
pub fn directory_of(row: &NameRow) -> Option<u64>
    ensures { result ≡ directory_in row.now.target }
{
    match row.target {
        Target::File(_) => None,
        Target::Directory(id) => Some(id.0),
    }
}

/// Returns the directory that the name means, if it is live.
pub fn live_directory_of(row: &NameRow) -> Option<u64>
    ensures { result ≡ live_directory row.now }
{
    if row.death.is_some() {
        return None;
    }
    directory_of(row)
}

// The directories that names mean, live or dead.
fn named_ids(names: &[NameRow], alloc: Global) -> Result<Vec<u64>, NoMemory>
    ensures { IfOk result (λ ids. ids.items ≡ filter_map (λ row. directory_in row.target) names.now) }
{
    Ok(
        names
            .iter()
            .filter_map(|row| directory_of(row))
            .collect(alloc)?,
    )
}

// The directories that have names, live or dead.
fn named_directories(names: &[NameRow], alloc: Global) -> Result<BTreeSet<u64>, NoMemory>
    ensures { IfOk result (λ set. (q : ℕ) → contains nat_cmp set q
        ≡ list_any (is_name_of_directory q) names.now) }
{
    let ids = named_ids(names, alloc)?;
    set_of(&ids, alloc)
}

// The directories that live names mean.
fn live_ids(names: &[NameRow], alloc: Global) -> Result<Vec<u64>, NoMemory>
    ensures { IfOk result (λ ids. ids.items ≡ filter_map live_directory names.now) }
{
    Ok(
        names
            .iter()
            .filter_map(|row| live_directory_of(row))
            .collect(alloc)?,
    )
}

// The directories that have live names.
fn live_directories(names: &[NameRow], alloc: Global) -> Result<BTreeSet<u64>, NoMemory>
    ensures { IfOk result (λ set. (q : ℕ) → contains nat_cmp set q
        ≡ list_any (is_live_directory q) names.now) }
{
    let ids = live_ids(names, alloc)?;
    set_of(&ids, alloc)
}

// Whether the directory is there.
fn has_directory(directories: &[DirectoryRow], id: u64) -> bool
    requires { Rises (λ row. row.id) directories.now }
    ensures { result ≡ has_directory directories.now id }
{
    row_of(directories, id).is_some()
}

// Whether the target's directory is there. A file is another test's.
fn is_directory_there(directories: &[DirectoryRow], target: Target) -> bool
    requires { Rises (λ row. row.id) directories.now }
    ensures { IsTrue result ↔ IsDirectoryThere directories.now target }
{
    match target {
        Target::File(_) => true,
        Target::Directory(id) => has_directory(directories, id.0),
    }
}

// The test of a name's directory, beside all directories and names. `live` has the directories of
// live names.
#[derive(Drop)]
struct HomeTest<'a> {
    directories: &'a [DirectoryRow],
    names: &'a [NameRow],
    live: &'a BTreeSet<u64>,
}

impl<'a> Test<NameRow> for HomeTest<'a> {
    ghost use Rattle.std.specs.Prelude.{◌≡◌, ℕ};
    ghost use Rattle.std.specs.BTreeSet.{contains};
    ghost use Rattle.std.specs.List.{list_any};
    ghost use Rattle.std.specs.Ordering.{nat_cmp};
    ghost use Rattle.ele_lists.specs.Keys.{Rises};
    ghost use Rattle.ele_model.specs.NameRows.{is_live_directory};
    ghost use Rattle.ele_model.specs.WellFormed.{IsHoused};

    ghost ready = { λ test. Rises (λ row. row.id) test.directories.now
        × ((q : ℕ) → contains nat_cmp test.live.now q
        ≡ list_any (is_live_directory q) test.names.now) };

    ghost fits = { λ test row. IsHoused test.directories.now test.names.now row };

    fn fits(&self, row: &NameRow) -> bool {
        let reached = row.death.is_some()
            || row.directory == DirId(0)
            || self.live.contains(&row.directory.0);
        reached
            && has_directory(self.directories, row.directory.0)
            && is_directory_there(self.directories, row.target)
    }
}

/// Returns the place of a name whose directory isn't there or can't be reached, or that means a
/// directory that isn't there.
///
/// `NoMemory` if memory is refused.
pub fn wrong_home(
    directories: &[DirectoryRow],
    names: &[NameRow],
    alloc: Global,
) -> Result<Option<usize>, NoMemory>
    requires { Rises (λ row. row.id) directories.now }
    ensures none { IfOk result (λ found. IfNone found
        (AllByRecursion (IsHoused directories.now names.now) names.now)) }
    ensures some { IfOk result (λ found. IfSome found
        (IsWrong (IsHoused directories.now names.now) names.now)) }
{
    let live = live_directories(names, alloc)?;
    let test = HomeTest {
        directories,
        names,
        live: &live,
    };
    Ok(first_wrong(names, &test))
}

// The test that a directory has a name, beside all names. `named` has the directories of names.
#[derive(Drop)]
struct NamedTest<'a> {
    names: &'a [NameRow],
    named: &'a BTreeSet<u64>,
}

impl<'a> Test<DirectoryRow> for NamedTest<'a> {
    ghost use Rattle.std.specs.Prelude.{◌≡◌, ℕ};
    ghost use Rattle.std.specs.BTreeSet.{contains};
    ghost use Rattle.std.specs.List.{list_any};
    ghost use Rattle.std.specs.Ordering.{nat_cmp};
    ghost use Rattle.ele_model.specs.NameRows.{is_name_of_directory};
    ghost use Rattle.ele_well_formed.specs.Fault.{IsNamed};

    ghost ready = { λ test. (q : ℕ) → contains nat_cmp test.named.now q
        ≡ list_any (is_name_of_directory q) test.names.now };

    ghost fits = { λ test row. IsNamed test.names.now row };

    fn fits(&self, row: &DirectoryRow) -> bool {
        row.id == DirId(0) || self.named.contains(&row.id.0)
    }
}

/// Returns the place of a directory without a name.
///
/// `NoMemory` if memory is refused.
pub fn nameless_directory(
    directories: &[DirectoryRow],
    names: &[NameRow],
    alloc: Global,
) -> Result<Option<usize>, NoMemory>
    ensures none { IfOk result (λ found. IfNone found
        (AllByRecursion (IsNamed names.now) directories.now)) }
    ensures some { IfOk result (λ found. IfSome found
        (IsWrong (IsNamed names.now) directories.now)) }
{
    let named = named_directories(names, alloc)?;
    let test = NamedTest {
        names,
        named: &named,
    };
    Ok(first_wrong(directories, &test))
}

/// Returns the place of a live name of a directory that an earlier live name means.
///
/// `NoMemory` if memory is refused.
pub fn second_name(names: &[NameRow], alloc: Global) -> Result<Option<usize>, NoMemory>
    ensures none { IfOk result (λ found. IfNone found (AllLater AreOthers names.now)) }
    ensures some { IfOk result (λ found. IfSome found (IsMisplaced AreOthers names.now)) }
{
    let mut seen = BTreeSet::new(alloc);
    for at in 0..names.len() {
        if let Some(id) = live_directory_of(&names[at]) {
            if !seen.insert(id)? {
                return Ok(Some(at));
            }
        }
    }
    Ok(None)
}
