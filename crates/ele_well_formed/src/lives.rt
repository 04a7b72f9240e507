//! What ties files to names and contents: a live file's current version, the ends of others, and no
//! idle file. A contract sees the parts of a world that say so.
ghost use Rattle.std.specs.Prelude.{◌≡◌, ℕ, false, IfNone, IfSome, IfOk, map};
ghost use Rattle.std.specs.BTreeSet.{contains};
ghost use Rattle.std.specs.List.{AllByRecursion, filter_map, list_any};
ghost use Rattle.std.specs.Ordering.{nat_cmp};
ghost use Rattle.ele_lists.specs.Keys.{Rises};
ghost use Rattle.ele_model.specs.Change.{is_idle};
ghost use Rattle.ele_model.specs.FileView.{is_version_of};
ghost use Rattle.ele_model.specs.NoIdleStays.{HasNoIdle};
ghost use Rattle.ele_model.specs.WellFormed.{HaveCurrent, IsOfLive};
ghost use Rattle.ele_model.specs.World.{is_live_name_of};
ghost use Rattle.ele_well_formed.specs.Fault.{HasContents, HasCurrent};
ghost use Rattle.ele_well_formed.specs.Means.{endless, is_endless, live_file};
ghost use Rattle.ele_well_formed.specs.Wrong.{IsWrong};

use crate::drafts::has_draft;
use crate::sets::set_of;
use crate::test::{Test, first_wrong};
use ele_model::{FileRow, Flat, NameRow, NoMemory, Target, VersionRow};
use std::alloc::Global;
use std::collections::BTreeSet;

// The file that the name means, if it is live.
fn live_file_of(row: &NameRow) -> Option<u64>
    ensures { result ≡ live_file row.now }
{
    if row.death.is_some() {
        return None;
    }
    match row.target {
        Target::File(id) => Some(id.0),
        Target::Directory(_) => None,
    }
}

// The version's file, if the version has no end.
fn endless_file_of(row: &VersionRow) -> Option<u64>
    ensures { result ≡ endless row.now }
{
    if row.ended.is_some() {
        return None;
    }
    Some(row.file.0)
}

// The files that live names mean.
fn live_ids(names: &[NameRow], alloc: Global) -> Result<Vec<u64>, NoMemory>
    ensures { IfOk result (λ ids. ids.items ≡ filter_map live_file names.now) }
{
    Ok(
        names
            .iter()
            .filter_map(|row| live_file_of(row))
            .collect(alloc)?,
    )
}

/// Returns the files that have live names.
///
/// `NoMemory` if memory is refused.
pub fn live_files(names: &[NameRow], alloc: Global) -> Result<BTreeSet<u64>, NoMemory>
    ensures { IfOk result (λ set. (q : ℕ) → contains nat_cmp set q
        ≡ list_any (is_live_name_of q) names.now) }
{
    let ids = live_ids(names, alloc)?;
    set_of(&ids, alloc)
}

// The files of versions without an end.
fn endless_ids(versions: &[VersionRow], alloc: Global) -> Result<Vec<u64>, NoMemory>
    ensures { IfOk result (λ ids. ids.items ≡ filter_map endless versions.now) }
{
    Ok(
        versions
            .iter()
            .filter_map(|row| endless_file_of(row))
            .collect(alloc)?,
    )
}

// The files that have a version without an end.
fn endless_files(versions: &[VersionRow], alloc: Global) -> Result<BTreeSet<u64>, NoMemory>
    ensures { IfOk result (λ set. (q : ℕ) → contains nat_cmp set q
        ≡ list_any (is_endless q) versions.now) }
{
    let ids = endless_ids(versions, alloc)?;
    set_of(&ids, alloc)
}

// The files of versions.
fn held_ids(versions: &[VersionRow], alloc: Global) -> Result<Vec<u64>, NoMemory>
    ensures { IfOk result (λ ids. ids.items ≡ map (λ row. row.file) versions.now) }
{
    Ok(versions.iter().map(|row| row.file.0).collect(alloc)?)
}

// The files that have a version.
fn held_files(versions: &[VersionRow], alloc: Global) -> Result<BTreeSet<u64>, NoMemory>
    ensures { IfOk result (λ set. (q : ℕ) → contains nat_cmp set q
        ≡ list_any (is_version_of q) versions.now) }
{
    let ids = held_ids(versions, alloc)?;
    set_of(&ids, alloc)
}

// The test that a live file has a current version, beside the world. `live` has the live files,
// `endless` those with a version without an end.
#[derive(Drop)]
struct CurrentTest<'a> {
    flat: &'a Flat,
    live: &'a BTreeSet<u64>,
    endless: &'a BTreeSet<u64>,
}

impl<'a> Test<FileRow> for CurrentTest<'a> {
    ghost use Rattle.std.specs.Prelude.{◌≡◌, ℕ};
    ghost use Rattle.std.specs.BTreeSet.{contains};
    ghost use Rattle.std.specs.List.{AllByRecursion, list_any};
    ghost use Rattle.std.specs.Ordering.{nat_cmp};
    ghost use Rattle.ele_model.specs.WellFormed.{IsVersion};
    ghost use Rattle.ele_model.specs.World.{is_live_name_of};
    ghost use Rattle.ele_well_formed.specs.Fault.{HasCurrent};
    ghost use Rattle.ele_well_formed.specs.Means.{is_endless};

    ghost ready = { λ test.
        AllByRecursion (IsVersion test.flat.now.files test.flat.now.now) test.flat.now.versions
        × ((q : ℕ) → contains nat_cmp test.live.now q
        ≡ list_any (is_live_name_of q) test.flat.now.names)
        × ((q : ℕ) → contains nat_cmp test.endless.now q
        ≡ list_any (is_endless q) test.flat.now.versions) };

    ghost fits = { λ test row. HasCurrent test.flat.now row };

    #[tactic(auto, using(crate::proofs::Currents::endless_is_current))]
    fn fits(&self, row: &FileRow) -> bool {
        !self.live.contains(&row.id.0) || self.endless.contains(&row.id.0)
    }
}

/// Returns the place of a live file without a current version. `live` has the live files.
///
/// `NoMemory` if memory is refused.
pub fn wrong_current(
    flat: &Flat,
    live: &BTreeSet<u64>,
    alloc: Global,
) -> Result<Option<usize>, NoMemory>
    requires held { HasContents flat.now }
    requires live { (q : ℕ) → contains nat_cmp live.now q
        ≡ list_any (is_live_name_of q) flat.now.names }
    ensures none { IfOk result (λ found. IfNone found (HaveCurrent flat.entry.now)) }
    ensures some { IfOk result (λ found. IfSome found
        (IsWrong (HasCurrent flat.entry.now) flat.entry.now.files)) }
{
    let endless = endless_files(flat.versions.as_slice(), alloc)?;
    let test = CurrentTest {
        flat,
        live,
        endless: &endless,
    };
    Ok(first_wrong(flat.files.as_slice(), &test))
}

// The test that a version without an end is of a live file, beside all names. `live` has the live
// files.
#[derive(Drop)]
struct EndedTest<'a> {
    names: &'a [NameRow],
    live: &'a BTreeSet<u64>,
}

impl<'a> Test<VersionRow> for EndedTest<'a> {
    ghost use Rattle.std.specs.Prelude.{◌≡◌, ℕ};
    ghost use Rattle.std.specs.BTreeSet.{contains};
    ghost use Rattle.std.specs.List.{list_any};
    ghost use Rattle.std.specs.Ordering.{nat_cmp};
    ghost use Rattle.ele_model.specs.WellFormed.{IsOfLive};
    ghost use Rattle.ele_model.specs.World.{is_live_name_of};

    ghost ready = { λ test. (q : ℕ) → contains nat_cmp test.live.now q
        ≡ list_any (is_live_name_of q) test.names.now };

    ghost fits = { λ test row. IsOfLive test.names.now row };

    fn fits(&self, row: &VersionRow) -> bool {
        row.ended.is_some() || self.live.contains(&row.file.0)
    }
}

/// Returns the place of a version without an end of a file without a live name. `live` has the live
/// files.
pub fn wrong_end(versions: &[VersionRow], names: &[NameRow], live: &BTreeSet<u64>) -> Option<usize>
    requires { (q : ℕ) → contains nat_cmp live.now q ≡ list_any (is_live_name_of q) names.now }
    ensures none { IfNone result (AllByRecursion (IsOfLive names.now) versions.now) }
    ensures some { IfSome result (IsWrong (IsOfLive names.now) versions.now) }
{
    first_wrong(versions, &EndedTest { names, live })
}

// The test that a file isn't idle, beside the world. `live` has the live files, `held` those with a
// version.
#[derive(Drop)]
struct IdleTest<'a> {
    flat: &'a Flat,
    live: &'a BTreeSet<u64>,
    held: &'a BTreeSet<u64>,
}

impl<'a> Test<FileRow> for IdleTest<'a> {
    ghost use Rattle.std.specs.Prelude.{◌≡◌, ℕ, false};
    ghost use Rattle.std.specs.BTreeSet.{contains};
    ghost use Rattle.std.specs.List.{list_any};
    ghost use Rattle.std.specs.Ordering.{nat_cmp};
    ghost use Rattle.ele_lists.specs.Keys.{Rises};
    ghost use Rattle.ele_model.specs.Change.{is_idle};
    ghost use Rattle.ele_model.specs.FileView.{is_version_of};
    ghost use Rattle.ele_model.specs.World.{is_live_name_of};

    ghost ready = { λ test. Rises (λ row. row.file) test.flat.now.drafts
        × ((q : ℕ) → contains nat_cmp test.live.now q
        ≡ list_any (is_live_name_of q) test.flat.now.names)
        × ((q : ℕ) → contains nat_cmp test.held.now q
        ≡ list_any (is_version_of q) test.flat.now.versions) };

    ghost fits = { λ test row. is_idle test.flat.now row.id ≡ false };

    fn fits(&self, row: &FileRow) -> bool {
        self.live.contains(&row.id.0)
            || self.held.contains(&row.id.0)
            || has_draft(self.flat.drafts.as_slice(), row.id.0)
    }
}

/// Returns the place of a file without a live name, a version or a draft. `live` has the live
/// files.
///
/// `NoMemory` if memory is refused.
pub fn idle_file(
    flat: &Flat,
    live: &BTreeSet<u64>,
    alloc: Global,
) -> Result<Option<usize>, NoMemory>
    requires drafts { Rises (λ row. row.file) flat.now.drafts }
    requires live { (q : ℕ) → contains nat_cmp live.now q
        ≡ list_any (is_live_name_of q) flat.now.names }
    ensures none { IfOk result (λ found. IfNone found (HasNoIdle flat.entry.now)) }
    ensures some { IfOk result (λ found. IfSome found
        (IsWrong (λ row. is_idle flat.entry.now row.id ≡ false) flat.entry.now.files)) }
{
    let held = held_files(flat.versions.as_slice(), alloc)?;
    let test = IdleTest {
        flat,
        live,
        held: &held,
    };
    Ok(first_wrong(flat.files.as_slice(), &test))
}
