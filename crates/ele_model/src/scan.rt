//! The keys of the due versions, by a scan of all rows.
ghost use Rattle.std.specs.Prelude.{◌≡◌, if◌then◌else◌, IfOk, OnOk, OnErr, filter, fold, [], ◌∷◌};
ghost use Rattle.std.specs.List.{cons_option, list_any};
ghost use Rattle.std.specs.BTreeSet.{insert_key};
ghost use Rattle.ele_policy.specs.RipeCase.{ripe_by};
ghost use Rattle.ele_model.specs.Due.{ripe_of};
ghost use Rattle.ele_model.specs.IgnoresNewer.{ignores_newer};
ghost use Rattle.ele_model.specs.FileView.{closings};
ghost use Rattle.ele_model.specs.declared.cover.Cover.TheVariants.{Free};
ghost use Rattle.ele_model.specs.Cover.{cover_by, cover_of};
ghost use Rattle.ele_model.specs.GroupRows.{covers_moment, is_member};
ghost use Rattle.ele_model.specs.Neighbours.{is_newer_of};
ghost use Rattle.ele_model.specs.RipeMoments.{IsDueFromRipe};
ghost use Rattle.ele_model.specs.Scan.{key_cmp, due_key, scan};
ghost use Rattle.ele_model.specs.World.{is_live_name_of, is_open, policy_of, reads_version};

use crate::cover::Cover;
use crate::flat::Flat;
use crate::list::KeyList;
use crate::rows::{FileRow, GroupRow, HandleRow, MarkRow, NameRow, Reads, Target, VersionRow};
use ele_due::Key;
use ele_lists::ListOf;
use ele_moment::{FileId, Moment, NoMemory, VersionNo};
use ele_policy::{Policy, ripe_beside};
use std::alloc::Global;
use std::collections::BTreeSet;

/// The file's policy, if it is there.
///
/// Cost: grows with the files.
pub fn policy_of(files: &[FileRow], file: FileId) -> Option<Policy>
    ensures { result ≡ policy_of files.now file }
{
    files
        .iter()
        .find(|row| row.id == file)
        .map(|row| row.policy)
}

/// Whether a handle that reads this reads the file's version with that number.
fn reads_version(reads: Reads, file: FileId, number: VersionNo) -> bool
    ensures { result ≡ reads_version file number reads }
{
    reads == Reads::Version(file, number)
}

/// Whether a handle reads the version.
fn is_open(handles: &[HandleRow], file: FileId, number: VersionNo) -> bool
    ensures { result ≡ is_open handles.now file number }
{
    handles
        .iter()
        .any(|row| reads_version(row.reads, file, number))
}

/// Whether the group has the file.
///
/// Cost: grows with the group's members.
pub fn is_member(group: &GroupRow, file: FileId) -> bool
    ensures { result ≡ is_member file group.now }
{
    group.members.as_slice().contains(&file)
}

/// Whether a version with these moments was current at the mark. Without an end it still is
/// current.
fn covers_moment(closed: Moment, ended: Option<Moment>, mark: Moment) -> bool
    ensures { result ≡ covers_moment closed ended mark }
{
    closed <= mark && ended.is_none_or(|end| mark < end)
}

/// How long the mark holds a version with these moments, if it covers it.
fn mark_cover(mark: &MarkRow, closed: Moment, ended: &Option<Moment>) -> Cover
    ensures { result ≡ cover_by closed ended.now (mark.now ∷ []) }
{
    if covers_moment(closed, *ended, mark.at) {
        Cover::until(mark.until)
    } else {
        Cover::Free
    }
}

/// How long the group's marks hold it.
#[tactic(auto, using(crate::proofs::Covers::cover_more))]
fn group_cover(group: &GroupRow, closed: Moment, ended: &Option<Moment>) -> Cover
    ensures { result ≡ cover_by closed ended.now group.now.marks }
{
    let mut cover = Cover::Free;
    for mark in group.marks.as_slice() {
        cover = cover.longer(mark_cover(mark, closed, ended));
    }
    cover
}

/// How long the group's marks hold it, if the group has the file.
fn member_cover(group: &GroupRow, file: FileId, closed: Moment, ended: &Option<Moment>) -> Cover
    ensures { result
        ≡ (if is_member file group.now then cover_by closed ended.now group.now.marks else Free) }
{
    if is_member(group, file) {
        group_cover(group, closed, ended)
    } else {
        Cover::Free
    }
}

/// How long the marks of all groups that have the file hold it.
#[tactic(auto, using(crate::proofs::Covers::cover_of_more))]
fn cover_of(groups: &[GroupRow], file: FileId, closed: Moment, ended: &Option<Moment>) -> Cover
    ensures { result ≡ cover_of groups.now file closed ended.now }
{
    let mut cover = Cover::Free;
    for group in groups {
        cover = cover.longer(member_cover(group, file, closed, ended));
    }
    cover
}

/// Whether the other version is a newer one of the row's file.
fn is_newer(row: &VersionRow, other: &VersionRow) -> bool
    ensures { result ≡ is_newer_of row.now.file row.now.number other.now }
{
    other.file == row.file && other.number > row.number
}

/// When the newer versions of the row's file closed.
fn newer_closings(
    versions: &[VersionRow],
    row: &VersionRow,
    alloc: Global,
) -> Result<Vec<Moment>, NoMemory>
    ensures { IfOk result (λ newer. newer.items
        ≡ closings (filter (is_newer_of row.now.file row.now.number) versions.now)) }
{
    Ok(
        versions
            .iter()
            .filter(|other| is_newer(row, other))
            .map(|other| other.closed)
            .collect(alloc)?,
    )
}

/// Whether the file has a live name.
///
/// Cost: grows with the names.
pub fn is_live(names: &[NameRow], file: FileId) -> bool
    ensures { result ≡ list_any (is_live_name_of file) names.now }
{
    names.iter().any(|row| row.death.is_none() && row.target == Target::File(file))
}

/// Whether the policy looks at nothing but the version itself, in a file that is live or not.
fn ignores_newer(policy: &Policy, is_live: bool) -> bool
    ensures { result ≡ ignores_newer policy.now is_live }
{
    match policy {
        Policy::One | Policy::All => true,
        Policy::Safe(_, floor) => !is_live || floor.number() == 0,
        Policy::Landmarks(_) => false,
    }
}

/// When the policy lets go a version that ended then. The rows are plain and unchecked, so any
/// newer version may decide.
///
/// `NoMemory` if memory is refused. If the policy ignores newer versions, it takes none.
///
/// Cost: grows with the versions, unless the policy ignores newer ones.
#[tactic(auto, using(crate::proofs::DueKeys::looks_away_tells))]
pub fn ripe_by(
    policy: &Policy,
    versions: &[VersionRow],
    row: &VersionRow,
    ended: Moment,
    is_live: bool,
    alloc: Global,
) -> Result<Option<Moment>, NoMemory>
    ensures { IfOk result (λ ripe. ripe ≡ ripe_by policy.now row.now.closed (record {
      newer = closings (filter (is_newer_of row.now.file row.now.number) versions.now);
      live = is_live;
    }) ended) }
{
    if ignores_newer(policy, is_live) {
        return Ok(ripe_beside(policy, row.closed, ended, &[], is_live));
    }
    let newer = newer_closings(versions, row, alloc)?;
    Ok(ripe_beside(policy, row.closed, ended, &newer, is_live))
}

/// The version's ripe moment.
fn ripe_of(world: &Flat, row: &VersionRow, alloc: Global) -> Result<Option<Moment>, NoMemory>
    ensures { IfOk result
        (λ ripe. (ripe ≡ ripe_of world.entry.now row.now) × IsDueFromRipe world.entry.now row.now) }
{
    let Some(policy) = policy_of(world.files.as_slice(), row.file) else {
        return Ok(None);
    };
    policy.lemma_valid();
    if is_open(world.handles.as_slice(), row.file, row.number) {
        return Ok(None);
    }
    let Some(ended) = row.ended else {
        return Ok(None);
    };
    let versions = world.versions.as_slice();
    let is_live = is_live(world.names.as_slice(), row.file);
    let Some(ripe) = ripe_by(&policy, versions, row, ended, is_live, alloc)? else {
        return Ok(None);
    };
    let groups = world.groups.as_slice();
    Ok(cover_of(groups, row.file, row.closed, &row.ended).ripe_past(ripe))
}

/// The version's key, if it is due now.
fn due_key(world: &Flat, row: &VersionRow, alloc: Global) -> Result<Option<Key>, NoMemory>
    ensures { IfOk result (λ key. key ≡ due_key world.entry.now row.now) }
{
    let at = world.now.seconds();
    let Some(ripe) = ripe_of(world, row, alloc)? else {
        return Ok(None);
    };
    if ripe.seconds() > at {
        return Ok(None);
    }
    Ok(Some(Key {
        ripe,
        file: row.file,
        number: row.number,
    }))
}

/// Adds the key, if there is one.
fn add_key(keys: &mut BTreeSet<Key>, key: Option<Key>) -> Result<(), NoMemory>
    ensures ok { OnOk result (keys.new.keys ≡ fold (insert_key key_cmp) keys.old.keys (cons_option key [])) }
    ensures err { OnErr result (keys.new.keys ≡ keys.old.keys) }
{
    if let Some(key) = key {
        let _added = keys.insert(key)?;
    }
    Ok(())
}

/// The keys of all versions that are due now, in order.
#[tactic(auto, using(crate::proofs::DueKeys::in_order_more), unfolding(crate::specs::Scan::scan))]
pub fn due(world: &Flat) -> Result<KeyList, NoMemory>
    ensures { IfOk result (λ keys. keys ≡ scan world.entry.now) }
{
    let alloc = world.versions.allocator();
    let mut keys = BTreeSet::new(alloc);
    for row in world.versions.as_slice() {
        let key = due_key(world, row, alloc)?;
        add_key(&mut keys, key)?;
    }
    let listed: Vec<Key> = keys.iter().copied().collect(alloc)?;
    Ok(ListOf::from_vec(listed))
}
