//! The parts of a world that a run may begin in, in their order, and the first that fails.
//! A contract sees the fault with the parts before it.
ghost use Rattle.std.specs.Prelude.{◌≡◌, MatchOption, IfOk, IfSome, OnErr};
ghost use Rattle.ele_model.specs.Start.{IsStart};
ghost use Rattle.ele_well_formed.specs.Fault.{CountsHold, DirectoriesHold, GroupsHold, HasContents, HasFault, HasLives, HasNames, HasNumbered, NamesHold};

use crate::blocks::differing;
use crate::counts::counts_hold;
use crate::directories::{has_root, wrong_directory};
use crate::drafts::{wrong_draft, wrong_handle};
use crate::fault::FlatFault;
use crate::files::wrong_file;
use crate::groups::{second_group, wrong_group};
use crate::homes::{nameless_directory, second_name, wrong_home};
use crate::lives::{idle_file, live_files, wrong_current, wrong_end};
use crate::names::{misplaced_name, wrong_name};
use crate::readers::wrong_reader;
use crate::tree::{cyclic_name, root_name};
use crate::versions::wrong_version;
use crate::writers::unwritten_draft;
use ele_model::{Flat, NoMemory, Which};
use std::alloc::Global;

// The first fault of the directories, after the counts.
fn directory_fault(flat: &Flat) -> Option<FlatFault>
    requires { CountsHold flat.now }
    ensures { MatchOption result (DirectoriesHold flat.entry.now) (HasFault flat.entry.now) }
{
    let rows = flat.directories.as_slice();
    if !has_root(rows) {
        return Some(FlatFault::Root);
    }
    if let Some(at) = wrong_directory(rows, flat.made.directories) {
        return Some(FlatFault::Directories(at));
    }
    if flat.made.directories > flat.limits.limit(Which::Directories) {
        return Some(FlatFault::DirectoryCount);
    }
    None
}

// The first fault of the counts, the directories and the files.
fn numbered_fault(flat: &Flat) -> Option<FlatFault>
    ensures { MatchOption result (HasNumbered flat.entry.now) (HasFault flat.entry.now) }
{
    if !counts_hold(flat) {
        return Some(FlatFault::Counts);
    }
    if let Some(fault) = directory_fault(flat) {
        return Some(fault);
    }
    match wrong_file(flat.files.as_slice(), &flat.made) {
        Some(at) => Some(FlatFault::Files(at)),
        None => None,
    }
}

// The first fault of the names by themselves, after the files.
fn name_fault(flat: &Flat, alloc: Global) -> Result<Option<FlatFault>, NoMemory>
    requires { HasNumbered flat.now }
    ensures { IfOk result (λ found. MatchOption found (NamesHold flat.entry.now) (HasFault flat.entry.now)) }
{
    let names = flat.names.as_slice();
    if let Some(at) = wrong_name(names, flat.files.as_slice(), flat.now) {
        return Ok(Some(FlatFault::Names(at)));
    }
    match misplaced_name(names, alloc)? {
        Some(at) => Ok(Some(FlatFault::Names(at))),
        None => Ok(None),
    }
}

// The first fault of the directories of names, after the names.
fn home_fault(flat: &Flat, alloc: Global) -> Result<Option<FlatFault>, NoMemory>
    requires numbered { HasNumbered flat.now }
    requires names { NamesHold flat.now }
    ensures { IfOk result (λ found. MatchOption found (HasNames flat.entry.now) (HasFault flat.entry.now)) }
{
    let directories = flat.directories.as_slice();
    let names = flat.names.as_slice();
    if let Some(at) = wrong_home(directories, names, alloc)? {
        return Ok(Some(FlatFault::Homes(at)));
    }
    if let Some(at) = nameless_directory(directories, names, alloc)? {
        return Ok(Some(FlatFault::Nameless(at)));
    }
    if let Some(at) = second_name(names, alloc)? {
        return Ok(Some(FlatFault::Tree(at)));
    }
    if let Some(at) = root_name(names) {
        return Ok(Some(FlatFault::RootName(at)));
    }
    match cyclic_name(names, alloc)? {
        Some(at) => Ok(Some(FlatFault::Cycle(at))),
        None => Ok(None),
    }
}

// The first fault of the versions, the drafts and the handles, after the names.
fn content_fault(flat: &Flat, alloc: Global) -> Result<Option<FlatFault>, NoMemory>
    requires { HasNames flat.now }
    ensures { IfOk result (λ found. MatchOption found (HasContents flat.entry.now) (HasFault flat.entry.now)) }
{
    let files = flat.files.as_slice();
    let versions = flat.versions.as_slice();
    let drafts = flat.drafts.as_slice();
    let handles = flat.handles.as_slice();
    if let Some(at) = wrong_version(versions, files, flat.now) {
        return Ok(Some(FlatFault::Versions(at)));
    }
    if let Some(at) = wrong_draft(drafts, files, flat.now) {
        return Ok(Some(FlatFault::Drafts(at)));
    }
    if let Some(at) = wrong_handle(handles, flat.made.handles, drafts) {
        return Ok(Some(FlatFault::Handles(at)));
    }
    if let Some(at) = wrong_reader(handles, versions) {
        return Ok(Some(FlatFault::Readers(at)));
    }
    match unwritten_draft(drafts, handles, alloc)? {
        Some(at) => Ok(Some(FlatFault::Writers(at))),
        None => Ok(None),
    }
}

// The first fault of what ties files, names and contents, after these.
fn life_fault(flat: &Flat, alloc: Global) -> Result<Option<FlatFault>, NoMemory>
    requires { HasContents flat.now }
    ensures { IfOk result (λ found. MatchOption found (HasLives flat.entry.now) (HasFault flat.entry.now)) }
{
    let names = flat.names.as_slice();
    let live = live_files(names, alloc)?;
    if let Some(at) = wrong_current(flat, &live, alloc)? {
        return Ok(Some(FlatFault::Current(at)));
    }
    if let Some(at) = wrong_end(flat.versions.as_slice(), names, &live) {
        return Ok(Some(FlatFault::Ended(at)));
    }
    match idle_file(flat, &live, alloc)? {
        Some(at) => Ok(Some(FlatFault::Idle(at))),
        None => Ok(None),
    }
}

// The first fault of the groups, after the files' lives.
fn group_fault(flat: &Flat, alloc: Global) -> Result<Option<FlatFault>, NoMemory>
    requires { HasLives flat.now }
    ensures { IfOk result (λ found. MatchOption found (GroupsHold flat.entry.now) (HasFault flat.entry.now)) }
{
    let rows = flat.groups.as_slice();
    if let Some(at) = wrong_group(rows, flat.files.as_slice(), flat.now, alloc)? {
        return Ok(Some(FlatFault::Groups(at)));
    }
    if let Some(at) = second_group(rows, alloc)? {
        return Ok(Some(FlatFault::Groups(at)));
    }
    if rows.len() as u64 > flat.made.groups {
        return Ok(Some(FlatFault::GroupCount));
    }
    Ok(None)
}

// The first fault of rows whose numbers fit.
fn later_fault(flat: &Flat, alloc: Global) -> Result<Option<FlatFault>, NoMemory>
    requires { HasNumbered flat.now }
    ensures { IfOk result (λ found. MatchOption found (IsStart flat.entry.now) (HasFault flat.entry.now)) }
{
    flat.now.lemma_in_range();
    flat.limits.lemma_within();
    if let Some(fault) = name_fault(flat, alloc)? {
        return Ok(Some(fault));
    }
    if let Some(fault) = home_fault(flat, alloc)? {
        return Ok(Some(fault));
    }
    if let Some(fault) = content_fault(flat, alloc)? {
        return Ok(Some(fault));
    }
    if let Some(fault) = life_fault(flat, alloc)? {
        return Ok(Some(fault));
    }
    if let Some(fault) = group_fault(flat, alloc)? {
        return Ok(Some(fault));
    }
    match differing(flat, alloc)? {
        Some(at) => Ok(Some(FlatFault::Blocks(at))),
        None => Ok(None),
    }
}

/// Returns the first fault of the rows, by which no run of `ele_model` may begin in them: they aren't
/// well formed, have an idle file, a directory that is in itself, a draft without a writer, or two
/// contents that have one block and other bytes in it. None if a run may. The faults have the order
/// of `FlatFault`, and before each the parts hold that come first.
///
/// `NoMemory` if memory is refused. Counts, directories and files take no memory, so then these
/// fit.
/// Cost: grows with the rows and cells times the logarithm of their number, and with the bytes.
pub fn fault_of(flat: &Flat) -> Result<Option<FlatFault>, NoMemory>
    ensures ok { IfOk result
        (λ found. MatchOption found (IsStart flat.entry.now) (HasFault flat.entry.now)) }
    ensures no_run { IfOk result (λ found. IfSome found (λ fault. IsStart flat.entry.now → ⊥)) }
    ensures err { OnErr result (HasNumbered flat.entry.now) }
{
    let alloc = flat.names.allocator();
    if let Some(fault) = numbered_fault(flat) {
        return Ok(Some(fault));
    }
    later_fault(flat, alloc)
}
