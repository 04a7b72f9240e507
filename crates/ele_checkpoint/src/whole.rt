//! A whole world as bytes.
//! A contract sees the world, and bytes.
ghost use Rattle.std.specs.Prelude.{◌≡◌, ◌++◌, OnOk};
ghost use Rattle.ele_checkpoint.specs.Reading.{Gives};
ghost use Rattle.ele_checkpoint.specs.Whole.{counts_text, limits_text, three_text, whole_text};
ghost use Rattle.ele_checkpoint.specs.PartsRead.{counts_at, limits_at, three_at, whole_at};

use crate::coded::{list_of, put_list};
use crate::draft::{drafts_of, put_drafts};
use crate::fault::{Flaw, Stop, wrong};
use crate::number::{number_of, put_number};
use crate::value::{moment_of, put_moment};
use crate::version::{put_versions, versions_of};
use ele_lists::ListOf;
use ele_model::{
    Counts, DirectoryRow, FileRow, Flat, GroupRow, HandleRow, LimitNumbers, Limits, NameRow, Which,
};
use ele_moment::NoMemory;
use std::alloc::Global;

// Adds three numbers.
fn put_three(out: &mut Vec<u8>, a: u64, b: u64, c: u64) -> Result<(), NoMemory>
    ensures { OnOk result (out.new.items ≡ out.old.items ++ three_text a b c) }
{
    put_number(out, a)?;
    put_number(out, b)?;
    put_number(out, c)
}

// Reads three numbers.
#[tactic(auto, unfolding(crate::specs::PartsRead::three_at))]
fn three_of(bytes: &[u8]) -> Result<((u64, u64, u64), &[u8]), Stop>
    ensures { Gives (λ x. (x.0, x.1.now)) result (three_at bytes.now) }
{
    let (a, rest) = number_of(bytes)?;
    let (b, rest) = number_of(rest)?;
    let (c, rest) = number_of(rest)?;
    Ok(((a, b, c), rest))
}

// Adds the counts.
fn put_counts(out: &mut Vec<u8>, made: &Counts) -> Result<(), NoMemory>
    ensures { OnOk result (out.new.items ≡ out.old.items ++ counts_text made.now) }
{
    put_three(out, made.files, made.directories, made.names)?;
    put_three(out, made.versions, made.handles, made.groups)?;
    put_number(out, made.members)?;
    put_number(out, made.marks)
}

// Reads the counts.
#[tactic(auto, unfolding(crate::specs::PartsRead::counts_at))]
fn counts_of(bytes: &[u8]) -> Result<(Counts, &[u8]), Stop>
    ensures { Gives (λ x. (x.0, x.1.now)) result (counts_at bytes.now) }
{
    let ((files, directories, names), rest) = three_of(bytes)?;
    let ((versions, handles, groups), rest) = three_of(rest)?;
    let (members, rest) = number_of(rest)?;
    let (marks, rest) = number_of(rest)?;
    let made = Counts {
        files,
        directories,
        names,
        versions,
        handles,
        groups,
        members,
        marks,
    };
    Ok((made, rest))
}

// Adds the limits.
fn put_limits(out: &mut Vec<u8>, most: &Limits) -> Result<(), NoMemory>
    ensures { OnOk result (out.new.items ≡ out.old.items ++ limits_text most.now) }
{
    let files = most.limit(Which::Files);
    put_three(out, most.events(), files, most.limit(Which::Directories))?;
    let (names, versions) = (most.limit(Which::Names), most.limit(Which::Versions));
    put_three(out, names, versions, most.limit(Which::Handles))?;
    let (groups, members) = (most.limit(Which::Groups), most.limit(Which::Members));
    put_three(out, groups, members, most.limit(Which::Marks))
}

// Reads the limits.
#[tactic(auto, unfolding(crate::specs::PartsRead::limits_at))]
fn limits_of(bytes: &[u8]) -> Result<(Limits, &[u8]), Stop>
    ensures { Gives (λ x. (x.0, x.1.now)) result (limits_at bytes.now) }
{
    let ((events, files, directories), rest) = three_of(bytes)?;
    let ((names, versions, handles), rest) = three_of(rest)?;
    let ((groups, members, marks), rest) = three_of(rest)?;
    let numbers = LimitNumbers {
        events,
        files,
        directories,
        names,
        versions,
        handles,
        groups,
        members,
        marks,
    };
    match Limits::of(numbers) {
        Some(most) => Ok((most, rest)),
        None => Err(wrong(bytes, Flaw::Limits)),
    }
}

/// Adds all rows and numbers of a world.
pub(crate) fn put_whole(out: &mut Vec<u8>, flat: &Flat) -> Result<(), NoMemory>
    ensures { OnOk result (out.new.items ≡ out.old.items ++ whole_text flat.entry.now) }
{
    put_moment(out, flat.now)?;
    put_list(out, flat.directories.as_slice())?;
    put_list(out, flat.files.as_slice())?;
    put_list(out, flat.names.as_slice())?;
    put_versions(out, flat.versions.as_slice())?;
    put_drafts(out, flat.versions.as_slice(), flat.drafts.as_slice())?;
    put_list(out, flat.handles.as_slice())?;
    put_list(out, flat.groups.as_slice())?;
    put_counts(out, &flat.made)?;
    put_limits(out, &flat.limits)
}

/// Reads a world. The bytes after it follow in the result.
#[tactic(auto, unfolding(crate::specs::PartsRead::whole_at))]
pub(crate) fn whole_of(alloc: Global, bytes: &[u8]) -> Result<(Flat, &[u8]), Stop>
    ensures { Gives (λ x. (x.0, x.1.now)) result (whole_at bytes.now) }
{
    let (now, rest) = taken!(moment_of(bytes));
    let (directories, rest) = taken!(list_of::<DirectoryRow>(alloc, rest));
    let (files, rest) = taken!(list_of::<FileRow>(alloc, rest));
    let (names, rest) = taken!(list_of::<NameRow>(alloc, rest));
    let (versions, rest) = taken!(versions_of(alloc, rest));
    let (drafts, rest) = taken!(drafts_of(alloc, &versions, rest));
    let (handles, rest) = taken!(list_of::<HandleRow>(alloc, rest));
    let (groups, rest) = taken!(list_of::<GroupRow>(alloc, rest));
    let (made, rest) = taken!(counts_of(rest));
    let (limits, rest) = taken!(limits_of(rest));
    let flat = Flat {
        now,
        directories: ListOf::from_vec(directories),
        files: ListOf::from_vec(files),
        names: ListOf::from_vec(names),
        versions: ListOf::from_vec(versions),
        drafts: ListOf::from_vec(drafts),
        handles: ListOf::from_vec(handles),
        groups: ListOf::from_vec(groups),
        made,
        limits,
    };
    Ok((flat, rest))
}
