//! All rows with fresh numbers.
//! A contract sees the flat worlds before and after.
ghost use Rattle.std.specs.Prelude.{◌≡◌, ◌↔◌, Err, IfOk, OnOk, IsTrue, map};
ghost use Rattle.ele_model.specs.Start.{IsStart};
ghost use Rattle.ele_renewal.specs.Renewed.{IsClosed, renewed, renewed_directory, renewed_file, renewed_group, renewed_name, renewed_version};
ghost use Rattle.ele_renewal.specs.Writers.{AreFirst, IsInOrder};

use crate::counts::renewed_counts;
use crate::fault::RenewError;
use crate::rows::{renewed_directory, renewed_file, renewed_group, renewed_name, renewed_version};
use crate::writers::first_writers;
use ele_lists::ListOf;
use ele_model::{DirectoryRow, FileRow, Flat, GroupRow, NameRow, NoMemory, VersionRow};
use std::alloc::Global;

// All directories.
//
// `NoMemory` if memory is refused.
fn renewed_directories(alloc: Global, flat: &Flat) -> Result<ListOf<DirectoryRow>, NoMemory>
    requires { IsInOrder flat.now }
    ensures { IfOk result (λ fresh. fresh
        ≡ map (renewed_directory flat.entry.now) flat.entry.now.directories) }
{
    let rows = flat.directories.as_slice();
    let mut fresh = Vec::new(alloc);
    for row in rows {
        fresh.push(renewed_directory(flat, row))?;
    }
    Ok(ListOf::from_vec(fresh))
}

// All files.
//
// `NoMemory` if memory is refused.
fn renewed_files(alloc: Global, flat: &Flat) -> Result<ListOf<FileRow>, NoMemory>
    requires { IsInOrder flat.now }
    ensures { IfOk result (λ fresh. fresh ≡ map (renewed_file flat.entry.now) flat.entry.now.files) }
{
    let rows = flat.files.as_slice();
    let mut fresh = Vec::new(alloc);
    for row in rows {
        fresh.push(renewed_file(flat, row))?;
    }
    Ok(ListOf::from_vec(fresh))
}

// All names.
//
// `NoMemory` if memory is refused.
fn renewed_names(alloc: Global, flat: &Flat) -> Result<ListOf<NameRow>, NoMemory>
    requires { IsInOrder flat.now }
    ensures { IfOk result (λ fresh. fresh ≡ map (renewed_name flat.entry.now) flat.entry.now.names) }
{
    let rows = flat.names.as_slice();
    let mut fresh = Vec::new(alloc);
    for row in rows {
        fresh.push(renewed_name(flat, row))?;
    }
    Ok(ListOf::from_vec(fresh))
}

// All versions.
//
// `NoMemory` if memory is refused.
fn renewed_versions(alloc: Global, flat: &Flat) -> Result<ListOf<VersionRow>, NoMemory>
    requires { IsInOrder flat.now }
    ensures { IfOk result (λ fresh. fresh
        ≡ map (renewed_version flat.entry.now) flat.entry.now.versions) }
{
    let rows = flat.versions.as_slice();
    let known = first_writers(alloc, rows)?;
    let mut fresh = Vec::new(alloc);
    for row in rows {
        fresh.push(renewed_version(alloc, flat, &known, row)?)?;
    }
    Ok(ListOf::from_vec(fresh))
}

// All groups.
//
// `NoMemory` if memory is refused.
fn renewed_groups(alloc: Global, flat: &Flat) -> Result<ListOf<GroupRow>, NoMemory>
    requires { IsInOrder flat.now }
    ensures { IfOk result (λ fresh. fresh
        ≡ map (renewed_group flat.entry.now) flat.entry.now.groups) }
{
    let rows = flat.groups.as_slice();
    let mut fresh = Vec::new(alloc);
    for row in rows {
        fresh.push(renewed_group(alloc, flat, row)?)?;
    }
    Ok(ListOf::from_vec(fresh))
}

// All rows, of a world without a handle or a draft.
//
// `NoMemory` if memory is refused.
fn renewed(alloc: Global, flat: &Flat) -> Result<Flat, NoMemory>
    requires order { IsInOrder flat.now }
    requires start { IsStart flat.now }
    ensures { IfOk result (λ fresh. fresh ≡ renewed flat.entry.now) }
{
    Ok(Flat {
        now: flat.now,
        directories: renewed_directories(alloc, flat)?,
        files: renewed_files(alloc, flat)?,
        names: renewed_names(alloc, flat)?,
        versions: renewed_versions(alloc, flat)?,
        drafts: ListOf::new(alloc),
        handles: ListOf::new(alloc),
        groups: renewed_groups(alloc, flat)?,
        made: renewed_counts(flat),
        limits: flat.limits,
    })
}

// Whether no handle and no draft is there.
fn is_closed(flat: &Flat) -> bool
    ensures { IsTrue result ↔ IsClosed flat.entry.now }
{
    flat.handles.as_slice().is_empty() && flat.drafts.as_slice().is_empty()
}

/// Returns the rows with fresh numbers and the same past. Files, directories and the versions of a
/// file are numbered anew in their order, and the counts are those of the rows that are held.
///
/// `Open` if a handle or a draft is there, `NoMemory` if memory is refused.
/// Cost: grows with the rows and the cells times the logarithm of their number; takes memory for a
/// second copy of all rows, and for a number for each block.
pub fn renew(alloc: Global, flat: &Flat) -> Result<Flat, RenewError>
    requires { IsStart flat.now }
    ensures renewed { IfOk result (λ fresh. fresh ≡ renewed flat.entry.now) }
    ensures closed { OnOk result (IsClosed flat.entry.now) }
    ensures open { (result ≡ Err RenewError.Open) ↔ (IsClosed flat.entry.now → ⊥) }
{
    if !is_closed(flat) {
        return Err(RenewError::Open);
    }
    renewed(alloc, flat).map_err(|_| RenewError::NoMemory)
}
