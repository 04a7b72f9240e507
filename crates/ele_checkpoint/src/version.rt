//! Rows of versions as bytes, each beside the one before it.
//! A contract sees the rows, and bytes.
ghost use Rattle.std.specs.Prelude.{◌≡◌, ◌++◌, None, OnOk};
ghost use Rattle.std.specs.Option.{option_copied};
ghost use Rattle.ele_checkpoint.specs.Contents.{base_after, version_text, versions_text};
ghost use Rattle.ele_checkpoint.specs.PartsRead.{each_version_at, version_at, versions_at};
ghost use Rattle.ele_checkpoint.specs.Reading.{Gives};

use crate::content::{content_of, put_content};
use crate::fault::Stop;
use crate::number::{number_of, put_number};
use crate::value::{maybe_of, moment_of, put_maybe, put_moment};
use ele_lists::ListOf;
use ele_model::{Cell, VersionRow};
use ele_moment::{FileId, NoMemory, VersionNo};
use std::alloc::Global;

// The content beside which a version of the file is told.
fn base_after<'a>(before: Option<&'a VersionRow>, file: u64) -> &'a [Cell]
    ensures { result.now ≡ base_after (option_copied before.entry) file }
{
    match before {
        None => &[],
        Some(row) => {
            if row.file.0 == file {
                row.cells.as_slice()
            } else {
                &[]
            }
        }
    }
}

// Adds a version.
fn put_version(
    out: &mut Vec<u8>,
    before: Option<&VersionRow>,
    row: &VersionRow,
) -> Result<(), NoMemory>
    ensures { OnOk result (out.new.items ≡ out.old.items ++ version_text (option_copied before.entry) row.now) }
{
    put_number(out, row.file.0)?;
    put_number(out, row.number.0)?;
    put_moment(out, row.opened)?;
    put_moment(out, row.closed)?;
    put_maybe(out, row.ended)?;
    put_content(out, base_after(before, row.file.0), row.cells.as_slice())
}

/// Adds the versions.
pub(crate) fn put_versions(out: &mut Vec<u8>, rows: &[VersionRow]) -> Result<(), NoMemory>
    ensures { OnOk result (out.new.items ≡ out.old.items ++ versions_text rows.now) }
{
    put_number(out, rows.len() as u64)?;
    let mut before = None;
    for row in rows {
        put_version(out, before, row)?;
        before = Some(row);
    }
    Ok(())
}

// Reads a version.
#[tactic(auto, unfolding(crate::specs::PartsRead::version_at))]
fn version_of<'a>(
    alloc: Global,
    before: Option<&VersionRow>,
    bytes: &'a [u8],
) -> Result<(VersionRow, &'a [u8]), Stop>
    ensures { Gives (λ x. (x.0, x.1.now)) result (version_at (option_copied before.entry) bytes.now) }
{
    let (file, rest) = number_of(bytes)?;
    let (number, rest) = number_of(rest)?;
    let (opened, rest) = taken!(moment_of(rest));
    let (closed, rest) = taken!(moment_of(rest));
    let (ended, rest) = taken!(maybe_of(rest));
    let (cells, rest) = taken!(content_of(alloc, base_after(before, file), rest));
    let row = VersionRow {
        file: FileId(file),
        number: VersionNo(number),
        opened,
        closed,
        ended,
        cells: ListOf::from_vec(cells),
    };
    Ok((row, rest))
}

/// Reads the versions.
#[tactic(auto, unfolding(crate::specs::PartsRead::versions_at))]
pub(crate) fn versions_of(alloc: Global, bytes: &[u8]) -> Result<(Vec<VersionRow>, &[u8]), Stop>
    ensures { Gives (λ x. (x.0.items, x.1.now)) result (versions_at bytes.now) }
{
    let (count, rest) = number_of(bytes)?;
    each_version_of(alloc, count, rest)
}

// Reads so many versions.
fn each_version_of(
    alloc: Global,
    count: u64,
    bytes: &[u8],
) -> Result<(Vec<VersionRow>, &[u8]), Stop>
    ensures { Gives (λ x. (x.0.items, x.1.now)) result (each_version_at None count bytes.now) }
{
    let mut rows: Vec<VersionRow> = Vec::new(alloc);
    let mut rest = bytes;
    for _ in 0..count {
        let (row, after) = taken!(version_of(alloc, rows.last(), rest));
        rows.push(row)?;
        rest = after;
    }
    Ok((rows, rest))
}
