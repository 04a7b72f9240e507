//! The fresh number of a directory, a file or a version, for a caller that holds an old one.
//! A contract sees the number by its definition.
ghost use Rattle.std.specs.Prelude.{◌≡◌};
ghost use Rattle.std.specs.List.{list_any};
ghost use Rattle.ele_lists.specs.Keys.{Rises};
ghost use Rattle.ele_lists.specs.Lists.{AllLater};
ghost use Rattle.ele_model.specs.Start.{IsStart};
ghost use Rattle.ele_model.specs.WellFormed.{ArePlaced, has_directory};
ghost use Rattle.ele_model.specs.World.{is_directory, is_file, is_version};
ghost use Rattle.ele_renewal.specs.Across.{directory_across, file_across, version_across};

use crate::numbers::{comes_before, new_directory, new_file, new_version};
use ele_model::{DirId, DirectoryRow, FileId, FileRow, Flat, VersionNo, VersionRow};

// Whether the directory has that number.
fn is_directory(row: &DirectoryRow, id: DirId) -> bool
    ensures { result ≡ is_directory id row.now }
{
    row.id == id
}

// Whether the directory is there.
fn has_directory(rows: &[DirectoryRow], id: DirId) -> bool
    requires { Rises (λ row. row.id) rows.now }
    ensures { result ≡ has_directory rows.now id }
{
    let place = rows.partition_point(|row| row.id < id);
    match rows.get(place) {
        Some(row) => is_directory(row, id),
        None => false,
    }
}

// Whether the file has that number.
fn is_file(row: &FileRow, id: FileId) -> bool
    ensures { result ≡ is_file id row.now }
{
    row.id == id
}

// Whether the file is there.
fn has_file(rows: &[FileRow], id: FileId) -> bool
    requires { Rises (λ row. row.id) rows.now }
    ensures { result ≡ list_any (is_file id) rows.now }
{
    let place = rows.partition_point(|row| row.id < id);
    match rows.get(place) {
        Some(row) => is_file(row, id),
        None => false,
    }
}

// Whether the version has that number of that file.
fn is_version(row: &VersionRow, file: FileId, number: VersionNo) -> bool
    ensures { result ≡ is_version file number row.now }
{
    row.file == file && row.number == number
}

// Whether the version is held.
fn is_held(rows: &[VersionRow], file: FileId, number: VersionNo) -> bool
    requires { AllLater ArePlaced rows.now }
    ensures { result ≡ list_any (is_version file number) rows.now }
{
    let place = rows.partition_point(|row| comes_before(row, file, number));
    match rows.get(place) {
        Some(row) => is_version(row, file, number),
        None => false,
    }
}

/// Returns the number of the directory in the fresh rows. None if it isn't there.
/// Cost: grows with the logarithm of the number of directories.
pub fn directory_across(flat: &Flat, id: DirId) -> Option<DirId>
    requires { IsStart flat.now }
    ensures { result ≡ directory_across flat.entry.now id }
{
    let rows = flat.directories.as_slice();
    if !has_directory(rows, id) {
        return None;
    }
    Some(new_directory(rows, id))
}

/// Returns the number of the file in the fresh rows. None if it isn't there.
/// Cost: grows with the logarithm of the number of files.
pub fn file_across(flat: &Flat, id: FileId) -> Option<FileId>
    requires { IsStart flat.now }
    ensures { result ≡ file_across flat.entry.now id }
{
    let rows = flat.files.as_slice();
    if !has_file(rows, id) {
        return None;
    }
    Some(new_file(rows, id))
}

/// Returns the number of the file's version in the fresh rows. None if it isn't held.
/// Cost: grows with the logarithm of the number of versions.
pub fn version_across(flat: &Flat, file: FileId, number: VersionNo) -> Option<VersionNo>
    requires { IsStart flat.now }
    ensures { result ≡ version_across flat.entry.now file number }
{
    let rows = flat.versions.as_slice();
    if !is_held(rows, file, number) {
        return None;
    }
    Some(new_version(rows, file, number))
}
