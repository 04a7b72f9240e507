//! The fresh numbers of directories, files and versions, by binary searches.
//! A contract sees how many rows have a smaller number.
ghost use Rattle.std.specs.Prelude.{◌≡◌, ◌≤◌, ◌<◌, ◌+◌, ◌-◌, ◌^◌, not};
ghost use Rattle.std.specs.List.{list_any};
ghost use Rattle.ele_lists.specs.Keys.{Rises};
ghost use Rattle.ele_lists.specs.Lists.{AllLater};
ghost use Rattle.ele_model.specs.WellFormed.{ArePlaced};
ghost use Rattle.ele_model.specs.World.{is_version};
ghost use Rattle.ele_renewal.specs.Numbers.{new_directory, new_file, new_version};
ghost use Rattle.ele_renewal.specs.Writers.{comes_before};

use ele_model::{DirId, DirectoryRow, FileId, FileRow, VersionNo, VersionRow};

/// Returns the fresh number of the directory.
pub(crate) fn new_directory(rows: &[DirectoryRow], id: DirId) -> DirId
    requires { Rises (λ row. row.id) rows.now }
    ensures { result ≡ new_directory rows.now id }
{
    let place = rows.partition_point(|row| row.id < id);
    DirId(place as u64)
}

/// Returns the fresh number of the file.
pub(crate) fn new_file(rows: &[FileRow], id: FileId) -> FileId
    requires { Rises (λ row. row.id) rows.now }
    ensures { result ≡ new_file rows.now id }
{
    let place = rows.partition_point(|row| row.id < id);
    FileId(place as u64 + 1)
}

/// Whether the version comes before that number of that file.
pub(crate) fn comes_before(row: &VersionRow, file: FileId, number: VersionNo) -> bool
    ensures { result ≡ comes_before file number row.now }
{
    row.file < file || row.file == file && row.number < number
}

/// Returns the fresh number of the file's version, or of one that isn't held, the number that comes
/// after those of the held ones before it.
pub(crate) fn new_version(rows: &[VersionRow], file: FileId, number: VersionNo) -> VersionNo
    requires { AllLater ArePlaced rows.now }
    ensures number { result ≡ new_version rows.now file number }
    ensures bound { result + 1 < 2 ^ 64 }
{
    let first = rows.partition_point(|row| row.file < file);
    let place = rows.partition_point(|row| comes_before(row, file, number));
    VersionNo((place - first) as u64 + 1)
}

/// Whether the file's last version isn't held.
pub(crate) fn has_lost_last(rows: &[VersionRow], row: &FileRow) -> bool
    requires placed { AllLater ArePlaced rows.now }
    requires made { 1 ≤ row.now.next }
    ensures { result ≡ not (list_any (is_version row.now.id (row.now.next - 1)) rows.now) }
{
    new_version(rows, row.id, row.next.before()) == new_version(rows, row.id, row.next)
}
