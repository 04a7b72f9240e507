//! The moments and the length of a version, from the rows of a world. A contract sees plain data.
ghost use Rattle.std.specs.Prelude.{◌≡◌, ◌<◌, ◌^◌, find, length};
ghost use Rattle.std.specs.Option.{option_copied, option_map};
ghost use Rattle.ele_content.specs.Content.{content_of};
ghost use Rattle.ele_model.specs.Told.{info_of};
ghost use Rattle.ele_model.specs.WellFormed.{IsWellFormed};
ghost use Rattle.ele_model.specs.World.{is_version};

use ele_model::{Cell, Flat, VersionInfo, VersionRow};
use ele_moment::{FileId, VersionNo};

/// Returns the moments and the length of the file's version with that number. None if it isn't held.
/// Cost: scans the versions.
#[tactic(auto, using(crate::proofs::Lengths::found_short))]
pub(crate) fn info_in(world: &Flat, file: FileId, number: VersionNo) -> Option<VersionInfo>
    requires { IsWellFormed world.now }
    ensures { result ≡ option_map info_of (find (is_version file number) world.entry.now.versions) }
{
    let row = row_of(world.versions.as_slice(), file, number)?;
    Some(info_of(row))
}

/// Returns the row of the file's version with that number. None if it isn't held.
pub(crate) fn row_of(rows: &[VersionRow], file: FileId, number: VersionNo) -> Option<&VersionRow>
    ensures { option_copied result ≡ find (is_version file number) rows.now }
{
    rows.iter()
        .find(|row| row.file == file && row.number == number)
}

// The moments and the length of the version.
fn info_of(row: &VersionRow) -> VersionInfo
    requires { length (content_of row.now.cells) < 2 ^ 64 }
    ensures { result ≡ info_of row.now }
{
    VersionInfo {
        number: row.number,
        opened: row.opened,
        closed: row.closed,
        ended: row.ended,
        length: length_of(row.cells.as_slice()),
    }
}

// How many bytes the cells have.
#[tactic(auto, using(crate::proofs::Lengths::cell_bytes, std::proofs::lemmas::List::drop_all))]
fn length_of(cells: &[Cell]) -> u64
    requires { length (content_of cells.now) < 2 ^ 64 }
    ensures { result ≡ length (content_of cells.now) }
{
    let mut bytes = 0;
    for cell in cells {
        bytes += cell.bytes.as_slice().len() as u64;
    }
    bytes
}
