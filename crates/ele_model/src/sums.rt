//! What the files of each kind of policy use, by a scan of all rows.
ghost use Rattle.std.specs.Prelude.{◌≡◌, ◌<◌, ◌^◌, ◌==◌, ◌&&◌, length, filter, []};
ghost use Rattle.std.specs.List.{list_any};
ghost use Rattle.ele_policy.specs.Policy.{is_kind};
ghost use Rattle.ele_usage.specs.Sums.{Fits};
ghost use Rattle.ele_content.specs.Content.{content_of};
ghost use Rattle.ele_model.specs.NewPlaces.{has_slot, is_among, new_places, different_of};
ghost use Rattle.ele_model.specs.Usage.{is_of, is_file_of, places_from, places, bytes_in, usage_of};

use crate::flat::Flat;
use crate::rows::{DraftRow, FileRow, VersionRow};
use crate::scan::policy_of;
use ele_content::Cell;
use ele_moment::{FileId, VersionNo};
use ele_policy::Kind;
use ele_usage::Usage;

/// Whether the two are one kind.
fn is_kind(kind: Kind, other: Kind) -> bool
    ensures { result ≡ is_kind kind other }
{
    kind == other
}

/// Whether the file exists and has a policy of the kind.
fn is_file_of(files: &[FileRow], kind: Kind, file: FileId) -> bool
    ensures { result ≡ is_file_of files.now kind file }
{
    match policy_of(files, file) {
        Some(policy) => is_kind(kind, policy.kind()),
        None => false,
    }
}

/// How many files have a policy of the kind.
fn files_of(files: &[FileRow], kind: Kind) -> u64
    ensures { result ≡ length (filter (is_of kind) files.now) }
{
    files
        .iter()
        .filter(|row| is_kind(kind, row.policy.kind()))
        .count() as u64
}

/// How many versions files with a policy of the kind have.
fn versions_of(files: &[FileRow], versions: &[VersionRow], kind: Kind) -> u64
    ensures { result
        ≡ length (filter (λ row. is_file_of files.now kind row.file) versions.now) }
{
    versions
        .iter()
        .filter(|row| is_file_of(files, kind, row.file))
        .count() as u64
}

/// How many bytes the cells have.
#[tactic(auto, using(crate::proofs::SlotPlaces::cell_bytes, std::proofs::lemmas::List::drop_all))]
fn length_of(cells: &[Cell]) -> u64
    requires { length (content_of cells.now) < 2 ^ 64 }
    ensures { result ≡ length (content_of cells.now) }
{
    let mut bytes = 0;
    for cell in cells {
        bytes += cell.bytes.as_slice().len() as u64;
    }
    bytes
}

/// How many bytes the versions of files with a policy of the kind have.
#[tactic(auto, using(crate::proofs::SlotPlaces::row_bytes, std::proofs::lemmas::List::drop_all))]
fn bytes_of(files: &[FileRow], versions: &[VersionRow], kind: Kind) -> u64
    requires { bytes_in (filter (λ row. is_file_of files.now kind row.file) versions.now)
        < 2 ^ 64 }
    ensures { result
        ≡ bytes_in (filter (λ row. is_file_of files.now kind row.file) versions.now) }
{
    let mut bytes = 0;
    for row in versions {
        if is_file_of(files, kind, row.file) {
            bytes += length_of(row.cells.as_slice());
        }
    }
    bytes
}

/// Whether the cells have that slot, written by that version.
fn has_slot(cells: &[Cell], slot: usize, writer: VersionNo) -> bool
    ensures { result ≡ has_slot cells.now slot writer }
{
    match cells.get(slot) {
        Some(cell) => cell.writer == writer,
        None => false,
    }
}

/// Whether some version has the slot of the file, written by that version.
fn is_in_versions(versions: &[VersionRow], file: FileId, slot: usize, writer: VersionNo) -> bool
    ensures { result ≡ list_any (λ row. (row.file == file)
        && has_slot row.cells slot writer) versions.now }
{
    versions.iter().any(|row| row.file == file && has_slot(row.cells.as_slice(), slot, writer))
}

/// Whether some draft has the slot of the file, written by that version.
fn is_in_drafts(drafts: &[DraftRow], file: FileId, slot: usize, writer: VersionNo) -> bool
    ensures { result ≡ list_any (λ row. (row.file == file)
        && has_slot row.cells slot writer) drafts.now }
{
    drafts.iter().any(|row| row.file == file && has_slot(row.cells.as_slice(), slot, writer))
}

/// Whether some version or draft has the slot of the file, written by that version.
#[tactic(auto, using(crate::proofs::SlotPlaces::among_rows))]
fn is_among(
    versions: &[VersionRow],
    drafts: &[DraftRow],
    file: FileId,
    slot: usize,
    writer: VersionNo,
) -> bool
    ensures { result ≡ is_among (places versions.now drafts.now)
        (record { file = file; slot = slot; writer = writer }) }
{
    is_in_versions(versions, file, slot, writer) || is_in_drafts(drafts, file, slot, writer)
}

/// How many slots of a file are in no version and no draft.
#[tactic(auto, using(crate::proofs::SlotPlaces::cell_places, std::proofs::lemmas::List::drop_all))]
fn new_slots(file: FileId, cells: &[Cell], versions: &[VersionRow], drafts: &[DraftRow]) -> u64
    ensures { result ≡ new_places (places versions.now drafts.now) (places_from file 0 cells.now) }
{
    let mut count = 0;
    for slot in 0..cells.len() {
        if !is_among(versions, drafts, file, slot, cells[slot].writer) {
            count += 1;
        }
    }
    count
}

/// How many different slots the drafts of files with a policy of the kind have.
#[tactic(auto, using(std::proofs::lemmas::List::drop_all))]
fn draft_blocks(files: &[FileRow], drafts: &[DraftRow], kind: Kind) -> u64
    requires { different_of (is_file_of files.now kind) [] drafts.now < 2 ^ 64 }
    ensures { result ≡ different_of (is_file_of files.now kind) [] drafts.now }
{
    let mut blocks = 0;
    for i in 0..drafts.len() {
        let row = &drafts[i];
        if is_file_of(files, kind, row.file) {
            blocks += new_slots(row.file, row.cells.as_slice(), &[], &drafts[i + 1..]);
        }
    }
    blocks
}

/// How many different slots the versions and drafts of files with a policy of the kind have.
#[tactic(auto, using(std::proofs::lemmas::List::drop_all))]
fn blocks_of(files: &[FileRow], versions: &[VersionRow], drafts: &[DraftRow], kind: Kind) -> u64
    requires { different_of (is_file_of files.now kind) versions.now drafts.now < 2 ^ 64 }
    ensures { result ≡ different_of (is_file_of files.now kind) versions.now drafts.now }
{
    let mut blocks = 0;
    for i in 0..versions.len() {
        let row = &versions[i];
        if is_file_of(files, kind, row.file) {
            blocks += new_slots(row.file, row.cells.as_slice(), &versions[i + 1..], drafts);
        }
    }
    blocks + draft_blocks(files, drafts, kind)
}

/// What the files with a policy of the kind use.
#[tactic(auto, unfolding(crate::specs::Usage::usage_of))]
pub fn usage_of(world: &Flat, kind: Kind) -> Usage
    requires { Fits (usage_of world.now kind) }
    ensures { result ≡ usage_of world.entry.now kind }
{
    let files = world.files.as_slice();
    let versions = world.versions.as_slice();
    let drafts = world.drafts.as_slice();
    Usage {
        files: files_of(files, kind),
        versions: versions_of(files, versions, kind),
        bytes: bytes_of(files, versions, kind),
        blocks: blocks_of(files, versions, drafts, kind),
    }
}
