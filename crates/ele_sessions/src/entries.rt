//! The drafts by file id and the handles by number, each found by a binary search.
//! A contract sees the lists of both.
ghost use Rattle.std.specs.Prelude.{◌≡◌, ◌<◌, ◌+◌, ◌^◌, [], ◌∷◌, ◌++◌, Ok, Some, IfOk, IfErr, IsErrAnd, vec_len, vec_capacity, if◌then◌else◌};
ghost use Rattle.ele_rows.specs.Tally.{counted, room};
ghost use Rattle.std.specs.Result.{result_map_both};
ghost use Rattle.ele_sessions.specs.Faults.{refusal_of};
ghost use Rattle.ele_sessions.specs.Found.{StandsAt};
ghost use Rattle.ele_sessions.specs.Inside.{IsAt, IsGap, file_in, number_in};
ghost use Rattle.ele_sessions.specs.Kept.{reading, reads_eq};
ghost use Rattle.ele_sessions.specs.Order.{Rises};
ghost use Rattle.ele_lists.specs.Lists.{remove_first};
ghost use Rattle.ele_model.specs.World.{is_handle, reads_by, file_written, file_by};
ghost use Rattle.ele_model.specs.declared.rows.Reads.{Reads};

use crate::draft::Draft;
use crate::fault::SessionFault;
use crate::found_handle::FoundHandle;
use ele_lists::Keyed;
use ele_model::{HandleRow, Reads, Refusal};
use ele_moment::{FileId, Handle, NoMemory};
use ele_rows::Tally;
use std::alloc::Global;

/// A file's draft, boxed, so that few bytes move when another draft is added or removed.
#[derive(Drop)]
pub struct Entry {
    pub file: FileId,
    pub draft: Box<Draft>,
}

impl Keyed for Entry {
    ghost key = { λ entry. entry.file };

    fn key(&self) -> u64 {
        self.file.0
    }
}

/// The place of the file's draft, or else the place to insert one.
pub fn place_of(drafts: &[Entry], file: FileId) -> Result<usize, usize>
    requires { Rises file_in drafts.now }
    ensures found { IfOk result (IsAt file_in file drafts.now) }
    ensures gap { IfErr result (IsGap file_in file drafts.now) }
{
    ele_rows::place_of(drafts, file.0)
}

/// The place of the handle of that number, or else the place to insert one.
pub fn handle_place(handles: &[HandleRow], number: Handle) -> Result<usize, usize>
    requires { Rises number_in handles.now }
    ensures found { IfOk result (IsAt number_in number handles.now) }
    ensures gap { IfErr result (IsGap number_in number handles.now) }
{
    ele_rows::place_of(handles, number.0)
}

/// Adds a handle, in reserved memory, and counts it with those that read the same.
pub fn enter(handles: &mut Vec<HandleRow>, counts: &mut Tally<Reads>, handle: &HandleRow)
    requires room { vec_len handles.old < vec_capacity handles.old }
    requires counts_room { 0 < room counts.old }
    requires fits { counted reads_eq counts.old handle.now.reads + 1 < 2 ^ 64 }
    ensures handles { handles.new.items ≡ handles.old.items ++ handle.now ∷ [] }
    ensures counts { (what : Reads) → counted reads_eq counts.new what
        ≡ counted reads_eq counts.old what + (if reads_eq handle.now.reads what then 1 else 0) }
{
    handles.push_reserved(*handle);
    counts.add(handle.reads);
}

/// Counts what the handles read.
pub fn tally_of(alloc: Global, handles: &[HandleRow]) -> Result<Tally<Reads>, NoMemory>
    ensures { IfOk result (λ counts. (what : Reads)
        → counted reads_eq counts what ≡ reading what handles.now) }
{
    let mut counts = Tally::new(alloc);
    for handle in handles {
        counts.reserve()?;
        counts.add(handle.reads);
    }
    Ok(counts)
}

/// Removes the handle that was found, and returns what it read.
#[tactic(auto, using(crate::proofs::Found::handle_steps))]
pub fn take_found(handles: &mut Vec<HandleRow>, found: &FoundHandle) -> Reads
    requires { StandsAt handles.old.items found.now }
    ensures reads { Ok result ≡ reads_by handles.old.items found.now.row.number }
    ensures left { handles.new.items
        ≡ remove_first (is_handle found.now.row.number) handles.old.items }
{
    let row = handles.remove(found.place);
    row.reads
}

/// Returns the handle of that number, with its place. Refused: `NoHandle`.
#[tactic(auto, using(crate::proofs::Found::handle_steps))]
pub fn handle_by(handles: &[HandleRow], number: Handle) -> Result<FoundHandle, Refusal>
    requires { Rises number_in handles.now }
    ensures number { IfOk result (λ found. found.row.number ≡ number) }
    ensures stands { IfOk result (StandsAt handles.now) }
    ensures reads { result_map_both (λ found. found.row.reads) (λ refusal. refusal) result
        ≡ reads_by handles.now number }
{
    let Ok(place) = handle_place(handles, number) else {
        return Err(Refusal::NoHandle);
    };
    Ok(FoundHandle {
        row: handles[place],
        place,
    })
}

/// Returns what the handle reads. Refused: `NoHandle`.
pub fn reads_by(handles: &[HandleRow], number: Handle) -> Result<Reads, Refusal>
    requires { Rises number_in handles.now }
    ensures { result ≡ reads_by handles.now number }
{
    match handle_by(handles, number) {
        Ok(found) => Ok(found.row.reads),
        Err(refusal) => Err(refusal),
    }
}

// The file that the handle writes, if it writes one. Refused: `NotWriter`.
fn file_written(reads: Reads) -> Result<FileId, Refusal>
    ensures { result ≡ file_written (Ok reads) }
{
    match reads {
        Reads::Draft(file) => Ok(file),
        Reads::Version(_, _) => Err(Refusal::NotWriter),
    }
}

/// Returns the file that the handle writes. Refused: `NoHandle`, `NotWriter`.
pub fn file_by(handles: &[HandleRow], number: Handle) -> Result<FileId, Refusal>
    requires { Rises number_in handles.now }
    ensures { result ≡ file_by handles.now number }
{
    match reads_by(handles, number) {
        Ok(reads) => file_written(reads),
        Err(refusal) => Err(refusal),
    }
}

/// Returns the file that the handle writes, or the fault of that refusal.
pub fn written_by(handles: &[HandleRow], number: Handle) -> Result<FileId, SessionFault>
    requires { Rises number_in handles.now }
    ensures file { IfOk result (λ file. file_by handles.now number ≡ Ok file) }
    ensures fault { IfErr result (λ fault. IsErrAnd (file_by handles.now number)
        (λ refusal. refusal_of fault ≡ Some refusal)) }
{
    match file_by(handles, number) {
        Ok(file) => Ok(file),
        Err(Refusal::NoHandle) => Err(SessionFault::NoHandle),
        Err(_) => Err(SessionFault::NotWriter),
    }
}
