//! A world and the changes since, from bytes.
//! A contract sees the flat world, the changes as lists of events, and bytes.
ghost use Rattle.std.specs.Prelude.{◌≡◌, ◌<◌, ◌≤◌, ◌++◌, List, ℕ, Err, IfErr, IfOk, length};
ghost use Rattle.ele_model.specs.declared.event.Event.{Event};
ghost use Rattle.ele_model.specs.declared.flat.Flat.{Flat};
ghost use Rattle.ele_journal.specs.Changed.{IsChangedAt, IsNoticed};
ghost use Rattle.ele_journal.specs.Changes.{AreChanges};
ghost use Rattle.ele_journal.specs.ChangesRead.{IsInside};
ghost use Rattle.ele_journal.specs.Journal.{IsBase, journal, start};
ghost use Rattle.ele_journal.specs.Recovered.{IsAll, IsCutWithin, IsRecovered, IsShort, IsUnread};

use crate::change::{Change, Check};
use crate::fault::{Fault, RecoverError};
use crate::next::changes_of;
use crate::start::{first_four, start_of};
use ele_checkpoint::{ReadError, read};
use ele_model::{Flat, ListOf};
use std::alloc::Global;

/// What bytes are the journal of.
#[derive(Drop)]
pub struct Recovered {
    /// The world of the checkpoint.
    pub flat: Flat,
    /// The whole changes, in order.
    pub changes: ListOf<Change>,
    /// How many bytes the checkpoint and these changes take.
    pub whole: usize,
    /// The check that the next change follows.
    pub check: Check,
    /// What follows these bytes, if anything does.
    pub fault: Option<Fault>,
}

/// Returns the world of a journal's checkpoint, and its changes up to the first that is cut off or
/// damaged.
///
/// `Cut` if the bytes end before the checkpoint does, `Head` if they don't begin as a journal, and
/// `Checkpoint` if the checkpoint is damaged. `NoMemory` if memory is refused.
/// Cost: that of reading the checkpoint; for the changes, time and memory grow with their bytes.
pub fn recover(alloc: Global, bytes: &[u8]) -> Result<Recovered, RecoverError>
    // The world and the changes have the first bytes.
    ensures found { IfOk result (IsRecovered bytes.now) }
    // If the checkpoint is whole, only memory can lack, whatever follows it.
    ensures begun { IfErr result (λ error. (flat : Flat) (after : List ℕ) → IsBase flat
        → bytes.now ≡ start flat ++ after → error ≡ RecoverError.NoMemory) }
    // Else the error says what is wrong with the bytes.
    ensures why { IfErr result (IsUnread bytes.now) }
    // Of a journal that is whole, they are all.
    ensures all { (flat : Flat) (changes : List (List Event)) → IsBase flat → AreChanges changes
        → bytes.now ≡ journal flat changes → IsAll flat changes result }
    // Of a journal that was cut after its checkpoint, they are those that are whole, and no more.
    ensures cut { (flat : Flat) (changes : List (List Event)) (more : List ℕ) → IsBase flat
        → AreChanges changes → bytes.now ++ more ≡ journal flat changes
        → length (start flat) ≤ length bytes.now
        → IsCutWithin flat changes (length bytes.now) result }
    // Of a journal in which one byte was changed, they are those before that byte.
    ensures changed { (flat : Flat) (changes : List (List Event)) (place : ℕ) → IsBase flat
        → AreChanges changes → IsChangedAt place (journal flat changes) bytes.now
        → IsNoticed flat changes place result }
    // Of a journal that was cut before, there are none.
    ensures short { (flat : Flat) (more : List ℕ) → IsBase flat → bytes.now ++ more ≡ start flat
        → length bytes.now < length (start flat) → IsShort result }
{
    read_journal(alloc, bytes)
}

// The same, with what is needed to show it.
fn read_journal(alloc: Global, bytes: &[u8]) -> Result<Recovered, RecoverError>
    ensures inside { IfOk result (IsInside bytes.now) }
    ensures none { IfErr result (λ error. (flat : Flat) (after : List ℕ) → IsBase flat
        → bytes.now ≡ start flat ++ after → error ≡ RecoverError.NoMemory) }
    ensures why { IfErr result (IsUnread bytes.now) }
    ensures cut { (flat : Flat) (more : List ℕ) → IsBase flat → bytes.now ++ more ≡ start flat
        → length bytes.now < length (start flat) → result ≡ Err RecoverError.Cut }
{
    let (checkpoint, after) = taken!(start_of(bytes));
    let flat = match read(alloc, checkpoint) {
        Ok(flat) => flat,
        Err(ReadError::NoMemory) => return Err(RecoverError::NoMemory),
        Err(ReadError::Fault(fault)) => return Err(RecoverError::Checkpoint(fault)),
    };
    let length = bytes.len() - after.len();
    let (_, linked) = bytes.split_at(length - 4);
    let Ok((changes, rest, fault)) = changes_of(alloc, linked) else {
        return Err(RecoverError::NoMemory);
    };
    Ok(Recovered {
        flat,
        changes: ListOf::from_vec(changes),
        whole: bytes.len() - rest.len() + 4,
        check: first_four(rest),
        fault,
    })
}
