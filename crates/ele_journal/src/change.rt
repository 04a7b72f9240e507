//! The bytes of a change.
//! A contract sees the change as the list of its events, and bytes.
ghost use Rattle.std.specs.Prelude.{◌≡◌, ◌<◌, ◌++◌, ℕ, IfErr, IfOk, IsTrue, OnOk, length};
ghost use Rattle.std.specs.List.{list_all};
ghost use Rattle.ele_journal.specs.Changes.{IsRefused, after_change, change_text, check_of};
ghost use Rattle.ele_journal.specs.Events.{changes};

use crate::event::is_change;
use crate::fault::EncodeError;
use crate::items::put_list;
use ele_checkpoint::crc32c;
use ele_model::{Event, ListOf};
use ele_moment::NoMemory;
use std::alloc::Global;

/// The events of one change.
pub type Change = ListOf<Event>;

/// The check of a change and of all before it: a CRC-32C, the highest byte first.
pub type Check = [u8; 4];

/// Bytes for the end of a journal, and the check after them.
#[derive(Drop)]
pub struct Added {
    pub bytes: Vec<u8>,
    pub check: Check,
}

/// Returns the bytes that a change adds to a journal after that check, and the check after them.
///
/// `Empty` if there is no event, and `Question` if one of them can't change a world. `NoMemory` if
/// memory is refused.
/// Cost: grows with the bytes, which it copies.
pub fn encode(alloc: Global, before: Check, events: &[Event]) -> Result<Added, EncodeError>
    ensures bytes { IfOk result (λ added. added.bytes.items ≡ change_text before events.now) }
    ensures check { IfOk result (λ added. added.check ≡ after_change before events.now) }
    ensures some { OnOk result (0 < length events.now) }
    ensures changes { OnOk result (IsTrue (list_all changes events.now)) }
    ensures refused { IfErr result (IsRefused events.now) }
{
    if events.is_empty() {
        return Err(EncodeError::Empty);
    }
    if !all_change(events) {
        return Err(EncodeError::Question);
    }
    match written(alloc, before, events) {
        Ok(added) => Ok(added),
        Err(NoMemory) => Err(EncodeError::NoMemory),
    }
}

// Whether each event may change a world.
fn all_change(events: &[Event]) -> bool
    ensures { result ≡ list_all changes events.now }
{
    events.iter().all(|event| is_change(event))
}

// The bytes of any events.
fn written(alloc: Global, before: Check, events: &[Event]) -> Result<Added, NoMemory>
    ensures bytes { IfOk result (λ added. added.bytes.items ≡ change_text before events.now) }
    ensures check { IfOk result (λ added. added.check ≡ after_change before events.now) }
{
    let mut body = Vec::new(alloc);
    put_list(&mut body, events)?;
    let size = (body.len() as u64).to_be_bytes();
    let sized = next_check(alloc, before, &size)?;
    let check = next_check(alloc, sized, &body)?;
    let mut bytes = Vec::new(alloc);
    bytes.extend_from_slice(&size)?;
    bytes.extend_from_slice(&sized)?;
    bytes.extend_from_slice(&body)?;
    bytes.extend_from_slice(&check)?;
    Ok(Added { bytes, check })
}

// The check of bytes that follow a check.
fn next_check(alloc: Global, before: Check, bytes: &[u8]) -> Result<Check, NoMemory>
    ensures { IfOk result (λ check. check ≡ check_of (before ++ bytes.now)) }
{
    let mut covered = Vec::new(alloc);
    covered.extend_from_slice(&before)?;
    covered.extend_from_slice(bytes)?;
    Ok(check_of(&covered))
}

/// Returns the check of bytes.
#[tactic(auto, unfolding(crate::specs::Changes::check_of))]
pub(crate) fn check_of(bytes: &[u8]) -> Check
    ensures { result ≡ check_of bytes.now }
{
    crc32c(bytes).to_be_bytes()
}
