//! Events of the clock, of handles and of contents, read from bytes.
//! A contract sees the event, and bytes.
ghost use Rattle.std.specs.Prelude.{◌≡◌, IfOk};
ghost use Rattle.ele_checkpoint.specs.Reading.{Gives};
ghost use Rattle.ele_journal.specs.EventsRead.{clock_at, restore_at, revert_at, save_at, session_event_at, truncate_at, write_at};

use crate::path::path_of;
use ele_checkpoint::Stop;
use ele_checkpoint::number::number_of;
use ele_checkpoint::value::{moment_of, string_of};
use ele_model::{ByteList, Event, ListOf};
use ele_moment::{Handle, VersionNo};
use std::alloc::{AllocError, Global};

/// Reads the values of a kind of event from 11 to 16.
#[tactic(auto, unfolding(crate::specs::EventsRead::session_event_at))]
pub(crate) fn session_event_of(
    alloc: Global,
    kind: u8,
    bytes: &[u8],
) -> Result<(Event, &[u8]), Stop>
    ensures { Gives (λ x. (x.0, x.1.now)) result (session_event_at kind bytes.now) }
{
    match kind {
        11 => clock_of(bytes),
        12 => truncate_of(bytes),
        13 => write_of(alloc, bytes),
        14 => save_of(alloc, bytes),
        15 => revert_of(alloc, bytes),
        _ => restore_of(alloc, bytes),
    }
}

// A copy of bytes.
pub(crate) fn copied(alloc: Global, bytes: &[u8]) -> Result<ByteList, AllocError>
    ensures { IfOk result (λ list. list ≡ bytes.now) }
{
    Ok(ListOf::from_vec(Vec::from_slice(alloc, bytes)?))
}

#[tactic(auto, unfolding(crate::specs::EventsRead::clock_at))]
fn clock_of(bytes: &[u8]) -> Result<(Event, &[u8]), Stop>
    ensures { Gives (λ x. (x.0, x.1.now)) result (clock_at bytes.now) }
{
    let (moment, rest) = taken!(moment_of(bytes));
    Ok((Event::Clock(moment), rest))
}

#[tactic(auto, unfolding(crate::specs::EventsRead::truncate_at))]
fn truncate_of(bytes: &[u8]) -> Result<(Event, &[u8]), Stop>
    ensures { Gives (λ x. (x.0, x.1.now)) result (truncate_at bytes.now) }
{
    let (handle, rest) = number_of(bytes)?;
    let (size, rest) = number_of(rest)?;
    Ok((Event::Truncate(Handle(handle), size), rest))
}

#[tactic(auto, unfolding(crate::specs::EventsRead::write_at))]
fn write_of(alloc: Global, bytes: &[u8]) -> Result<(Event, &[u8]), Stop>
    ensures { Gives (λ x. (x.0, x.1.now)) result (write_at bytes.now) }
{
    let (handle, rest) = number_of(bytes)?;
    let (offset, rest) = number_of(rest)?;
    let (text, rest) = string_of(rest)?;
    let text = copied(alloc, text)?;
    Ok((Event::Write(Handle(handle), offset, text), rest))
}

#[tactic(auto, unfolding(crate::specs::EventsRead::save_at))]
fn save_of(alloc: Global, bytes: &[u8]) -> Result<(Event, &[u8]), Stop>
    ensures { Gives (λ x. (x.0, x.1.now)) result (save_at bytes.now) }
{
    let (path, rest) = taken!(path_of(alloc, bytes));
    let (text, rest) = string_of(rest)?;
    let text = copied(alloc, text)?;
    Ok((Event::Save(path, text), rest))
}

#[tactic(auto, unfolding(crate::specs::EventsRead::revert_at))]
fn revert_of(alloc: Global, bytes: &[u8]) -> Result<(Event, &[u8]), Stop>
    ensures { Gives (λ x. (x.0, x.1.now)) result (revert_at bytes.now) }
{
    let (path, rest) = taken!(path_of(alloc, bytes));
    let (version, rest) = number_of(rest)?;
    Ok((Event::Revert(path, VersionNo(version)), rest))
}

#[tactic(auto, unfolding(crate::specs::EventsRead::restore_at))]
fn restore_of(alloc: Global, bytes: &[u8]) -> Result<(Event, &[u8]), Stop>
    ensures { Gives (λ x. (x.0, x.1.now)) result (restore_at bytes.now) }
{
    let (path, rest) = taken!(path_of(alloc, bytes));
    let (moment, rest) = taken!(moment_of(rest));
    Ok((Event::Restore(path, moment), rest))
}
