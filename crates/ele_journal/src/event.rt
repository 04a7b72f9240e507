//! Events as bytes.
//! A contract sees the event, and bytes.
ghost use Rattle.std.specs.Prelude.{◌≡◌, ◌++◌, ◌∷◌, OnOk, length};
ghost use Rattle.ele_checkpoint.specs.Number.{number_text};
ghost use Rattle.ele_checkpoint.specs.Reading.{Gives};
ghost use Rattle.ele_checkpoint.specs.Values.{string_text};
ghost use Rattle.ele_journal.specs.Events.{changes, event_text, names_text};
ghost use Rattle.ele_journal.specs.EventsRead.{event_at, events_at, number_event_at, of_path, path_event_at, paths_event_at};

use crate::items::{Item, list_of};
use crate::path::{path_of, put_path, put_tag};
use crate::rule::rule_event_of;
use crate::session::session_event_of;
use ele_checkpoint::number::{number_of, put_number};
use ele_checkpoint::value::{put_maybe, put_moment, put_policy, put_string};
use ele_checkpoint::{Flaw, Stop, wrong};
use ele_model::{Event, ListOf};
use ele_moment::{Handle, NoMemory};
use ele_path::{KeptName, Path};
use std::alloc::Global;

/// Whether an event may change a world. Else it is a question, which a journal doesn't have.
pub fn is_change(event: &Event) -> bool
    ensures { result ≡ changes event.now }
{
    !matches!(
        event,
        Event::Read(_)
            | Event::Stat(_)
            | Event::Versions(_)
            | Event::List(_)
            | Event::Restorable
            | Event::Due
            | Event::UsageAll
            | Event::GroupsAll
    )
}

// Adds the number of a kind and a path.
fn put_on_path(out: &mut Vec<u8>, kind: u8, path: &Path) -> Result<(), NoMemory>
    ensures { OnOk result (out.new.items ≡ out.old.items ++ kind ∷ names_text path.now) }
{
    out.push(kind)?;
    put_path(out, path)
}

// Adds the number of a kind and a number.
fn put_numbered(out: &mut Vec<u8>, kind: u8, n: u64) -> Result<(), NoMemory>
    ensures { OnOk result (out.new.items ≡ out.old.items ++ kind ∷ number_text n) }
{
    out.push(kind)?;
    put_number(out, n)
}

// Adds the number of a kind and a name.
fn put_named(out: &mut Vec<u8>, kind: u8, name: &KeptName) -> Result<(), NoMemory>
    ensures { OnOk result (out.new.items ≡ out.old.items ++ kind ∷ string_text name.now) }
{
    out.push(kind)?;
    put_string(out, name.bytes())
}

impl Item for Event {
    ghost spelling = { event_text };

    ghost reading = { event_at };

    fn put(&self, out: &mut Vec<u8>) -> Result<(), NoMemory> {
        match self {
            Event::MakeDir(path) => put_on_path(out, 0, path),
            Event::RemoveDir(path) => put_on_path(out, 1, path),
            Event::Create(path) => put_on_path(out, 2, path),
            Event::Unlink(path) => put_on_path(out, 3, path),
            Event::Undelete(path) => put_on_path(out, 4, path),
            Event::OpenWrite(path) => put_on_path(out, 5, path),
            Event::Link(path, other) => {
                put_on_path(out, 6, path)?;
                put_path(out, other)
            }
            Event::Rename(path, other) => {
                put_on_path(out, 7, path)?;
                put_path(out, other)
            }
            Event::Tick(seconds) => put_numbered(out, 8, *seconds),
            Event::Close(handle) => put_numbered(out, 9, handle.0),
            Event::Abandon(handle) => put_numbered(out, 10, handle.0),
            Event::Clock(moment) => put_numbered(out, 11, moment.seconds()),
            Event::Truncate(handle, size) => {
                put_numbered(out, 12, handle.0)?;
                put_number(out, *size)
            }
            Event::Write(handle, offset, bytes) => {
                put_numbered(out, 13, handle.0)?;
                put_number(out, *offset)?;
                put_string(out, bytes.as_slice())
            }
            Event::Save(path, bytes) => {
                put_on_path(out, 14, path)?;
                put_string(out, bytes.as_slice())
            }
            Event::Revert(path, version) => {
                put_on_path(out, 15, path)?;
                put_number(out, version.0)
            }
            Event::Restore(path, moment) => {
                put_on_path(out, 16, path)?;
                put_moment(out, *moment)
            }
            Event::SetPolicy(path, policy) => {
                put_on_path(out, 17, path)?;
                put_policy(out, policy.get())
            }
            Event::SetDefault(path, policy) => {
                put_on_path(out, 18, path)?;
                put_policy(out, policy.get())
            }
            Event::OpenRead(tagged) => {
                put_on_path(out, 19, tagged.path())?;
                put_tag(out, tagged.tag())
            }
            Event::GroupMake(name) => put_named(out, 20, name),
            Event::GroupDrop(name) => put_named(out, 21, name),
            Event::GroupAdd(name, path) => {
                put_named(out, 22, name)?;
                put_path(out, path)
            }
            Event::GroupRemove(name, path) => {
                put_named(out, 23, name)?;
                put_path(out, path)
            }
            Event::Mark(name, moment, until) => {
                put_named(out, 24, name)?;
                put_moment(out, *moment)?;
                put_maybe(out, *until)
            }
            Event::Unmark(name, moment) => {
                put_named(out, 25, name)?;
                put_moment(out, *moment)
            }
            Event::CleanOne => {
                out.push(26)?;
                Ok(())
            }
            Event::Note(bytes) => {
                out.push(27)?;
                put_string(out, bytes.as_slice())
            }
            _ => Ok(()),
        }
    }

    #[tactic(auto, unfolding(crate::specs::EventsRead::event_at))]
    fn get(alloc: Global, bytes: &[u8]) -> Result<(Event, &[u8]), Stop> {
        match bytes {
            [] => Err(wrong(bytes, Flaw::Short)),
            [kind @ 0..=5, rest @ ..] => path_event_of(alloc, *kind, rest),
            [kind @ 6..=7, rest @ ..] => paths_event_of(alloc, *kind, rest),
            [kind @ 8..=10, rest @ ..] => number_event_of(*kind, rest),
            [kind @ 11..=16, rest @ ..] => session_event_of(alloc, *kind, rest),
            [kind, rest @ ..] => rule_event_of(alloc, *kind, rest),
        }
    }
}

// The event of a kind from 0 to 5.
fn on_path(kind: u8, path: Path) -> Event
    ensures { result ≡ of_path kind path }
{
    match kind {
        0 => Event::MakeDir(path),
        1 => Event::RemoveDir(path),
        2 => Event::Create(path),
        3 => Event::Unlink(path),
        4 => Event::Undelete(path),
        _ => Event::OpenWrite(path),
    }
}

#[tactic(auto, unfolding(crate::specs::EventsRead::path_event_at))]
fn path_event_of(alloc: Global, kind: u8, bytes: &[u8]) -> Result<(Event, &[u8]), Stop>
    ensures { Gives (λ x. (x.0, x.1.now)) result (path_event_at kind bytes.now) }
{
    let (path, rest) = taken!(path_of(alloc, bytes));
    Ok((on_path(kind, path), rest))
}

#[tactic(auto, unfolding(crate::specs::EventsRead::paths_event_at))]
fn paths_event_of(alloc: Global, kind: u8, bytes: &[u8]) -> Result<(Event, &[u8]), Stop>
    ensures { Gives (λ x. (x.0, x.1.now)) result (paths_event_at kind bytes.now) }
{
    let (path, rest) = taken!(path_of(alloc, bytes));
    let (other, rest) = taken!(path_of(alloc, rest));
    if kind == 6 {
        Ok((Event::Link(path, other), rest))
    } else {
        Ok((Event::Rename(path, other), rest))
    }
}

#[tactic(auto, unfolding(crate::specs::EventsRead::number_event_at))]
fn number_event_of(kind: u8, bytes: &[u8]) -> Result<(Event, &[u8]), Stop>
    ensures { Gives (λ x. (x.0, x.1.now)) result (number_event_at kind bytes.now) }
{
    let (n, rest) = number_of(bytes)?;
    let event = match kind {
        8 => Event::Tick(n),
        9 => Event::Close(Handle(n)),
        _ => Event::Abandon(Handle(n)),
    };
    Ok((event, rest))
}

/// Reads one or more events from all of the bytes.
#[tactic(auto, unfolding(crate::specs::EventsRead::events_at))]
pub(crate) fn events_of(alloc: Global, bytes: &[u8]) -> Result<ListOf<Event>, Stop>
    ensures { Gives (λ x. x) result (events_at bytes.now) }
{
    let (events, after) = taken!(list_of::<Event>(alloc, bytes));
    if !after.is_empty() {
        return Err(wrong(after, Flaw::Trailing));
    }
    if events.is_empty() {
        return Err(wrong(after, Flaw::Short));
    }
    Ok(ListOf::from_vec(events))
}
