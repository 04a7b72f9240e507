//! Events of policies, groups, marks, cleans and notes, and opening to read, read from bytes.
//! A contract sees the event, and bytes.
ghost use Rattle.ele_checkpoint.specs.Reading.{Gives};
ghost use Rattle.ele_journal.specs.EventsRead.{group_event_at, mark_at, member_event_at, note_at, open_read_at, policy_event_at, rule_event_at, unmark_at};

use crate::path::{path_of, tag_of};
use crate::session::copied;
use ele_checkpoint::value::{maybe_of, moment_of, name_of, policy_of, string_of};
use ele_checkpoint::{Flaw, Stop, wrong};
use ele_model::{Boxed, Event};
use ele_path::{KeptName, TaggedPath};
use std::alloc::Global;

/// Reads the values of a kind of event from 17 on.
#[tactic(auto, unfolding(crate::specs::EventsRead::rule_event_at))]
pub(crate) fn rule_event_of(alloc: Global, kind: u8, bytes: &[u8]) -> Result<(Event, &[u8]), Stop>
    ensures { Gives (λ x. (x.0, x.1.now)) result (rule_event_at kind bytes.now) }
{
    match kind {
        0..=18 => policy_event_of(alloc, kind, bytes),
        19 => open_read_of(alloc, bytes),
        20..=21 => group_event_of(alloc, kind, bytes),
        22..=23 => member_event_of(alloc, kind, bytes),
        24 => mark_of(alloc, bytes),
        25 => unmark_of(alloc, bytes),
        26 => Ok((Event::CleanOne, bytes)),
        27 => note_of(alloc, bytes),
        _ => Err(wrong(bytes, Flaw::Choice)),
    }
}

#[tactic(auto, unfolding(crate::specs::EventsRead::policy_event_at))]
fn policy_event_of(alloc: Global, kind: u8, bytes: &[u8]) -> Result<(Event, &[u8]), Stop>
    ensures { Gives (λ x. (x.0, x.1.now)) result (policy_event_at kind bytes.now) }
{
    let (path, rest) = taken!(path_of(alloc, bytes));
    let (policy, rest) = taken!(policy_of(alloc, rest));
    let policy = Boxed::new(alloc, policy)?;
    if kind == 17 {
        Ok((Event::SetPolicy(path, policy), rest))
    } else {
        Ok((Event::SetDefault(path, policy), rest))
    }
}

#[tactic(auto, unfolding(crate::specs::EventsRead::open_read_at))]
fn open_read_of(alloc: Global, bytes: &[u8]) -> Result<(Event, &[u8]), Stop>
    ensures { Gives (λ x. (x.0, x.1.now)) result (open_read_at bytes.now) }
{
    let (path, rest) = taken!(path_of(alloc, bytes));
    let (tag, rest) = taken!(tag_of(rest));
    Ok((Event::OpenRead(TaggedPath::new(path, tag)), rest))
}

#[tactic(auto, unfolding(crate::specs::EventsRead::group_event_at))]
fn group_event_of(alloc: Global, kind: u8, bytes: &[u8]) -> Result<(Event, &[u8]), Stop>
    ensures { Gives (λ x. (x.0, x.1.now)) result (group_event_at kind bytes.now) }
{
    let (name, rest) = taken!(name_of(bytes));
    let name = KeptName::new(alloc, name)?;
    if kind == 20 {
        Ok((Event::GroupMake(name), rest))
    } else {
        Ok((Event::GroupDrop(name), rest))
    }
}

#[tactic(auto, unfolding(crate::specs::EventsRead::member_event_at))]
fn member_event_of(alloc: Global, kind: u8, bytes: &[u8]) -> Result<(Event, &[u8]), Stop>
    ensures { Gives (λ x. (x.0, x.1.now)) result (member_event_at kind bytes.now) }
{
    let (name, rest) = taken!(name_of(bytes));
    let name = KeptName::new(alloc, name)?;
    let (path, rest) = taken!(path_of(alloc, rest));
    if kind == 22 {
        Ok((Event::GroupAdd(name, path), rest))
    } else {
        Ok((Event::GroupRemove(name, path), rest))
    }
}

#[tactic(auto, unfolding(crate::specs::EventsRead::mark_at))]
fn mark_of(alloc: Global, bytes: &[u8]) -> Result<(Event, &[u8]), Stop>
    ensures { Gives (λ x. (x.0, x.1.now)) result (mark_at bytes.now) }
{
    let (name, rest) = taken!(name_of(bytes));
    let name = KeptName::new(alloc, name)?;
    let (moment, rest) = taken!(moment_of(rest));
    let (until, rest) = taken!(maybe_of(rest));
    Ok((Event::Mark(name, moment, until), rest))
}

#[tactic(auto, unfolding(crate::specs::EventsRead::unmark_at))]
fn unmark_of(alloc: Global, bytes: &[u8]) -> Result<(Event, &[u8]), Stop>
    ensures { Gives (λ x. (x.0, x.1.now)) result (unmark_at bytes.now) }
{
    let (name, rest) = taken!(name_of(bytes));
    let name = KeptName::new(alloc, name)?;
    let (moment, rest) = taken!(moment_of(rest));
    Ok((Event::Unmark(name, moment), rest))
}

#[tactic(auto, unfolding(crate::specs::EventsRead::note_at))]
fn note_of(alloc: Global, bytes: &[u8]) -> Result<(Event, &[u8]), Stop>
    ensures { Gives (λ x. (x.0, x.1.now)) result (note_at bytes.now) }
{
    let (text, rest) = string_of(bytes)?;
    Ok((Event::Note(copied(alloc, text)?), rest))
}
