//! The journal: the events that the file of a store doesn't have yet.
//! A contract sees the check at the end of the file, these events, and what is remembered of the
//! bytes that were given last.
ghost use Rattle.std.specs.Prelude.{◌≡◌, ◌-◌, ◌<◌, ◌≤◌, IfOk, IfSome, OnErr, OnOk, Some, drop, is_some, length, take, true, vec_len};
ghost use Rattle.std.specs.Option.{option_map};
ghost use Rattle.ele_journal.specs.Changes.{IsEncodable, after_change, change_text};
ghost use Rattle.ele_journal.specs.Events.{changes};
ghost use Rattle.ele_journal.specs.Journal.{first_check, start};
ghost use Rattle.ele_journaled.specs.JournalState.{Extends, adding, confirming, idle, replacing, settling};
ghost use Rattle.ele_journaled.specs.Keeps.{IsSound};

use crate::offer::Offer;
use ele_journal::{Added, Check, begin, encode};
use ele_model::{Event, Flat, NoMemory};
use std::alloc::Global;
use std::marker::Model;

/// The events that the file of a store doesn't have yet.
#[derive(Drop)]
pub struct Journal {
    check: Check,
    change: Vec<Event>,
    offer: Option<Offer>,
    alloc: Global,
}

impl Model for Journal {
    ghost use Rattle.ele_journaled.specs.JournalState.{JournalState};
    ghost use Rattle.ele_journaled.specs.Keeps.{IsSound};

    ghost Value = { JournalState };

    ghost view = { λ j. record { check = j.check; change = j.change.items; offer = j.offer } };

    ghost invariant = { λ j. IsSound j.change.items j.offer };
}

/// A journal, and the bytes of its file.
#[derive(Drop)]
pub struct NewFile {
    pub journal: Journal,
    pub bytes: Vec<u8>,
}

impl Journal {
    /// Makes the journal of a file that ends with that check. No event is under way.
    /// Cost: constant time. It takes no memory.
    pub fn new(alloc: Global, check: Check) -> Journal
        ensures { result ≡ idle check }
    {
        Journal {
            check,
            change: Vec::new(alloc),
            offer: None,
            alloc,
        }
    }

    /// Begins the journal of a world. Its file is to have exactly these bytes.
    ///
    /// `NoMemory` if memory is refused.
    /// Cost: that of a checkpoint of the rows.
    pub fn begin(alloc: Global, flat: &Flat) -> Result<NewFile, NoMemory>
        ensures journal { IfOk result
            (λ file. file.journal ≡ idle (first_check flat.entry.now)) }
        ensures bytes { IfOk result (λ file. file.bytes.items ≡ start flat.entry.now) }
    {
        let Added { bytes, check } = begin(alloc, flat)?;
        let journal = Journal::new(alloc, check);
        Ok(NewFile { journal, bytes })
    }

    /// Adds an event to the change under way, before it is run, so that running it lacks no memory
    /// here. If it turns out not to count, `take_back` takes it away.
    ///
    /// `NoMemory` if memory is refused, and then the journal is as it was.
    /// Cost: constant time, amortized.
    #[tactic(auto, using(crate::proofs::Kept::sound_grown, crate::proofs::Kept::last_within))]
    pub fn add(&mut self, event: Event) -> Result<(), NoMemory>
        requires { changes event ≡ true }
        ensures ok { OnOk result (self.new ≡ adding self.old event) }
        ensures last { OnOk result
            (IfSome self.new.offer (λ offer. offer.count < length self.new.change)) }
        ensures err { OnErr result (self.new ≡ self.old) }
    {
        self.change.reserve(1)?;
        self.change.push_reserved(event);
        Ok(())
    }

    /// Takes the last event out of the change under way. No bytes that were given have it.
    /// Cost: constant time.
    pub fn take_back(&mut self)
        requires { IfSome self.old.offer (λ offer. offer.count < length self.old.change) }
        ensures { self.new
            ≡ record self.old { change = take (length self.old.change - 1) self.old.change } }
    {
        drop_last(&mut self.change);
    }

    /// Returns the bytes that the change under way adds to the file, as one change. None if no event
    /// is under way. The journal goes on as before; `written` says that the bytes are on the disk. If
    /// bytes were given before, those no longer count.
    ///
    /// `NoMemory` if memory is refused, and then the journal is as it was.
    /// Cost: grows with the bytes, which it copies.
    pub fn pending(&mut self) -> Result<Option<Vec<u8>>, NoMemory>
        ensures given { IfOk result
            (λ given. Extends self.old (option_map (λ bytes. bytes.items) given) self.new) }
        ensures err { OnErr result (self.new ≡ self.old) }
    {
        if self.change.is_empty() {
            self.offer = None;
            return Ok(None);
        }
        let Added { bytes, check } = change_of(self.alloc, self.check, &self.change)?;
        let count = self.change.len();
        self.offer = Some(Offer { check, count });
        Ok(Some(bytes))
    }

    /// Returns the bytes of a new file of the world: a checkpoint, which also has what the change under
    /// way did. The journal goes on as before; `written` says that the bytes are on the disk, in the
    /// place of the old file. If bytes were given before, those no longer count.
    ///
    /// `NoMemory` if memory is refused, and then the journal is as it was.
    /// Cost: that of a checkpoint of the rows.
    pub fn compact(&mut self, flat: &Flat) -> Result<Vec<u8>, NoMemory>
        ensures bytes { IfOk result (λ bytes. bytes.items ≡ start flat.entry.now) }
        ensures ok { OnOk result (self.new ≡ replacing flat.entry.now self.old) }
        ensures err { OnErr result (self.new ≡ self.old) }
    {
        let Added { bytes, check } = begin(self.alloc, flat)?;
        let count = self.change.len();
        self.offer = Some(Offer { check, count });
        Ok(bytes)
    }

    /// Says that the bytes that were given last are on the disk: those of `pending` at the end of the
    /// file, or those of `compact` in its place. Their events are no longer under way. Returns
    /// whether any bytes were given since the last call; else nothing changes.
    /// Cost: grows with the change, whose written events it drops. It takes no memory.
    pub fn written(&mut self) -> bool
        ensures value { result ≡ is_some self.old.offer }
        ensures new { self.new ≡ settling self.old }
    {
        let Some(offer) = self.offer else {
            return false;
        };
        self.confirm(offer);
        true
    }

    // Forgets the events that the bytes have.
    fn confirm(&mut self, offer: Offer)
        requires { self.old.offer ≡ Some offer }
        ensures { self.new ≡ confirming self.old (Some offer) }
    {
        let check = offer.check;
        drop_front(&mut self.change, offer.count);
        self.check = check;
        self.offer = None;
    }

    /// Returns the events of the change under way, in order.
    /// Cost: constant time.
    pub fn change(&self) -> &[Event]
        ensures value { result.now ≡ self.now.change }
        ensures sound { IsSound self.now.change self.now.offer }
    {
        &self.change
    }
}

// Drops the last event, if there is one.
fn drop_last(events: &mut Vec<Event>)
    ensures { events.new.items ≡ take (length events.old.items - 1) events.old.items }
{
    let left = events.len().saturating_sub(1);
    events.truncate(left);
}

// Drops so many events from the front.
#[tactic(auto, using(crate::proofs::Kept::turned))]
fn drop_front(events: &mut Vec<Event>, count: usize)
    requires { count ≤ vec_len events.old }
    ensures { events.new.items ≡ drop count events.old.items }
{
    let left = events.len() - count;
    events.rotate_left(count);
    events.truncate(left);
}

// The bytes of a change of events that may change a world.
fn change_of(alloc: Global, before: Check, events: &[Event]) -> Result<Added, NoMemory>
    requires { IsEncodable events.now }
    ensures bytes { IfOk result (λ added. added.bytes.items ≡ change_text before events.now) }
    ensures check { IfOk result (λ added. added.check ≡ after_change before events.now) }
{
    match encode(alloc, before, events) {
        Ok(added) => Ok(added),
        Err(_) => Err(NoMemory),
    }
}
