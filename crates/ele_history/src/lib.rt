//! A core with its stored history, generic in the core. A contract sees the base world, the entries
//! since then, and how many entries were folded into the base.
#![tactic(auto)]

ghost use Rattle.std.specs.Prelude.{◌≡◌, ◌≢◌, [], ◌+◌, ◌-◌, ◌<◌, ◌≤◌, ◌↔◌, length, slice_get, IfOk, OnOk, OnErr, IsTrue, IsFalse, Some, vec_len, vec_capacity};
ghost use Rattle.std.specs.List.{AllByRecursion};
ghost use Rattle.std.specs.Borrow.{sem};
ghost use Rattle.std.specs.Io.BufRead.{Rests};
ghost use Rattle.std.specs.Option.{option_copied, option_map};
ghost use Rattle.ele_model.specs.Run.{IsEvent};
ghost use Rattle.ele_model.specs.Step.{step};
ghost use Rattle.ele_model.specs.World.{fresh_world};
ghost use Rattle.ele_history.specs.Legal.{IsLegal, KeepHeadline};
ghost use Rattle.ele_history.specs.Past.{HasRoom, IsFull, count_of, events_of, fresh, reply_to, trimmed, world_of};
ghost use Rattle.ele_history.specs.Reached.{IsReachedBy};
ghost use Rattle.ele_history.specs.Reply.{MayRecord, MayReply};
ghost use Rattle.ele_history.specs.contracts.History.{the_row};

mod from_flat;
pub mod laws;
mod pass;

use ele_model::{Event, Flat, Limits, NoMemory, Reply, Step};
pub use ele_model::{Entry, PassEnd, Stop};
use std::alloc::Global;
use std::marker::Model;

/// A core and its history: a base world, and each event since then with its reply.
#[derive(Drop)]
pub struct History<C: Step> {
    core: C,
    base: Flat,
    folded: u64,
    entries: Vec<Entry>,
    alloc: Global,
}

impl<C: Step> Model for History<C> {
    ghost use Rattle.ele_history.specs.Past.{Past};
    ghost use Rattle.ele_history.specs.Sound.{IsSound};

    ghost Value = { Past };

    ghost view = { λ h. record { base = h.base; folded = h.folded; entries = h.entries.items } };

    ghost invariant = { λ h. IsSound
        (record { base = h.base; folded = h.folded; entries = h.entries.items })
        (C.world h.core) };
}

impl<C: Step> History<C> {
    /// Makes the history of the fresh world with these limits, without an entry.
    ///
    /// `NoMemory` if memory is refused.
    /// Cost: that of a fresh core and a copy of its rows, which is constant time for a core of
    /// `ele_core`.
    pub fn new(alloc: Global, limits: Limits) -> Result<History<C>, NoMemory>
        ensures { IfOk result (λ history. history ≡ fresh limits) }
    {
        // For the proof: the limits are allowed.
        limits.lemma_within();
        let core = C::fresh(alloc, limits)?;
        let base = core.flat()?;
        Ok(History {
            core,
            base,
            folded: 0,
            entries: Vec::new(alloc),
            alloc,
        })
    }

    /// Applies the event, adds it and its reply as the last entry, and returns a copy of the reply.
    ///
    /// `HistoryFull` if as many entries were made as the limits allow, whatever the event is.
    /// `NoMemory` if memory is refused, also for the copy. Each error leaves the history as it was.
    /// Cost: that of the core's `apply` and of a copy of the reply, amortized; takes memory for one
    /// entry, 88 bytes, and for what the event and the reply hold.
    pub fn apply(&mut self, event: Event) -> Result<Reply, Stop>
        ensures { MayReply self.old event result self.new }
    {
        if self.is_full() {
            return Err(Stop::HistoryFull);
        }
        let Ok(reply) = ask(&mut self.core, &mut self.entries, &event) else {
            return Err(Stop::NoMemory);
        };
        // For the proof: an event whose reply takes memory to copy changed nothing.
        ele_model::laws::readers_stay();
        let Ok(told) = reply.copy(self.alloc) else {
            return Err(Stop::NoMemory);
        };
        self.entries.push_reserved(Entry { event, reply });
        Ok(told)
    }

    /// Applies the event, adds it and its reply as the last entry, and returns that reply, without a
    /// copy.
    ///
    /// `HistoryFull` if as many entries were made as the limits allow, whatever the event is.
    /// `NoMemory` if memory is refused. Each error leaves the history as it was.
    /// Cost: that of the core's `apply`, amortized; takes memory for one entry, 88 bytes, and for
    /// what the event and the reply hold.
    pub fn record(&mut self, event: Event) -> Result<&Reply, Stop>
        ensures* after { sem 𝓛 (Rests (the_row C.row C.Step) self.entry
            (λ new. MayRecord self.old event result new)) }
        ensures reply { IfOk result (λ reply. reply.now ≡ reply_to self.old event) }
    {
        match self.add(event) {
            Ok(()) => Ok(self.newest()),
            Err(stop) => Err(stop),
        }
    }

    // Applies the event and adds its entry.
    fn add(&mut self, event: Event) -> Result<(), Stop>
        ensures { MayRecord self.old event result self.new }
    {
        if self.is_full() {
            return Err(stopped(event, Stop::HistoryFull));
        }
        if self.entries.reserve(1).is_err() {
            return Err(stopped(event, Stop::NoMemory));
        }
        match self.core.apply(&event) {
            Ok(answer) => {
                self.entries.push_reserved(Entry {
                    event,
                    reply: answer,
                });
                Ok(())
            }
            Err(_) => Err(stopped(event, Stop::NoMemory)),
        }
    }

    // Returns the reply of the last entry.
    fn newest(&self) -> &Reply
        requires { 0 < length self.now.entries }
        ensures { option_map (λ entry. entry.reply)
            (slice_get self.now.entries (length self.now.entries - 1)) ≡ Some result.now }
    {
        &self.entries[self.entries.len() - 1].reply
    }

    /// Folds all entries into the base, which becomes a copy of the world, and frees them. Returns
    /// how many they were; the world and the count of entries stay.
    ///
    /// `NoMemory` if memory is refused, which leaves the history as it was. Without an entry it takes
    /// none.
    /// Cost: constant time without an entry. Else it grows with all rows of the core, which it copies
    /// as `flat` does, and with the old base and the entries, which it frees after that.
    pub fn trim(&mut self) -> Result<u64, NoMemory>
        ensures ok { IfOk result
            (λ count. (count ≡ length self.old.entries) × (self.new ≡ trimmed self.old)) }
        ensures err { OnErr result (self.new ≡ self.old) }
        ensures taken { OnErr result (self.old.entries ≢ []) }
    {
        if self.entries.is_empty() {
            return Ok(0);
        }
        let base = self.core.flat()?;
        let count = self.entries.len() as u64;
        self.base.limits.lemma_within();
        self.folded += count;
        // For the proof: events led to the new base too, and its limits are the old ones.
        ele_model::laws::always_well_formed();
        ele_model::laws::step_keeps_well_formed();
        ele_model::laws::numbers_rise();
        self.base = base;
        self.entries = Vec::new(self.alloc);
        Ok(count)
    }

    /// Returns the base: the world before the first entry. The folded events led to it, or those of
    /// them that came after the rows of which the history was made, from one that a run may begin
    /// in. So the headline holds of each entry. If none is folded, the base is the fresh world of its
    /// limits.
    /// Cost: constant time.
    pub fn base(&self) -> &Flat
        ensures value { result.now ≡ self.now.base }
        ensures reached { IsReachedBy self.now.folded self.now.base }
        ensures fresh { self.now.folded ≡ 0 → self.now.base ≡ fresh_world self.now.base.limits }
    {
        &self.base
    }

    /// Returns how many entries were folded into the base.
    /// Cost: constant time.
    pub fn folded(&self) -> u64
        ensures { result ≡ self.now.folded }
    {
        self.folded
    }

    /// Returns the entries, in order. Each reply is that of the step in the world after the entries
    /// before it, and so is as the headline says.
    /// Cost: constant time.
    pub fn entries(&self) -> &[Entry]
        ensures value { result.now ≡ self.now.entries }
        ensures events { AllByRecursion IsEvent (events_of self.now.entries) }
        ensures legal { IsLegal self.now.base self.now.entries }
        ensures headline { KeepHeadline self.now.base self.now.entries }
    {
        // For the proof: the reply of the step keeps the headline.
        ele_headline::headline();
        self.entries.as_slice()
    }

    /// Returns the last entry. None if all entries are folded, or none was made.
    /// Cost: constant time.
    pub fn last(&self) -> Option<&Entry>
        ensures { option_copied result
            ≡ slice_get self.now.entries (length self.now.entries - 1) }
    {
        self.entries.last()
    }

    /// Returns how many entries were ever made, with the folded ones.
    /// Cost: constant time.
    pub fn count(&self) -> u64
        ensures value { result ≡ count_of self.now }
        ensures limit { result ≤ self.now.base.limits.events }
    {
        self.base.limits.lemma_within();
        self.folded + self.entries.len() as u64
    }

    /// Returns the core, whose world is the one after all entries.
    /// Cost: constant time.
    pub fn core(&self) -> &C
        ensures { C.world result.now ≡ world_of self.now }
    {
        &self.core
    }

    // Whether as many entries were made as the limits allow.
    fn is_full(&self) -> bool
        ensures full { IsTrue result ↔ IsFull self.now }
        ensures room { IsFalse result → HasRoom self.now }
    {
        self.count() == self.base.limits.events()
    }
}

// Drops a stopped event. `record` would need stack for that drop if it were there.
#[inline(never)]
fn stopped(_event: Event, stop: Stop) -> Stop
    ensures { result ≡ stop }
{
    stop
}

// Answers the event, with memory reserved for its entry. If memory is refused, the world is as it
// was.
fn ask<C: Step>(core: &mut C, entries: &mut Vec<Entry>, event: &Event) -> Result<Reply, NoMemory>
    ensures event { OnOk result (IsEvent event.now) }
    ensures step { IfOk result
        (λ reply. (reply, C.world core.new) ≡ step (C.world core.old) event.now) }
    ensures err { OnErr result (C.world core.new ≡ C.world core.old) }
    ensures entries { entries.new.items ≡ entries.old.items }
    ensures room { OnOk result (vec_len entries.new < vec_capacity entries.new) }
{
    entries.reserve(1)?;
    core.apply(event)
}
