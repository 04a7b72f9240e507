//! One history for many threads, over one word and one slot. A contract sees of a seat its numbers,
//! the prefix of the shared history that it has seen, and its own calls.
#![tactic(auto)]

ghost use Rattle.std.specs.Prelude.{◌≡◌, ◌+◌, ◌%◌, ◌<◌, ◌≤◌, vec_len, vec_capacity, IfOk, IfErr, IsOk, IsSome, OnErr, [], Some};
ghost use Rattle.ele_shared_history.specs.Calling.{Called, StoppedBy, TriedBy};
ghost use Rattle.ele_shared_history.specs.Closing.{Closes};
ghost use Rattle.ele_shared_history.specs.Knowledge.{IsTrue, Looked, count_seen};
ghost use Rattle.ele_shared_history.specs.Dealt.{AreDealt, IsFirst};
ghost use Rattle.ele_shared_history.specs.Seats.{AreAllNew, Joined, SplitOff};
ghost use Rattle.ele_shared_history.specs.Running.{AgreeBy};

mod ledger;
mod seat;
mod steps;
mod stop;
mod transitions;

use ele_history::History;
use ele_model::{Event, NoMemory, Reply, Step, Stop};
use ledger::Table;
pub use seat::Seat;
use std::alloc::Global;
use std::marker::Model;
use std::mem;
use std::snapshot::Snapshot;
use std::sync::Wait;
use steps::{attempt, fork, insist, look, unite};
pub use stop::{TryStop, TurnHeld};

/// A history that many threads call, each through a seat of its own.
#[derive(Drop)]
pub struct Shared<C: Step> {
    table: Table<C>,
}

impl<C: Step> Model for Shared<C> {
    ghost use Rattle.std.specs.Prelude.{◌≡◌};
    ghost use Rattle.ele_shared_history.specs.Knowledge.{Object};

    ghost Value = { Object };

    ghost view = { λ s. record {
      name = s.table.shared.table_id;
      opening = s.table.shared.key.value;
    } };

    ghost invariant = { λ s. (s.table.shared.table_id.words ≡ 1)
        × (s.table.shared.table_id.slots ≡ 1) };
}

impl<C: Step> Shared<C> {
    /// Shares the history among so many seats, from 1 to 64. Each seat has a number of its own, has
    /// seen no event and has made no call.
    ///
    /// `NoMemory` if memory is refused, and then the caller gets the history back as it was.
    /// Cost: grows with the seats, at most 64, which take no memory; takes memory for one word and
    /// for one slot, which holds the history.
    pub fn new(
        alloc: Global,
        history: History<C>,
        seats: u32,
    ) -> Result<(Shared<C>, Vec<Seat<C>>), (History<C>, NoMemory)>
        requires { (0 < seats) × (seats ≤ 64) }
        ensures ok { IfOk result (λ made. (made.0.opening ≡ history)
            × (vec_len made.1 ≡ seats) × AreAllNew made.0 made.1.items) }
        ensures err { IfErr result (λ refused. refused.0 ≡ history) }
    {
        let mut all = Vec::new(alloc);
        if all.reserve(seats as usize).is_err() {
            return Err((history, NoMemory));
        }
        let (shared, mut last) = Shared::alone(alloc, history)?;
        shared.deal(&mut last, &mut all, seats);
        all.push_reserved(last);
        Ok((shared, all))
    }

    // The shared history and its first seat.
    fn alone(
        alloc: Global,
        history: History<C>,
    ) -> Result<(Shared<C>, Seat<C>), (History<C>, NoMemory)>
        ensures ok { IfOk result
            (λ made. (made.0.opening ≡ history) × IsFirst made.0 made.1) }
        ensures err { IfErr result (λ refused. refused.0 ≡ history) }
    {
        let opening = Snapshot::of(&history);
        let count = history.count();
        history.base().limits.lemma_within();
        let mut slots = Vec::new(alloc);
        if let Err(refused) = slots.push(Some(history)) {
            let Some(history) = refused.value else {
                unreachable!()
            };
            return Err((history, NoMemory));
        }
        match Table::new(alloc, &[2 * count], slots, &opening) {
            Ok((table, place)) => Ok((Shared { table }, Seat { place })),
            Err(refused) => {
                let mut slots = refused.slots;
                let Some(Some(history)) = slots.pop() else {
                    unreachable!()
                };
                Err((history, NoMemory))
            }
        }
    }

    // Moves all seats except the last one made into the list.
    fn deal(&self, last: &mut Seat<C>, all: &mut Vec<Seat<C>>, seats: u32)
        requires first { IsFirst self.now last.old }
        requires room { (all.old.items ≡ []) × (0 < seats) × (seats ≤ vec_capacity all.old) }
        ensures row { AreDealt self.now all.new.items last.new }
        ensures many { (vec_len all.new + 1 ≡ seats) × (seats ≤ vec_capacity all.new) }
    {
        for _ in 1..seats {
            let next = self.divide(last);
            let done = mem::replace(last, next);
            all.push_reserved(done);
        }
    }

    /// Applies the event to the history after all events that were published before. The seat has
    /// then seen these, and this event after them. It waits for the turn, and nothing promises that
    /// the wait ends.
    ///
    /// `HistoryFull` if as many events were published as the limits allow, and `NoMemory` if memory
    /// is refused. Each error leaves the history as it was, and frees the turn.
    /// Cost: that of the history's `apply`, after a wait for the turn that has no bound; between
    /// two tries it sleeps for 200 microseconds.
    pub fn call<R: Wait>(&self, rt: &R, seat: &mut Seat<C>, event: Event) -> Result<Reply, Stop>
        requires { seat.old.object ≡ self.now }
        ensures ok { IfOk result (λ reply. Called seat.old event reply seat.new) }
        ensures err { IfErr result
            (λ stop. Looked seat.old seat.new × StoppedBy stop seat.new) }
        ensures object { seat.new.object ≡ seat.old.object }
        ensures seat { IsTrue seat.new }
    {
        insist(rt, &self.table.shared, &mut seat.place, event)
    }

    /// Does what `call` does, with one attempt at the turn in place of a wait.
    ///
    /// `Busy` if another call has the turn, or takes it first; this also leaves the history as it
    /// was.
    /// Cost: that of the history's `apply`, or constant time if another call has the turn.
    pub fn try_call(&self, seat: &mut Seat<C>, event: Event) -> Result<Reply, TryStop>
        requires { seat.old.object ≡ self.now }
        ensures ok { IfOk result (λ reply. Called seat.old event reply seat.new) }
        ensures err { IfErr result
            (λ stop. Looked seat.old seat.new × TriedBy stop seat.new) }
        ensures object { seat.new.object ≡ seat.old.object }
        ensures seat { IsTrue seat.new }
    {
        attempt(&self.table.shared, &mut seat.place, event)
    }

    /// Returns how many events were ever published, with those of the history at the start. The
    /// seat has then seen them all. It neither waits nor takes the turn.
    /// Cost: constant time, by one atomic load.
    pub fn published(&self, seat: &mut Seat<C>) -> u64
        requires { seat.old.object ≡ self.now }
        ensures count { result ≡ count_seen seat.new }
        ensures seen { Looked seat.old seat.new }
        ensures object { seat.new.object ≡ seat.old.object }
        ensures seat { IsTrue seat.new }
    {
        look(&self.table.shared, &mut seat.place) / 2
    }

    /// Makes a new seat, with a number of its own and no calls, which has seen what this one has.
    ///
    /// A seat takes no memory, so the call always succeeds.
    /// Cost: constant time, by two atomic loads.
    pub fn split(&self, seat: &mut Seat<C>) -> Result<Seat<C>, NoMemory>
        requires { seat.old.object ≡ self.now }
        ensures ok { IfOk result (λ other. SplitOff seat.old other × IsTrue other) }
        ensures always { IsOk result }
        ensures unchanged { seat.new ≡ seat.old }
    {
        Ok(self.divide(seat))
    }

    // Makes a new seat, which has seen what this one has.
    fn divide(&self, seat: &mut Seat<C>) -> Seat<C>
        requires { seat.old.object ≡ self.now }
        ensures unchanged { seat.new ≡ seat.old }
        ensures other { SplitOff seat.old result × IsTrue result }
    {
        let place = fork(&self.table.shared, &mut seat.place);
        Seat { place }
    }

    /// Joins two seats into one: it has seen what both have, and has the numbers and calls of both.
    /// Cost: constant time, by two atomic loads.
    pub fn join(&self, seat: &mut Seat<C>, other: Seat<C>)
        requires first { seat.old.object ≡ self.now }
        requires second { other.object ≡ self.now }
        ensures { Joined seat.old other seat.new × IsTrue seat.new }
    {
        unite(&self.table.shared, &mut seat.place, other.place);
    }

    /// Of any two seats, one has seen all that the other has, in the same order: each has seen a
    /// prefix of one history. The call brings this fact to a proof; it changes neither seat, and
    /// publishes nothing.
    /// Cost: constant time, by six atomic loads.
    pub fn agree(&self, seat: &mut Seat<C>, other: &mut Seat<C>)
        requires first { seat.old.object ≡ self.now }
        requires second { other.old.object ≡ self.now }
        ensures unchanged { (seat.new ≡ seat.old) × (other.new ≡ other.old) }
        ensures views { AgreeBy seat.old.view other.old.view }
    {
        let mut both = self.divide(seat);
        let second = self.divide(other);
        self.join(&mut both, second);
    }

    /// Returns the history after all calls: that of the start, and then each published event.
    ///
    /// `TurnHeld` if a call took the turn and never gave it back; the history is lost then.
    /// Cost: constant time; frees the word and the slot.
    pub fn close(self, seat: Seat<C>) -> Result<History<C>, TurnHeld>
        requires { seat.object ≡ self }
        ensures { IfOk result (λ history. Closes self.opening seat history) }
    {
        let mut closed = self.table.close_with(seat.place);
        let word = closed.word(0);
        let slot = closed.take(0);
        closed.free();
        handed_over(word, slot)
    }
}

// What a closed table had: if the word is even, the slot has the history.
fn handed_over<C: Step>(word: u64, slot: Option<History<C>>) -> Result<History<C>, TurnHeld>
    requires { word % 2 ≡ 0 → IsSome slot }
    ensures ok { IfOk result (λ history. (word % 2 ≡ 0) × (slot ≡ Some history)) }
    ensures err { OnErr result (word % 2 ≡ 1) }
{
    if word % 2 == 1 {
        return Err(TurnHeld);
    }
    let Some(history) = slot else { unreachable!() };
    Ok(history)
}
