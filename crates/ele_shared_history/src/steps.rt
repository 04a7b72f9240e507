//! The steps on the word. Each keeps the table's rule.
ghost use Rattle.std.specs.Prelude.{◌≡◌, ◌%◌, IfOk, IfErr, MatchBool};
ghost use Rattle.ele_shared_history.specs.Calling.{StoppedBy, TriedBy};
ghost use Rattle.ele_shared_history.specs.Steps.{HasGivenBack, HasPublished, HasTurn, IsForked, IsIdle, IsOf, IsSame, MayTake, RunsEvent, SeesAll, StaysIdle, TakesTurn, Unites};
ghost use Rattle.ele_shared_history.specs.Told.{knowledge};

use crate::ledger::{Ledger, Place};
use crate::stop::TryStop;
use crate::transitions::{Fork, GiveBack, Look, Meet, Publish, Register, Take, Unite};
use ele_model::{Event, Reply, Step, Stop};
use std::sync::Wait;
use std::thread::Parker;
use std::time::Duration;

// The microseconds that a seat sleeps between two tries. A turn takes one or two microseconds, so
// other seats have some dozens of turns meanwhile. Sleeping and waking take little processor time
// beside them.
const PAUSE: u64 = 200;

/// Loads the word, and so sees the history until now.
pub(crate) fn look<C: Step>(ledger: &Ledger<C>, place: &mut Place<C>) -> u64
    requires { IsOf ledger.now.table_id place.old }
    ensures place { IsSame place.old place.new }
    ensures news { SeesAll place.old.me result place.new.me }
{
    ledger.load::<Look>(place, 0)
}

/// Takes the turn, if the word is still this one.
pub(crate) fn take<C: Step>(ledger: &Ledger<C>, place: &mut Place<C>, word: u64) -> bool
    requires mine { IsOf ledger.now.table_id place.old }
    requires even { word % 2 ≡ 0 }
    ensures place { IsSame place.old place.new }
    ensures news { MayTake result place.old.me place.new.me }
{
    ledger.compare_exchange::<Take>(place, 0, word, word + 1) == word
}

/// Applies the event to the history, and publishes it, or gives the turn back.
pub(crate) fn run<C: Step>(
    ledger: &Ledger<C>,
    place: &mut Place<C>,
    event: Event,
) -> Result<Reply, Stop>
    requires mine { IsOf ledger.now.table_id place.old }
    requires turn { HasTurn place.old.me }
    ensures place { IsSame place.old place.new }
    ensures ok { IfOk result
        (λ reply. HasPublished place.old.me event reply place.new.me) }
    ensures err { IfErr result (λ stop. HasGivenBack place.old.me stop place.new.me) }
{
    let Some(mut history) = ledger.exchange(place, 0, None) else {
        unreachable!()
    };
    // For the proof: the word doesn't wrap.
    history.base().limits.lemma_within();
    let outcome = history.apply(event);
    let _empty = ledger.exchange(place, 0, Some(history));
    match &outcome {
        Ok(_) => ledger.fetch_add::<Publish>(place, 0, 1),
        Err(_) => ledger.fetch_sub::<GiveBack>(place, 0, 1),
    };
    outcome
}

// Loads the word, and takes the turn if it is free.
fn seize<C: Step>(ledger: &Ledger<C>, place: &mut Place<C>) -> bool
    requires mine { IsOf ledger.now.table_id place.old }
    requires idle { IsIdle place.old.me }
    ensures place { IsSame place.old place.new }
    ensures taken { MatchBool result
        (TakesTurn place.old.me place.new.me) (StaysIdle place.old.me place.new.me) }
{
    let word = look(ledger, place);
    word % 2 == 0 && take(ledger, place, word)
}

// Tries until the seat has the turn, and sleeps between two tries.
fn wait<C: Step, R: Wait>(rt: &R, ledger: &Ledger<C>, place: &mut Place<C>)
    requires mine { IsOf ledger.now.table_id place.old }
    requires idle { IsIdle place.old.me }
    ensures place { IsSame place.old place.new }
    ensures taken { TakesTurn place.old.me place.new.me }
{
    let parker = Parker::new();
    let mut taken = seize(ledger, place);
    for _ in rt.forever() {
        if taken {
            return;
        }
        parker.park_timeout(rt, Duration::from_micros(PAUSE));
        taken = seize(ledger, place);
    }
    unreachable!()
}

/// Applies the event to the history, if the turn is free.
#[tactic(auto, using(crate::proofs::Rests::count_behind))]
pub(crate) fn attempt<C: Step>(
    ledger: &Ledger<C>,
    place: &mut Place<C>,
    event: Event,
) -> Result<Reply, TryStop>
    requires mine { IsOf ledger.now.table_id place.old }
    requires idle { IsIdle place.old.me }
    ensures place { IsSame place.old place.new }
    ensures ok { IfOk result (λ reply. RunsEvent place.old.me event reply place.new.me) }
    ensures err { IfErr result (λ stop. StaysIdle place.old.me place.new.me
        × TriedBy stop (knowledge place.new.table_id place.new.me.0)) }
{
    if !seize(ledger, place) {
        return Err(TryStop::Busy);
    }
    match run(ledger, place, event) {
        Ok(reply) => Ok(reply),
        Err(Stop::NoMemory) => Err(TryStop::NoMemory),
        Err(Stop::HistoryFull) => Err(TryStop::HistoryFull),
    }
}

/// Waits for the turn, and applies the event to the history.
#[tactic(auto, using(crate::proofs::Rests::count_behind))]
pub(crate) fn insist<C: Step, R: Wait>(
    rt: &R,
    ledger: &Ledger<C>,
    place: &mut Place<C>,
    event: Event,
) -> Result<Reply, Stop>
    requires mine { IsOf ledger.now.table_id place.old }
    requires idle { IsIdle place.old.me }
    ensures place { IsSame place.old place.new }
    ensures ok { IfOk result (λ reply. RunsEvent place.old.me event reply place.new.me) }
    ensures err { IfErr result (λ stop. StaysIdle place.old.me place.new.me
        × StoppedBy stop (knowledge place.new.table_id place.new.me.0)) }
{
    wait(rt, ledger, place);
    run(ledger, place, event)
}

/// Makes a place with a number of its own, which has seen what the old one has.
pub(crate) fn fork<C: Step>(ledger: &Ledger<C>, place: &mut Place<C>) -> Place<C>
    requires mine { IsOf ledger.now.table_id place.old }
    ensures old { IsSame place.old place.new × (place.new.me ≡ place.old.me) }
    ensures place { result.table_id ≡ place.old.table_id }
    ensures new { IsForked place.old.me.0 result.me }
{
    let mut next = ledger.split_seat::<Fork>(place);
    ledger.load::<Register>(&mut next, 0);
    next
}

/// Joins two places into one with the numbers of both.
pub(crate) fn unite<C: Step>(ledger: &Ledger<C>, place: &mut Place<C>, other: Place<C>)
    requires mine { IsOf ledger.now.table_id place.old × IsOf ledger.now.table_id other }
    requires idle { IsIdle place.old.me × IsIdle other.me }
    ensures place { IsSame place.old place.new }
    ensures both { Unites place.old.me.0 other.me.0 place.new.me }
{
    ledger.join_seat::<Unite>(place, other);
    ledger.load::<Meet>(place, 0);
}
