//! Events and changes that are answered one after the other. A contract sees the state after them.
ghost use Rattle.std.specs.Prelude.{◌≡◌, IfErr, OnOk, true};
ghost use Rattle.ele_history.specs.Past.{recorded};
ghost use Rattle.ele_keeper.specs.Kept.{state_of};
ghost use Rattle.ele_keeper.specs.Replays.{after_changes, after_event, after_events};
ghost use Rattle.ele_model.specs.Step.{step};
ghost use Rattle.ele_runs.specs.Kept.{has_past};

use crate::keeper::Keeper;
use ele_core::Core;
use ele_history::History;
use ele_journal::Change;
use ele_journaled::copy_of;
use ele_model::{Event, Stop};
use std::alloc::Global;

/// Makes changes, one after the other: answers the events of each. In a history each is an entry.
///
/// `Stop` for memory, or with `HistoryFull` if the limits of a history allow fewer entries. Then only some
/// events were answered.
/// Cost: that of answering each event.
pub fn replay(alloc: Global, keeper: &mut Keeper, changes: &[Change]) -> Result<(), Stop>
    ensures ok { OnOk result
        (state_of keeper.new ≡ after_changes (state_of keeper.old) changes.now) }
    ensures err { IfErr result (λ stop. stop ≡ Stop.HistoryFull
        → has_past (state_of keeper.old) ≡ true) }
{
    for change in changes {
        run(alloc, keeper, change.as_slice())?;
    }
    Ok(())
}

// Answers events, one after the other.
fn run(alloc: Global, keeper: &mut Keeper, events: &[Event]) -> Result<(), Stop>
    ensures ok { OnOk result
        (state_of keeper.new ≡ after_events (state_of keeper.old) events.now) }
    ensures err { IfErr result (λ stop. stop ≡ Stop.HistoryFull
        → has_past (state_of keeper.old) ≡ true) }
    ensures past { has_past (state_of keeper.new) ≡ has_past (state_of keeper.old) }
{
    for event in events {
        answer(alloc, keeper, event)?;
    }
    Ok(())
}

// Answers an event.
fn answer(alloc: Global, keeper: &mut Keeper, event: &Event) -> Result<(), Stop>
    ensures ok { OnOk result
        (state_of keeper.new ≡ after_event (state_of keeper.old) event.now) }
    ensures err { IfErr result (λ stop. stop ≡ Stop.HistoryFull
        → has_past (state_of keeper.old) ≡ true) }
    ensures past { has_past (state_of keeper.new) ≡ has_past (state_of keeper.old) }
{
    match keeper {
        Keeper::Plain(core, _) => apply(core, event),
        Keeper::Recorded(history) => record(alloc, history, event),
    }
}

// Answers an event without a history.
fn apply(core: &mut Core, event: &Event) -> Result<(), Stop>
    ensures ok { OnOk result (core.new.world ≡ (step core.old.world event.now).1) }
    ensures err { IfErr result (λ stop. stop ≡ Stop.NoMemory) }
{
    match core.apply(event) {
        Ok(_) => Ok(()),
        Err(_) => Err(Stop::NoMemory),
    }
}

// Answers an event in a history, with a copy of it.
fn record(alloc: Global, history: &mut History<Core>, event: &Event) -> Result<(), Stop>
    ensures { OnOk result (history.new ≡ recorded history.old event.now) }
{
    let Ok(event) = copy_of(alloc, event) else {
        return Err(Stop::NoMemory);
    };
    match history.record(event) {
        Ok(_) => Ok(()),
        Err(stop) => Err(stop),
    }
}
