//! Calls that run or ask something.
ghost use Rattle.ele_c.specs.Calls.{Calls, Folded, GivesNumber, MadePass, RunsOn, ToldAhead, WhyOn};
ghost use Rattle.ele_c.specs.Stored.{stored};
ghost use Rattle.ele_c_values.specs.Call.{AsksNumbered, call_at};

use crate::handle::Elephant;
use box_parts::Parts;
use ele_c_values::asks::{self, tagged};
use ele_c_values::call::call_of;
use ele_c_values::codes::{CLOSED, NO_HISTORY, OK, code_of, number_of};
use ele_c_values::event::event;
use ele_embed::Store;
use std::alloc::Global;

/// Runs the event of the call with this number, and returns the number in its reply.
#[unsafe(no_mangle)]
pub extern "C" fn inner_event(
    alloc: Global,
    elephant: &mut Elephant,
    call: u32,
    first: &[u8],
    second: &[u8],
    tag: u32,
    number: u64,
    other: u64,
    value: &mut u64,
) -> i32
    ensures ran { RunsOn (AsksNumbered (call_at call) first.now second.now tag number other)
        (stored elephant.old) result (stored elephant.new) }
    ensures number { GivesNumber result (stored elephant.new) value.old value.new }
{
    let asked = event(alloc, call_of(call), first, second, tag, number, other);
    if !elephant.is_open() {
        return CLOSED;
    }
    let mut store = elephant.take(alloc).into_box();
    store.run(asked);
    let code = code_of(&store);
    if code == OK {
        *value = number_of(&store);
    }
    elephant.give(Parts::of(store));
    code
}

/// Asks why a version is held or due, and which mark held one that is due.
#[unsafe(no_mangle)]
pub extern "C" fn inner_why(
    alloc: Global,
    elephant: &mut Elephant,
    path: &[u8],
    tag: u32,
    number: u64,
) -> i32
    ensures { WhyOn path.now tag number (stored elephant.old) result (stored elephant.new) }
{
    let asked = tagged(alloc, path, tag, number);
    if !elephant.is_open() {
        return CLOSED;
    }
    let mut store = elephant.take(alloc).into_box();
    store.why(asked);
    let code = code_of(&store);
    elephant.give(Parts::of(store));
    code
}

/// Lists the versions that will be due at a moment.
#[unsafe(no_mangle)]
pub extern "C" fn elephant_ahead(
    alloc: Global,
    elephant: &mut Elephant,
    moment: u64,
    rows: &mut u64,
) -> i32
    ensures told { Calls (stored elephant.old) (ToldAhead moment result) result
        (stored elephant.new) }
    ensures number { GivesNumber result (stored elephant.new) rows.old rows.new }
{
    if !elephant.is_open() {
        return CLOSED;
    }
    let mut store = elephant.take(alloc).into_box();
    store.ahead(asks::moment(moment));
    let code = code_of(&store);
    if code == OK {
        *rows = number_of(&store);
    }
    elephant.give(Parts::of(store));
    code
}

/// Removes due versions, as many as the budget says.
#[unsafe(no_mangle)]
pub extern "C" fn inner_pass(alloc: Global, elephant: &mut Elephant, budget: u64) -> i32
    ensures { Calls (stored elephant.old) (MadePass budget result) result (stored elephant.new) }
{
    if !elephant.is_open() {
        return CLOSED;
    }
    let mut store = elephant.take(alloc).into_box();
    store.pass(budget);
    let code = code_of(&store);
    elephant.give(Parts::of(store));
    code
}

/// Folds the history.
#[unsafe(no_mangle)]
pub extern "C" fn elephant_trim(alloc: Global, elephant: &mut Elephant, folded: &mut u64) -> i32
    ensures folds { Calls (stored elephant.old) (Folded result) result (stored elephant.new) }
    ensures number { GivesNumber result (stored elephant.new) folded.old folded.new }
{
    if !elephant.is_open() {
        return CLOSED;
    }
    let mut store = elephant.take(alloc).into_box();
    let code = fold(&mut store);
    if code == OK {
        *folded = number_of(&store);
    }
    elephant.give(Parts::of(store));
    code
}

// Folds the history, and returns the code.
fn fold(store: &mut Store) -> i32
    ensures { Folded result store.old store.new }
{
    if store.trim() {
        return code_of(store);
    }
    NO_HISTORY
}
