//! Opening and closing.
ghost use Rattle.std.specs.Prelude.{◌≡◌, None, IfOk, not, ◌==◌, if◌then◌else◌};
ghost use Rattle.ele_c.specs.Calls.{OpensWith};
ghost use Rattle.ele_c.specs.Stored.{stored};
ghost use Rattle.ele_embed.specs.Embedding.{fresh_plain, fresh_recorded};

use crate::handle::Elephant;
use box_parts::Parts;
use ele_c_values::LimitFields;
use ele_c_values::codes::{BAD_LIMITS, NO_MEMORY, OK, OPENED};
use ele_c_values::limits::limits_of;
use ele_embed::Store;
use ele_model::{Limits, NoMemory};
use std::alloc::Global;

/// Opens a fresh store with the limits, and with its history or without.
#[unsafe(no_mangle)]
pub extern "C" fn elephant_open(
    alloc: Global,
    elephant: &mut Elephant,
    limits: &LimitFields,
    history: u32,
) -> i32
    ensures { OpensWith limits.now (not (history == 0)) (stored elephant.old) result
        (stored elephant.new) }
{
    let limits = limits_of(limits);
    if elephant.is_open() {
        return OPENED;
    }
    let Some(limits) = limits else {
        return BAD_LIMITS;
    };
    match boxed_store(alloc, limits, history != 0) {
        Ok(store) => {
            elephant.give(Parts::of(store));
            OK
        }
        Err(_) => NO_MEMORY,
    }
}

/// Drops the store.
#[unsafe(no_mangle)]
pub extern "C" fn elephant_close(alloc: Global, elephant: &mut Elephant)
    ensures { stored elephant.new ≡ None }
{
    if elephant.is_open() {
        drop(elephant.take(alloc).into_box());
    }
}

// Makes a fresh store on the heap.
fn boxed_store(alloc: Global, limits: Limits, has_history: bool) -> Result<Box<Store>, NoMemory>
    ensures { IfOk result (λ store. store.value
        ≡ (if has_history then fresh_recorded limits else fresh_plain limits)) }
{
    let store = fresh_store(alloc, limits, has_history)?;
    Ok(Box::new(alloc, store)?)
}

// Makes a fresh store.
fn fresh_store(alloc: Global, limits: Limits, has_history: bool) -> Result<Store, NoMemory>
    ensures { IfOk result (λ store. store
        ≡ (if has_history then fresh_recorded limits else fresh_plain limits)) }
{
    if has_history {
        Store::recorded(alloc, limits)
    } else {
        Store::plain(alloc, limits)
    }
}
