//! Checkpoints: a store taken out as bytes, and opened from bytes.
ghost use Rattle.std.specs.Prelude.{not, ◌≡◌, ◌==◌, pos, IfErr, IfOk};
ghost use Rattle.ele_c.specs.Checkpoints.{OpensFrom, TakesOut};
ghost use Rattle.ele_c.specs.Stored.{stored};
ghost use Rattle.ele_c_values.specs.Codes.{checkpoint_code};
ghost use Rattle.ele_embed.specs.Checkpoints.{IsNotPutBack, PutsBack, begun};

use crate::handle::Elephant;
use box_parts::Parts;
use ele_c_values::codes::{CLOSED, NO_MEMORY, OK, OPENED, checkpoint_code};
use ele_embed::{CheckpointError, Store};
use ele_model::Stop;
use std::alloc::Global;

/// Makes the text the checkpoint of the store.
#[unsafe(no_mangle)]
pub extern "C" fn elephant_checkpoint(
    alloc: Global,
    elephant: &mut Elephant,
    length: &mut u64,
) -> i32
    ensures { TakesOut (stored elephant.old) result (stored elephant.new) length.old length.new }
{
    if !elephant.is_open() {
        return CLOSED;
    }
    let mut store = elephant.take(alloc).into_box();
    let made = store.checkpoint();
    let count = store.answer().len() as u64;
    elephant.give(Parts::of(store));
    match made {
        Ok(()) => {
            *length = count;
            OK
        }
        Err(_) => NO_MEMORY,
    }
}

/// Opens the store that the bytes are the checkpoint of, with a history that begins there or without.
#[unsafe(no_mangle)]
pub extern "C" fn elephant_open_checkpoint(
    alloc: Global,
    elephant: &mut Elephant,
    bytes: &[u8],
    history: u32,
) -> i32
    ensures { OpensFrom bytes.now (not (history == 0)) (stored elephant.old) result
        (stored elephant.new) }
{
    if elephant.is_open() {
        return OPENED;
    }
    match boxed_store(alloc, bytes, history != 0) {
        Ok(store) => {
            elephant.give(Parts::of(store));
            OK
        }
        Err(error) => checkpoint_code(error),
    }
}

// Makes the store of a checkpoint on the heap.
fn boxed_store(
    alloc: Global,
    bytes: &[u8],
    has_history: bool,
) -> Result<Box<Store>, CheckpointError>
    ensures ok { IfOk result (λ store. PutsBack bytes.now (begun has_history) store.value) }
    ensures err { IfErr result (IsNotPutBack bytes.now has_history) }
{
    let store = store_of(alloc, bytes, has_history)?;
    match Box::new(alloc, store) {
        Ok(store) => Ok(store),
        Err(_) => Err(CheckpointError::Stop(Stop::NoMemory)),
    }
}

// Makes the store of a checkpoint.
fn store_of(alloc: Global, bytes: &[u8], has_history: bool) -> Result<Store, CheckpointError>
    ensures ok { IfOk result (PutsBack bytes.now (begun has_history)) }
    ensures err { IfErr result (IsNotPutBack bytes.now has_history) }
{
    if has_history {
        Store::recorded_from_checkpoint(alloc, bytes)
    } else {
        Store::plain_from_checkpoint(alloc, bytes)
    }
}
