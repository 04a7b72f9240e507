//! Renewal: fresh numbers for a store, and what the old ones become.
ghost use Rattle.ele_c.specs.Checkpoints.{LooksAcross, Renews};
ghost use Rattle.ele_c.specs.Stored.{stored};
ghost use Rattle.ele_renewal.specs.Across.{directory_across, file_across, version_across};

use crate::handle::Elephant;
use box_parts::Parts;
use ele_c_values::codes::{CLOSED, NO_MEMORY, NO_RESULT, OK, renewal_code};
use ele_model::{DirId, FileId, VersionNo};
use std::alloc::Global;

/// Gives the store fresh numbers.
#[unsafe(no_mangle)]
pub extern "C" fn elephant_renew(alloc: Global, elephant: &mut Elephant) -> i32
    ensures { Renews (stored elephant.old) result (stored elephant.new) }
{
    if !elephant.is_open() {
        return CLOSED;
    }
    let mut store = elephant.take(alloc).into_box();
    let renewed = store.renew();
    elephant.give(Parts::of(store));
    match renewed {
        Ok(()) => OK,
        Err(error) => renewal_code(error),
    }
}

/// Returns the number that a directory will have after a renewal.
#[unsafe(no_mangle)]
pub extern "C" fn elephant_directory_across(
    alloc: Global,
    elephant: &mut Elephant,
    directory: u64,
    fresh: &mut u64,
) -> i32
    ensures { LooksAcross (λ w. directory_across w directory) (stored elephant.old) result
        (stored elephant.new) fresh.old fresh.new }
{
    if !elephant.is_open() {
        return CLOSED;
    }
    let store = elephant.take(alloc).into_box();
    let found = store.directory_across(DirId(directory));
    elephant.give(Parts::of(store));
    match found {
        Ok(Some(id)) => {
            *fresh = id.0;
            OK
        }
        Ok(None) => NO_RESULT,
        Err(_) => NO_MEMORY,
    }
}

/// Returns the number that a file will have after a renewal.
#[unsafe(no_mangle)]
pub extern "C" fn elephant_file_across(
    alloc: Global,
    elephant: &mut Elephant,
    file: u64,
    fresh: &mut u64,
) -> i32
    ensures { LooksAcross (λ w. file_across w file) (stored elephant.old) result
        (stored elephant.new) fresh.old fresh.new }
{
    if !elephant.is_open() {
        return CLOSED;
    }
    let store = elephant.take(alloc).into_box();
    let found = store.file_across(FileId(file));
    elephant.give(Parts::of(store));
    match found {
        Ok(Some(id)) => {
            *fresh = id.0;
            OK
        }
        Ok(None) => NO_RESULT,
        Err(_) => NO_MEMORY,
    }
}

/// Returns the number that a version of a file will have after a renewal.
#[unsafe(no_mangle)]
pub extern "C" fn elephant_version_across(
    alloc: Global,
    elephant: &mut Elephant,
    file: u64,
    version: u64,
    fresh: &mut u64,
) -> i32
    ensures { LooksAcross (λ w. version_across w file version) (stored elephant.old) result
        (stored elephant.new) fresh.old fresh.new }
{
    if !elephant.is_open() {
        return CLOSED;
    }
    let store = elephant.take(alloc).into_box();
    let found = store.version_across(FileId(file), VersionNo(version));
    elephant.give(Parts::of(store));
    match found {
        Ok(Some(number)) => {
            *fresh = number.0;
            OK
        }
        Ok(None) => NO_RESULT,
        Err(_) => NO_MEMORY,
    }
}
