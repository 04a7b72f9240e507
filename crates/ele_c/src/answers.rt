//! Calls that only look: what is kept, in numbers and as bytes, and reads straight into the caller's buffer.
ghost use Rattle.std.specs.Prelude.{not, ◌==◌, slice_get};
ghost use Rattle.ele_c.specs.Calls.{Shows, ShowsFound};
ghost use Rattle.ele_c.specs.Stored.{stored};
ghost use Rattle.ele_c.specs.Straight.{ReadsInto};
ghost use Rattle.ele_c_values.specs.Asks.{AsksSource};
ghost use Rattle.ele_c_values.specs.Kept.{bytes_at, kinds, numbers_at};

use crate::handle::Elephant;
use box_parts::Parts;
use ele_c_values::Numbers;
use ele_c_values::asks::source;
use ele_c_values::bytes::bytes_at;
use ele_c_values::codes::{CLOSED, OK};
use ele_c_values::copies::{copy_asked, copy_found};
use ele_c_values::kept::numbers_at;
use ele_c_values::kind::kind_of;
use std::alloc::Global;

/// Copies what is kept of the kind with this number, in numbers.
#[unsafe(no_mangle)]
pub extern "C" fn inner_numbers(
    alloc: Global,
    elephant: &mut Elephant,
    kind: u32,
    index: u64,
    inner: u64,
    into: &mut Numbers,
) -> i32
    ensures { Shows (λ store. numbers_at (slice_get kinds kind) store index inner)
        (stored elephant.old) result (stored elephant.new) into.old into.new }
{
    if !elephant.is_open() {
        return CLOSED;
    }
    let store = elephant.take(alloc).into_box();
    let found = numbers_at(&store, kind_of(kind), index, inner);
    elephant.give(Parts::of(store));
    match found {
        Ok(found) => {
            *into = found;
            OK
        }
        Err(code) => code,
    }
}

/// Copies kept bytes, whole or from the offset on.
#[unsafe(no_mangle)]
pub extern "C" fn inner_bytes(
    alloc: Global,
    elephant: &mut Elephant,
    kind: u32,
    index: u64,
    whole: u32,
    offset: u64,
    into: &mut [u8],
    copied: &mut u64,
) -> i32
    ensures { ShowsFound (λ store. bytes_at store kind index) (not (whole == 0)) offset
        (stored elephant.old) result (stored elephant.new) into.old into.new copied.old
        copied.new }
{
    if !elephant.is_open() {
        return CLOSED;
    }
    let store = elephant.take(alloc).into_box();
    let found = bytes_at(&store, kind, index);
    let code = copy_found(found, whole != 0, offset, into, copied);
    elephant.give(Parts::of(store));
    code
}

/// Copies bytes of a version, or those that a handle reads.
#[unsafe(no_mangle)]
pub extern "C" fn inner_read(
    alloc: Global,
    elephant: &mut Elephant,
    by_handle: u32,
    path: &[u8],
    tag: u32,
    number: u64,
    offset: u64,
    into: &mut [u8],
    length: &mut u64,
    copied: &mut u64,
) -> i32
    ensures { ReadsInto (AsksSource (not (by_handle == 0)) path.now tag number) offset
        (stored elephant.old) result (stored elephant.new) into.old into.new
        (length.old, copied.old) (length.new, copied.new) }
{
    let asked = source(alloc, by_handle != 0, path, tag, number);
    if !elephant.is_open() {
        return CLOSED;
    }
    let store = elephant.take(alloc).into_box();
    let found = copy_asked(&store, &asked, offset, into);
    elephant.give(Parts::of(store));
    match found {
        Ok(found) => {
            *length = found.length;
            *copied = found.count;
            OK
        }
        Err(code) => code,
    }
}
