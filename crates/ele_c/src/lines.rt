//! Lines of the script language, and the texts of answers.
ghost use Rattle.ele_c.specs.Calls.{RunsLine, TellsAgain};
ghost use Rattle.ele_c.specs.Stored.{stored};

use crate::handle::Elephant;
use box_parts::Parts;
use ele_c_values::codes::{CLOSED, OK, UNTOLD};
use std::alloc::Global;

/// Runs a line, and makes the text of its answer.
#[unsafe(no_mangle)]
pub extern "C" fn elephant_line(
    alloc: Global,
    elephant: &mut Elephant,
    line: &[u8],
    length: &mut u64,
) -> i32
    ensures { RunsLine line.now (stored elephant.old) result (stored elephant.new) length.old
        length.new }
{
    if !elephant.is_open() {
        return CLOSED;
    }
    let mut store = elephant.take(alloc).into_box();
    let told = store.line(line);
    let count = store.answer().len() as u64;
    elephant.give(Parts::of(store));
    match told {
        Ok(()) => {
            *length = count;
            OK
        }
        Err(_) => UNTOLD,
    }
}

/// Makes the text of the last call's answer.
#[unsafe(no_mangle)]
pub extern "C" fn elephant_tell(alloc: Global, elephant: &mut Elephant, length: &mut u64) -> i32
    ensures { TellsAgain (stored elephant.old) result (stored elephant.new) length.old
        length.new }
{
    if !elephant.is_open() {
        return CLOSED;
    }
    let mut store = elephant.take(alloc).into_box();
    let told = store.tell();
    let count = store.answer().len() as u64;
    elephant.give(Parts::of(store));
    match told {
        Ok(()) => {
            *length = count;
            OK
        }
        Err(_) => UNTOLD,
    }
}
