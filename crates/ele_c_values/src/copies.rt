//! Copies into the caller's buffer.
ghost use Rattle.std.specs.Result.{result_map_both};
ghost use Rattle.ele_c_values.specs.Copies.{CopiesAsked, CopiesFound, CopiesPiece};

use crate::codes::{NO_ROOM, OK};
use ele_embed::{Copied, Store};
use ele_model::Source;
use ele_script::LineFault;

// Copies the bytes from the offset on, as many as fit, and returns how many.
fn copy_piece(bytes: &[u8], offset: u64, into: &mut [u8]) -> u64
    ensures { CopiesPiece bytes.now offset into.old into.new result }
{
    if offset >= bytes.len() as u64 {
        return 0;
    }
    let (_, rest) = bytes.split_at(offset as usize);
    let count = rest.len().min(into.len());
    into[..count].copy_from_slice(&rest[..count]);
    count as u64
}

/// Copies the bytes from the offset on, or returns the code. `NO_ROOM` if they are wanted whole and don't
/// fit.
pub fn copy_found(
    found: Result<&[u8], i32>,
    whole: bool,
    offset: u64,
    into: &mut [u8],
    copied: &mut u64,
) -> i32
    ensures { CopiesFound (result_map_both (λ bytes. bytes.now) (λ code. code) found.entry) whole
        offset into.old into.new copied.old copied.new result }
{
    match found {
        Ok(bytes) => {
            if whole && bytes.len() > into.len() {
                return NO_ROOM;
            }
            *copied = copy_piece(bytes, offset, into);
            OK
        }
        Err(code) => code,
    }
}

/// Copies what is read, or returns the code.
pub fn copy_asked(
    store: &Store,
    asked: &Result<Source, LineFault>,
    offset: u64,
    into: &mut [u8],
) -> Result<Copied, i32>
    ensures { CopiesAsked store.now.state asked.now offset into.old into.new result }
{
    match asked {
        Ok(source) => match store.copy(source, offset, into) {
            Ok(copied) => Ok(copied),
            Err(refusal) => Err(refusal.number() as i32),
        },
        Err(fault) => Err(fault.number() as i32),
    }
}
