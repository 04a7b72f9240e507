//! Numbers in a variable width, each with one spelling.
//! A contract sees a number, and bytes.
ghost use Rattle.std.specs.Prelude.{◌≡◌, ◌<◌, ◌≤◌, ◌++◌, OnOk};
ghost use Rattle.ele_checkpoint.specs.Number.{digits, number_text};
ghost use Rattle.ele_checkpoint.specs.PartsRead.{digits_at, joined, number_at, top};
ghost use Rattle.ele_checkpoint.specs.Reading.{Gives};

use crate::fault::{Flaw, Stop, wrong};
use ele_moment::NoMemory;

// The largest number that the bytes after a first one may stand for.
const MOST_HIGH: u64 = 144115188075855871;

/// Adds the bytes of a number.
pub fn put_number(out: &mut Vec<u8>, n: u64) -> Result<(), NoMemory>
    ensures { OnOk result (out.new.items ≡ out.old.items ++ number_text n) }
{
    put_digits(out, 9, n)
}

// Adds the bytes of a number that takes at most so many bytes and one more.
fn put_digits(out: &mut Vec<u8>, more: u32, n: u64) -> Result<(), NoMemory>
    requires { n < top more }
    ensures { OnOk result (out.new.items ≡ out.old.items ++ digits more n) }
{
    if n < 128 {
        out.push(n as u8)?;
        return Ok(());
    }
    out.push((n % 128 + 128) as u8)?;
    put_digits(out, more - 1, n / 128)
}

/// Reads a number. The bytes after it follow in the result.
pub fn number_of(bytes: &[u8]) -> Result<(u64, &[u8]), Stop>
    ensures { Gives (λ x. (x.0, x.1.now)) result (number_at bytes.now) }
{
    digits_of(9, bytes)
}

// Reads a number that takes at most so many bytes and one more.
fn digits_of(more: u32, bytes: &[u8]) -> Result<(u64, &[u8]), Stop>
    ensures { Gives (λ x. (x.0, x.1.now)) result (digits_at more bytes.now) }
{
    let Some((first, rest)) = bytes.split_first() else {
        return Err(wrong(bytes, Flaw::Short));
    };
    if *first < 128 {
        return Ok((*first as u64, rest));
    }
    if more == 0 {
        return Err(wrong(bytes, Flaw::TooLarge));
    }
    let (high, after) = digits_of(more - 1, rest)?;
    joined(*first, bytes, high, after)
}

// The number of a first byte and of the bytes after it.
fn joined<'a>(
    first: u8,
    bytes: &'a [u8],
    high: u64,
    after: &'a [u8],
) -> Result<(u64, &'a [u8]), Stop>
    requires { 128 ≤ first }
    ensures { Gives (λ x. (x.0, x.1.now)) result (joined first bytes.now (high, after.now)) }
{
    if high == 0 {
        return Err(wrong(bytes, Flaw::Padded));
    }
    if high > MOST_HIGH {
        return Err(wrong(bytes, Flaw::TooLarge));
    }
    Ok(((first as u64 - 128) + 128 * high, after))
}
