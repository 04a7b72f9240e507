//! The length and the sum at the end of a checkpoint.
//! A contract sees bytes.
ghost use Rattle.std.specs.Prelude.{◌≡◌, ◌↔◌, List, ℕ, IfErr, IfOk, IsTrue, OnOk};
ghost use Rattle.ele_checkpoint.specs.Checkpoint.{sealed};

use crate::fault::{Flaw, Stop, wrong};
use crate::sum::crc32c;
use ele_moment::NoMemory;

// How many bytes the length and the sum take.
const SEAL: usize = 12;

/// Adds the length and the sum.
pub(crate) fn seal(out: &mut Vec<u8>) -> Result<(), NoMemory>
    ensures { OnOk result (out.new.items ≡ sealed out.old.items) }
{
    let Some(length) = (out.len() as u64).checked_add(SEAL as u64) else {
        return Err(NoMemory);
    };
    out.extend_from_slice(&length.to_be_bytes())?;
    let sum = crc32c(out);
    out.extend_from_slice(&sum.to_be_bytes())?;
    Ok(())
}

/// Checks the length and the sum, and returns the bytes before them.
pub(crate) fn unsealed(bytes: &[u8]) -> Result<&[u8], Stop>
    ensures found { IfOk result (λ body. bytes.now ≡ sealed body.now) }
    ensures none { IfErr result (λ _. (body : List ℕ) → bytes.now ≡ sealed body → ⊥) }
{
    if bytes.len() < SEAL {
        return Err(wrong(bytes, Flaw::Short));
    }
    let (body, end) = bytes.split_at(bytes.len() - SEAL);
    let (length, sum) = end.split_at(8);
    let wanted = (bytes.len() as u64).to_be_bytes();
    if !is_same(length, &wanted) {
        return Err(wrong(end, Flaw::Length));
    }
    let (measured, _) = bytes.split_at(bytes.len() - 4);
    let found = crc32c(measured).to_be_bytes();
    if !is_same(sum, &found) {
        return Err(wrong(sum, Flaw::Sum));
    }
    Ok(body)
}

// Whether the bytes are the same.
fn is_same(a: &[u8], b: &[u8]) -> bool
    ensures { IsTrue result ↔ (a.now ≡ b.now) }
{
    a == b
}
