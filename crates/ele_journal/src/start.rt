//! How a journal begins: its head, and the checkpoint with its length.
//! A contract sees the flat world, and bytes.
ghost use Rattle.std.specs.Prelude.{◌≡◌, ◌↔◌, ◌-◌, ◌<◌, ◌≤◌, ◌^◌, ◌++◌, List, ℕ, Err, IfErr, IfOk, IsTrue, drop, length, take};
ghost use Rattle.std.specs.Int.{from_be_bytes, to_be_bytes, w64};
ghost use Rattle.ele_journal.specs.Journal.{first_check, framed, head, start};
ghost use Rattle.ele_journal.specs.Recovered.{IsUnread};

use crate::change::{Added, Check};
use crate::fault::RecoverError;
use ele_checkpoint::write;
use ele_model::Flat;
use ele_moment::NoMemory;
use std::alloc::Global;

// How each journal begins.
const HEAD: [u8; 17] = *b"ELEPHANT JOURNAL\x02";

/// Returns the bytes of a journal without changes, and the check that its first change follows.
///
/// `NoMemory` if memory is refused.
/// Cost: that of a checkpoint, which it copies.
#[tactic(auto, using(crate::proofs::Starts::last_is))]
pub fn begin(alloc: Global, flat: &Flat) -> Result<Added, NoMemory>
    ensures bytes { IfOk result (λ added. added.bytes.items ≡ start flat.entry.now) }
    ensures check { IfOk result (λ added. added.check ≡ first_check flat.entry.now) }
{
    let checkpoint = write(alloc, flat)?;
    let mut bytes = Vec::new(alloc);
    bytes.extend_from_slice(&HEAD)?;
    bytes.extend_from_slice(&(checkpoint.len() as u64).to_be_bytes())?;
    bytes.extend_from_slice(&checkpoint)?;
    let check = last_four(&checkpoint);
    Ok(Added { bytes, check })
}

// The last four bytes.
fn last_four(bytes: &[u8]) -> Check
    requires { 4 ≤ length bytes.now }
    ensures { result ≡ drop (length bytes.now - 4) bytes.now }
{
    let (_, end) = bytes.split_at(bytes.len() - 4);
    first_four(end)
}

/// Returns the first four bytes.
pub(crate) fn first_four(bytes: &[u8]) -> Check
    requires { 4 ≤ length bytes.now }
    ensures { result ≡ take 4 bytes.now }
{
    let (front, _) = bytes.split_at(4);
    let mut four = [0; 4];
    four.copy_from_slice(front);
    four
}

/// Returns the number in the first eight bytes, the highest first.
pub(crate) fn number_in(bytes: &[u8]) -> u64
    requires { 8 ≤ length bytes.now }
    ensures { to_be_bytes w64 result ≡ take 8 bytes.now }
{
    from_eight(bytes)
}

// The same, by how numbers are read.
fn from_eight(bytes: &[u8]) -> u64
    requires { 8 ≤ length bytes.now }
    ensures { result ≡ from_be_bytes w64 (take 8 bytes.now) }
{
    let (front, _) = bytes.split_at(8);
    u64::from_be_bytes([
        front[0], front[1], front[2], front[3], front[4], front[5], front[6], front[7],
    ])
}

/// Returns the checkpoint of a journal, and the bytes after it.
pub(crate) fn start_of(bytes: &[u8]) -> Result<(&[u8], &[u8]), RecoverError>
    ensures found { IfOk result (λ x. bytes.now ≡ framed x.0.now ++ x.1.now) }
    ensures none { IfErr result (λ _. (checkpoint after : List ℕ) → length checkpoint < 2 ^ 64
        → bytes.now ≡ framed checkpoint ++ after → ⊥) }
    ensures why { IfErr result (IsUnread bytes.now) }
    ensures cut { (checkpoint more : List ℕ) → length checkpoint < 2 ^ 64
        → bytes.now ++ more ≡ framed checkpoint → length bytes.now < length (framed checkpoint)
        → result ≡ Err RecoverError.Cut }
{
    let rest = taken!(headed(bytes));
    if rest.len() < 8 {
        return Err(RecoverError::Cut);
    }
    let size = number_in(rest);
    let (_, rest) = rest.split_at(8);
    if (rest.len() as u64) < size {
        return Err(RecoverError::Cut);
    }
    Ok(rest.split_at(size as usize))
}

// Checks how the bytes begin, and returns those after the head.
fn headed(bytes: &[u8]) -> Result<&[u8], RecoverError>
    ensures found { IfOk result (λ rest. bytes.now ≡ head ++ rest.now) }
    ensures none { IfErr result (λ _. (rest : List ℕ) → bytes.now ≡ head ++ rest → ⊥) }
    ensures why { IfErr result (IsUnread bytes.now) }
    ensures cut { (more rest : List ℕ) → bytes.now ++ more ≡ head ++ rest → length bytes.now < 17
        → result ≡ Err RecoverError.Cut }
{
    if bytes.len() < HEAD.len() {
        return Err(RecoverError::Cut);
    }
    if !bytes.starts_with(HEAD.as_slice()) {
        return Err(RecoverError::Head);
    }
    Ok(&bytes[HEAD.len()..])
}
