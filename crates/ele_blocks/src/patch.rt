//! The bytes that a change of a content puts into its slots.
//! A contract sees lists of bytes.
ghost use Rattle.std.specs.Prelude.{◌≡◌, ℕ, ◌<◌, ◌+◌, ◌^◌, IfOk, List, length};
ghost use Rattle.ele_content.specs.Content.{content_after_write, slot_bytes};
ghost use Rattle.ele_blocks.specs.Pieces.{pieces};

use crate::block::Block;
use crate::slot::SLOT;
use ele_moment::NoMemory;
use std::alloc::Global;

// The old bytes with new ones written over them from the offset on. If the old bytes end before the
// offset, zeros fill the gap.
fn spliced(alloc: Global, old: &[u8], offset: usize, bytes: &[u8]) -> Result<Vec<u8>, NoMemory>
    requires { offset + length bytes.now < 2 ^ 64 }
    ensures { IfOk result (λ new. new.items ≡ content_after_write old.now offset bytes.now) }
{
    let mut new = Vec::with_capacity(alloc, old.len().max(offset + bytes.len()))?;
    new.extend_from_slice(&old[..offset.min(old.len())])?;
    new.resize(offset, 0)?;
    new.extend_from_slice(bytes)?;
    if offset + bytes.len() < old.len() {
        new.extend_from_slice(&old[offset + bytes.len()..])?;
    }
    Ok(new)
}

/// Returns a slot's bytes after a write of the bytes from the offset on: the part that falls into
/// the slot is written over its old bytes.
#[tactic(auto, using(crate::proofs::Cited::patched))]
pub fn patched(
    alloc: Global,
    old: &[u8],
    slot: usize,
    offset: usize,
    bytes: &[u8],
) -> Result<Block, NoMemory>
    requires small { slot < 2 ^ 32 }
    requires fits { offset + length bytes.now < 2 ^ 32 }
    ensures { (content : List ℕ) → old.now ≡ slot_bytes content slot → IfOk result (λ new.
        new ≡ slot_bytes (content_after_write content offset bytes.now) slot) }
{
    let at = SLOT * slot;
    let start = offset.saturating_sub(at).min(SLOT);
    let from = at.saturating_sub(offset).min(bytes.len());
    let past = (at + SLOT).saturating_sub(offset).min(bytes.len());
    let new = spliced(alloc, old, start, &bytes[from..past])?;
    Ok(Block::from_vec(new))
}

/// Cuts the bytes into pieces of 512; the last piece may be shorter.
#[tactic(auto, using(crate::proofs::Cited::chunk_next, crate::proofs::Cited::append_assoc, crate::proofs::Cited::length_drop), unfolding(crate::specs::Pieces::pieces))]
pub fn pieces(alloc: Global, all: &[u8]) -> Result<Vec<Block>, NoMemory>
    ensures { IfOk result (λ cut. cut.items ≡ pieces all.now) }
{
    let count = all.len().div_ceil(SLOT);
    let mut cut = Vec::with_capacity(alloc, count)?;
    let mut rest = all;
    for _ in 0..count {
        let (piece, more) = rest.split_at(rest.len().min(SLOT));
        cut.push(Block::from_slice(alloc, piece)?)?;
        rest = more;
    }
    Ok(cut)
}
