//! A checkpoint: the bytes of a whole world.
//! A contract sees the flat world, and the list of the bytes.
ghost use Rattle.std.specs.Prelude.{◌≡◌, ◌≤◌, ◌++◌, List, ℕ, length, IfErr, IfOk, Ok};
ghost use Rattle.ele_model.specs.declared.flat.Flat.{Flat};
ghost use Rattle.ele_checkpoint.specs.Checkpoint.{IsRead, checkpoint, head, sealed};
ghost use Rattle.ele_checkpoint.specs.PartsRead.{IsGiven, IsTold, all_at};
ghost use Rattle.ele_checkpoint.specs.Fits.{IsFlat};
ghost use Rattle.ele_checkpoint.specs.Reading.{Gives};
ghost use Rattle.ele_checkpoint.specs.Whole.{whole_text};

use crate::fault::{Fault, Flaw, ReadError, Stop, wrong};
use crate::seal::{seal, unsealed};
use crate::whole::{put_whole, whole_of};
use ele_model::Flat;
use ele_moment::NoMemory;
use std::alloc::Global;

// How each checkpoint begins.
const HEAD: [u8; 9] = *b"ELEPHANT\x01";

const NAME: usize = 8;

/// Returns the bytes of a world. Each world has its own bytes, and `read` returns it from them.
///
/// `NoMemory` if memory is refused.
/// Cost: grows with the bytes of all cells, which it compares or copies, and for each draft with
/// the versions from the file's last one on.
pub fn write(alloc: Global, flat: &Flat) -> Result<Vec<u8>, NoMemory>
    ensures { IfOk result (λ bytes. bytes.items ≡ checkpoint flat.entry.now) }
{
    let mut out = Vec::new(alloc);
    out.extend_from_slice(&HEAD)?;
    put_whole(&mut out, flat)?;
    seal(&mut out)?;
    Ok(out)
}

/// Returns the world of a checkpoint's bytes.
///
/// `NoMemory` if memory is refused, and else the first fault of bytes that are no checkpoint. The
/// length and the sum at the end are checked before any row is read. It takes memory for the rows
/// and for the bytes of each cell anew, so a row that keeps cells of the one before it takes more
/// memory than bytes; no number in the bytes makes it take memory for rows or cells that it hasn't
/// read.
/// Cost: grows with the bytes of all cells of the world.
pub fn read(alloc: Global, bytes: &[u8]) -> Result<Flat, ReadError>
    // What is read has these bytes.
    ensures found { IfOk result (λ flat. bytes.now ≡ checkpoint flat) }
    // What has these bytes is read, unless memory is refused.
    ensures only { (flat : Flat) → IsFlat flat → bytes.now ≡ checkpoint flat → IsRead flat result }
    // No other world's checkpoint begins with these bytes, or is what they begin with.
    ensures alone { IfOk result (λ found. (flat : Flat) (after more : List ℕ) → IsFlat flat
        → bytes.now ++ after ≡ checkpoint flat ++ more → found ≡ flat) }
{
    let body = match begun(bytes) {
        Ok(body) => body,
        Err(stop) => return Err(told(bytes.len(), stop)),
    };
    match inside(alloc, body) {
        Ok(flat) => Ok(flat),
        Err(stop) => Err(told(body.len(), stop)),
    }
}

/// Writes a world and reads it again. Its contract is the law that this returns the world.
///
/// `NoMemory` if memory is refused.
/// Cost: that of `write` and of `read`.
pub fn read_back(alloc: Global, flat: &Flat) -> Result<Flat, ReadError>
    ensures { IsFlat flat.entry.now → IsRead flat.entry.now result }
{
    match write(alloc, flat) {
        Ok(bytes) => read(alloc, &bytes),
        Err(_) => Err(ReadError::NoMemory),
    }
}

/// Reads a checkpoint and writes it again. Its contract is the law that this returns the same bytes.
///
/// `NoMemory` if memory is refused, and else the fault of `read`.
/// Cost: that of `read` and of `write`.
pub fn write_back(alloc: Global, bytes: &[u8]) -> Result<Vec<u8>, ReadError>
    ensures { IfOk result (λ again. again.items ≡ bytes.now) }
{
    match read(alloc, bytes) {
        Ok(flat) => match write(alloc, &flat) {
            Ok(again) => Ok(again),
            Err(_) => Err(ReadError::NoMemory),
        },
        Err(fault) => Err(fault),
    }
}

// Checks how the bytes begin, and their length and sum at the end. It returns the bytes before the
// end.
fn begun(bytes: &[u8]) -> Result<&[u8], Stop>
    ensures found { IfOk result (λ body. bytes.now ≡ sealed body.now) }
    ensures none { IfErr result
        (λ _. (rest : List ℕ) → bytes.now ≡ sealed (head ++ rest) → ⊥) }
{
    headed(bytes)?;
    unsealed(bytes)
}

// Reads a world between the head and the end of the bytes.
fn inside(alloc: Global, body: &[u8]) -> Result<Flat, Stop>
    ensures found { IfOk result (λ flat. body.now ≡ head ++ whole_text flat) }
    ensures only { (flat : Flat) → IsFlat flat → body.now ≡ head ++ whole_text flat → IsGiven flat result }
    ensures alone { IfOk result (λ found. (flat : Flat) (after more : List ℕ) → IsFlat flat
        → body.now ++ after ≡ (head ++ whole_text flat) ++ more → found ≡ flat) }
{
    let rest = headed(body)?;
    all_of(alloc, rest)
}

// Reads a world from all of the bytes.
#[tactic(auto, unfolding(crate::specs::PartsRead::all_at))]
fn all_of(alloc: Global, bytes: &[u8]) -> Result<Flat, Stop>
    ensures { Gives (λ flat. flat) result (all_at bytes.now) }
{
    let (flat, after) = taken!(whole_of(alloc, bytes));
    if !after.is_empty() {
        return Err(wrong(after, Flaw::Trailing));
    }
    Ok(flat)
}

// Checks how the bytes begin, and returns those after the head.
fn headed(bytes: &[u8]) -> Result<&[u8], Stop>
    ensures found { IfOk result (λ rest. bytes.now ≡ head ++ rest.now) }
    ensures none { IfErr result (λ _. (rest : List ℕ) → bytes.now ≡ head ++ rest → ⊥) }
{
    if !bytes.starts_with(HEAD.as_slice()) {
        return Err(wrong(bytes, head_flaw(bytes)));
    }
    Ok(&bytes[HEAD.len()..])
}

// What is wrong with a head.
fn head_flaw(bytes: &[u8]) -> Flaw {
    if bytes.starts_with(&HEAD[..NAME]) {
        Flaw::Version
    } else {
        Flaw::Magic
    }
}

// The fault of a mistake in so many bytes.
fn told(length: usize, stop: Stop) -> ReadError
    ensures { IsTold stop result }
{
    match stop {
        Stop::Memory => ReadError::NoMemory,
        Stop::At(mistake) => ReadError::Fault(Fault {
            place: length.saturating_sub(mistake.left),
            flaw: mistake.flaw,
        }),
    }
}
