//! The changes after a check, up to what is none.
//! A contract sees changes as lists of events, and bytes, of which the first four are the check.
ghost use Rattle.std.specs.Prelude.{◌≡◌, ◌↔◌, ◌+◌, ◌≤◌, ◌++◌, List, ℕ, IfErr, IfNone, IfOk, IfSome, IsTrue, drop, length, take};
ghost use Rattle.ele_journal.specs.Changes.{linked};
ghost use Rattle.ele_journal.specs.ChangesRead.{IsFound, IsNext, IsStopped, Links};

use crate::change::{Change, check_of};
use crate::event::events_of;
use crate::fault::{Damage, End, Fault};
use crate::start::number_in;
use ele_checkpoint::Stop;
use ele_moment::NoMemory;
use std::alloc::Global;

// How many bytes a check has.
const CHECK: usize = 4;

// How many bytes the length of a change has.
const LENGTH: usize = 8;

/// Returns the changes that follow the check at the front of the bytes, the bytes from the last
/// check on, and what follows it.
pub(crate) fn changes_of(
    alloc: Global,
    bytes: &[u8],
) -> Result<(Vec<Change>, &[u8], Option<Fault>), NoMemory>
    requires { 4 ≤ length bytes.now }
    ensures { IfOk result (λ x. IsFound bytes.now x.0.items x.1.now x.2) }
{
    let mut changes = Vec::new(alloc);
    let mut rest = bytes;
    while rest.len() > CHECK {
        match next_change(alloc, rest) {
            Ok((change, after)) => {
                changes.push(change)?;
                rest = after;
            }
            Err(End::Memory) => return Err(NoMemory),
            Err(End::At(fault)) => return Ok((changes, rest, Some(fault))),
        }
    }
    Ok((changes, rest, None))
}

// The change that follows the check at the front of the bytes, and the bytes from its own check on.
fn next_change(alloc: Global, bytes: &[u8]) -> Result<(Change, &[u8]), End>
    requires { 5 ≤ length bytes.now }
    ensures found { IfOk result (λ x. IsNext bytes.now x.0 x.1.now) }
    ensures none { IfErr result (IsStopped bytes.now) }
{
    if bytes.len() < CHECK + LENGTH + CHECK {
        return Err(End::At(Fault::Cut));
    }
    let Some((length, rest)) = linked_of(bytes, LENGTH) else {
        return Err(End::At(Fault::Damaged(Damage::Length)));
    };
    let size = number_in(length);
    if rest.len() < 2 * CHECK || ((rest.len() - 2 * CHECK) as u64) < size {
        return Err(End::At(Fault::Cut));
    }
    let Some((body, rest)) = linked_of(rest, size as usize) else {
        return Err(End::At(Fault::Damaged(Damage::Check)));
    };
    match events_of(alloc, body) {
        Ok(change) => Ok((change, rest)),
        Err(Stop::Memory) => Err(End::Memory),
        Err(Stop::At(_)) => Err(End::At(Fault::Damaged(Damage::Events))),
    }
}

// The bytes, so many, that follow the check at the front, and those from their own check on, if
// that is the check of both.
fn linked_of(bytes: &[u8], size: usize) -> Option<(&[u8], &[u8])>
    requires { size + 8 ≤ length bytes.now }
    ensures found { IfSome result (λ x. Links bytes.now size x.0.now x.1.now) }
    ensures none { IfNone result ((body after : List ℕ) → length body ≡ size
        → drop 4 bytes.now ≡ linked (take 4 bytes.now) body ++ after → ⊥) }
{
    let (covered, next) = bytes.split_at(CHECK + size);
    let (check, _) = next.split_at(CHECK);
    let wanted = check_of(covered);
    if !is_same(check, &wanted) {
        return None;
    }
    let (_, body) = covered.split_at(CHECK);
    Some((body, next))
}

// Whether the bytes are the same.
fn is_same(a: &[u8], b: &[u8]) -> bool
    ensures { IsTrue result ↔ (a.now ≡ b.now) }
{
    a == b
}
