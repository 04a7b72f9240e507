//! A storm over a history of its own, with an audit after it.
ghost use Rattle.std.specs.Prelude.{◌≡◌, IfOk, IsTrue};
ghost use Rattle.ele_shared_history.specs.Closing.{Closes};
ghost use Rattle.ele_storm.specs.Audited.{IsAudited, IsBegun};

use crate::meet::Meet;
use crate::storms::storm;
use ele_history::History;
use ele_model::{Audit, Limits, NoMemory, Step, audit, laws};
use ele_shared_history::{Seat, Shared};
use ele_storm_plan::{AuditFault, StormPlan};
use std::alloc::Global;
use std::sync::Wait;
use std::thread::Threads;

/// Runs a storm over a fresh history with these limits, and then compares its core's answers with
/// the scans of its rows. Returns the history, how many events the storm ran, and whether all
/// answers were equal.
///
/// After a fault there is no history: the storm failed, or there was no memory for the audit.
pub fn storm_and_audit<C: Audit + Send, R: Threads + Wait + Sync, M: Meet + Sync>(
    rt: &R,
    alloc: Global,
    limits: Limits,
    plan: &StormPlan,
    meet: &M,
) -> Result<(History<C>, u64, bool), AuditFault>
    ensures { IfOk result (λ told. IsAudited limits plan.now told.0 told.1 told.2) }
{
    let (shared, mut seat) = share_fresh::<C>(alloc, limits)?;
    let events = storm(rt, alloc, &shared, &mut seat, plan, meet)?;
    let (history, equal) = close_and_audit(shared, seat)?;
    Ok((history, events, equal))
}

/// Makes a fresh history with these limits for many threads, and its seat, which has made no call.
///
/// `NoMemory` if memory is refused.
pub fn share_fresh<C: Step>(alloc: Global, limits: Limits) -> Result<(Shared<C>, Seat<C>), NoMemory>
    ensures { IfOk result (λ made. IsBegun limits made.0 made.1) }
{
    let history = History::<C>::new(alloc, limits)?;
    let Ok((shared, mut seats)) = Shared::new(alloc, history, 1) else {
        return Err(NoMemory);
    };
    let Some(seat) = seats.pop() else {
        unreachable!()
    };
    Ok((shared, seat))
}

/// Closes the history, and compares its core's answers with the scans of its rows. Returns the
/// history, and whether all answers were equal.
///
/// `TurnHeld` if a call took the turn and never gave it back, and `NoMemory` if there is none for
/// the scans. The history is lost then.
pub fn close_and_audit<C: Audit>(
    shared: Shared<C>,
    seat: Seat<C>,
) -> Result<(History<C>, bool), AuditFault>
    requires { seat.object ≡ shared }
    ensures closes { IfOk result (λ closed. Closes shared.opening seat closed.0) }
    ensures equal { IfOk result (λ closed. IsTrue closed.1) }
{
    let Ok(history) = shared.close(seat) else {
        return Err(AuditFault::TurnHeld);
    };
    let equal = is_equal(history.core())?;
    Ok((history, equal))
}

// Whether the core's answers are those of the scans of its rows.
fn is_equal<C: Audit>(core: &C) -> Result<bool, NoMemory>
    ensures { IfOk result (λ equal. IsTrue equal) }
{
    let due = core.due_keys()?;
    let names = core.deleted_names()?;
    let usage = core.usage();
    let flat = core.flat()?;
    // For the proof: the world is well formed, so the sums of its usage are within 64 bits.
    let _now = core.now();
    laws::usage_fits();
    audit(due.as_slice(), names.as_slice(), &usage, &flat)
}
