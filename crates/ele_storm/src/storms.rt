//! A storm of workers.
ghost use Rattle.std.specs.Prelude.{◌≡◌, ◌+◌, [], IfOk, OnOk, length};
ghost use Rattle.ele_shared_history.specs.Running.{StartsWith, entries_of};
ghost use Rattle.ele_storm_plan.specs.Plan.{storm_events};
ghost use Rattle.ele_storm.specs.Storm.{AddsStorm, prepared, storm_policy};
ghost use Rattle.ele_storm.specs.Making.{Makes};
ghost use Rattle.ele_storm.specs.Work.{SeesMore};

use crate::events::file_of;
use crate::halves::run;
use crate::meet::Meet;
use crate::worker::make;
use ele_model::{Boxed, Event, Ladder, Path, Policy, Step};
use ele_shared_history::{Seat, Shared};
use ele_storm_plan::{StormFault, StormPlan};
use std::alloc::Global;
use std::sync::Wait;
use std::thread::Threads;

/// Sets the policy of the root, makes a file for each writer, and runs all workers at once, each in
/// a thread of its own. Waits for them all, and returns how many events they ran.
///
/// After a fault some of the events were run. The fault is that of the worker with the lowest
/// number. `NoThread` means that a worker wasn't run, since its thread was refused. A worker that
/// waited for it may report `Alone` first.
pub fn storm<C: Step + Send, R: Threads + Wait + Sync, M: Meet + Sync>(
    rt: &R,
    alloc: Global,
    shared: &Shared<C>,
    seat: &mut Seat<C>,
    plan: &StormPlan,
    meet: &M,
) -> Result<u64, StormFault>
    requires { seat.old.object ≡ shared.now }
    ensures count { IfOk result (λ count. count ≡ storm_events plan.now) }
    ensures own { IfOk result (λ count. length seat.new.own ≡ length seat.old.own + count) }
    ensures calls { OnOk result
        (AddsStorm plan.now (entries_of seat.old.own) (entries_of seat.new.own)) }
    ensures view { StartsWith seat.new.view seat.old.view }
    ensures object { seat.new.object ≡ seat.old.object }
{
    prepare(rt, alloc, shared, seat, plan)?;
    let part = shared.split(seat)?;
    let (part, ended) = run(rt, alloc, shared, part, *plan, 0, plan.workers(), meet);
    shared.join(seat, part);
    ended?;
    Ok(plan.events())
}

// Sets the policy of the root, and makes a file for each writer.
fn prepare<C: Step, R: Wait>(
    rt: &R,
    alloc: Global,
    shared: &Shared<C>,
    seat: &mut Seat<C>,
    plan: &StormPlan,
) -> Result<(), StormFault>
    requires { seat.old.object ≡ shared.now }
    ensures own { OnOk result
        (length seat.new.own ≡ length seat.old.own + 1 + plan.now.writers) }
    ensures calls { OnOk result (Makes (λ handle. prepared plan.now) seat.old seat.new) }
    ensures seen { SeesMore seat.old seat.new }
{
    let policy = Boxed::new(alloc, policy())?;
    make(
        rt,
        shared,
        seat,
        Event::SetDefault(Path::root(alloc), policy),
    )?;
    for writer in 0..plan.writers {
        let path = file_of(alloc, u64::from(writer) + 1)?;
        make(rt, shared, seat, Event::Create(path))?;
    }
    Ok(())
}

// A policy that lets versions come and go within a few rounds.
fn policy() -> Policy
    ensures { result ≡ storm_policy }
{
    let Ok(ladder) = Ladder::new(&[(3, 2), (10, 10)]) else {
        unreachable!()
    };
    Policy::Landmarks(ladder)
}
