//! The workers of a storm, each in a thread of its own.
ghost use Rattle.std.specs.Prelude.{◌≡◌, ◌+◌, ◌<◌, ◌≤◌, ◌/◌, ◌-◌, []};
ghost use Rattle.std.specs.Thread.{IsSync};
ghost use Rattle.ele_storm_plan.specs.Plan.{workers_of};
ghost use Rattle.ele_storm.specs.Halves.{RunsWorkers};

use crate::meet::Meet;
use crate::worker::work;
use ele_model::Step;
use ele_shared_history::{Seat, Shared};
use ele_storm_plan::{StormFault, StormPlan};
use std::alloc::Global;
use std::snapshot::Snapshot;
use std::sync::Wait;
use std::thread::{Promise, Threads, scope, scope_env};

/// A seat, and how its workers ended.
pub(crate) type Ended<C> = (Seat<C>, Result<(), StormFault>);

// What is promised of the workers that a seat ran.
#[derive(Drop)]
struct Half<C: Step> {
    before: Snapshot<Seat<C>>,
    plan: StormPlan,
    from: u32,
    count: u32,
}

impl<C: Step> Promise<Ended<C>> for Half<C> {
    ghost kept_by = { λ p r. RunsWorkers p.plan p.from p.count p.before.value r.0 r.1 };
}

/// Runs so many workers from this number on. It runs one worker by the seat. It cuts more into
/// halves: the left half by the seat, and the right half by a new seat in a thread of its own. If
/// both halves fail, it returns the left one's fault.
pub(crate) fn run<C: Step + Send, R: Threads + Wait + Sync, M: Meet + Sync>(
    rt: &R,
    alloc: Global,
    shared: &Shared<C>,
    mut seat: Seat<C>,
    plan: StormPlan,
    from: u32,
    count: u32,
    meet: &M,
) -> Ended<C>
    requires object { seat.object ≡ shared.now }
    requires range { (0 < count) × (from + count ≤ workers_of plan) }
    ensures { RunsWorkers plan from count seat result.0 result.1 }
{
    if count < 2 {
        let ended = work_alone(rt, alloc, shared, &mut seat, plan, from, meet);
        return (seat, ended);
    }
    let half = count / 2;
    let Ok(other) = shared.split(&mut seat) else {
        return (seat, Err(StormFault::NoMemory));
    };
    scope(
        scope_env(),
        rt,
        move |s| -> Ended<C>
            requires { IsSync R.row × IsSync M.row × (seat.object ≡ shared.now)
                × (other.object ≡ shared.now) × (other.own ≡ []) × (2 ≤ count)
                × (half ≡ count / 2) × (from + count ≤ workers_of plan) }
            ensures { RunsWorkers plan from count seat result.0 result.1 }
        {
            let spawned = s.spawn_with(
                Half {
                    before: Snapshot::of(&other),
                    plan,
                    from: from + half,
                    count: count - half,
                },
                move || -> Ended<C>
                    requires { IsSync R.row × IsSync M.row × (other.object ≡ shared.now)
                        × (2 ≤ count) × (half ≡ count / 2) × (from + count ≤ workers_of plan) }
                    ensures { RunsWorkers plan (from + half) (count - half) other result.0
                        result.1 }
                {
                    run(
                        rt,
                        alloc,
                        shared,
                        other,
                        plan,
                        from + half,
                        count - half,
                        meet,
                    )
                },
            );
            match spawned {
                Ok(thread) => {
                    let (mut seat, left) = run(rt, alloc, shared, seat, plan, from, half, meet);
                    let (other, right) = thread.join(rt);
                    shared.join(&mut seat, other);
                    (seat, left.and(right))
                }
                Err(_refused) => (seat, Err(StormFault::NoThread)),
            }
        },
    )
}

// Runs one worker by the seat.
fn work_alone<C: Step, R: Wait, M: Meet>(
    rt: &R,
    alloc: Global,
    shared: &Shared<C>,
    seat: &mut Seat<C>,
    plan: StormPlan,
    worker: u32,
    meet: &M,
) -> Result<(), StormFault>
    requires object { seat.old.object ≡ shared.now }
    requires worker { worker < workers_of plan }
    ensures { RunsWorkers plan worker 1 seat.old seat.new result }
{
    match work(rt, alloc, shared, seat, &plan, worker, meet) {
        Ok(_) => Ok(()),
        Err(fault) => Err(fault),
    }
}
