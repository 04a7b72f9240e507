//! A storm that runs in another thread while the calling thread reports its progress.
//! A contract sees the counts that were reported, and the result of the storm.
ghost use Rattle.std.specs.Prelude.{◌≡◌};
ghost use Rattle.std.specs.Thread.{IsSync};
ghost use Rattle.ele_output.specs.Front.{WritesText};
ghost use Rattle.ele_shared_history.specs.Knowledge.{Looked, count_seen};
ghost use Rattle.ele_words.specs.Progress.{ShowsProgress, progress_line};
ghost use Rattle.ele_words.specs.Watched.{Stormed, Watched};

use ele_model::{Audit, Limits, Step};
use ele_output::{Printer, WriteFault};
use ele_script::put_placed;
use ele_shared_history::{Seat, Shared};
use ele_storm::{AuditFault, Flags, StormFault, StormPlan, close_and_audit, share_fresh, storm};
use std::alloc::Global;
use std::io::Write;
use std::snapshot::Snapshot;
use std::sync::{Condvar, Mutex, Wait};
use std::thread::{Promise, Threads, scope, scope_env};
use std::time::{Clock, Duration};

// Milliseconds before the first report.
const QUIET: u64 = 1_000;

// Milliseconds between two reports, at least.
const PAUSE: u64 = 100;

// Rings once the storm has ended.
#[derive(Drop)]
struct Bell {
    rung: Mutex<bool>,
    rings: Condvar,
}

impl Bell {
    fn new() -> Bell {
        Bell {
            rung: Mutex::new(false),
            rings: Condvar::new(),
        }
    }

    fn ring<R: Wait>(&self, rt: &R) {
        *self.rung.lock(rt) = true;
        self.rings.notify_one();
    }

    // Waits until it rings, at most for these milliseconds. Returns whether it has rung.
    fn rings_within<R: Wait + Clock>(&self, rt: &R, millis: u64) -> bool {
        let most = Duration::from_millis(millis);
        let rung = self.rung.lock(rt);
        let (_rung, ended) = self.rings.wait_timeout_while(rt, rung, most, |rung| !*rung);
        !ended.timed_out()
    }
}

// The seat of a storm, and the storm's result.
type Ended<C> = (Seat<C>, Result<u64, StormFault>);

// The thread's promise: its result is that of a storm of this plan, from this seat.
#[derive(Drop)]
struct Storming<C: Step> {
    before: Snapshot<Seat<C>>,
    plan: StormPlan,
}

impl<C: Step> Promise<Ended<C>> for Storming<C> {
    ghost kept_by = { λ p r. Stormed p.plan p.before.value r.0 r.1 };
}

/// Runs the storm over a fresh core under the largest limits, and audits the core. Meanwhile it
/// reports how many events were answered: after a second, and then at most ten times a second.
/// After a failed write it reports no more.
pub(crate) fn watch_storm<C: Audit + Send, R: Threads + Wait + Clock + Sync, P: Write>(
    rt: &R,
    alloc: Global,
    plan: &StormPlan,
    flags: &Flags,
    progress: &mut P,
) -> Result<(u64, bool), AuditFault>
    ensures { Watched plan.now (P.contents progress.old) (P.contents progress.new) result }
{
    let (shared, mut seat) = share_fresh::<C>(alloc, Limits::largest())?;
    let watcher = shared.split(&mut seat)?;
    let (watcher, (mut seat, ended)) = run_watched(
        rt, alloc, &shared, seat, watcher, *plan, flags, progress,
    );
    let events = ended?;
    shared.join(&mut seat, watcher);
    let (history, equal) = close_and_audit(shared, seat)?;
    drop(history);
    Ok((events, equal))
}

// Runs the storm by `seat` in a thread of its own, and reports the progress that `watcher` sees. If
// no thread can be started, the storm runs in this one, and nothing is reported.
fn run_watched<C: Step + Send, R: Threads + Wait + Clock + Sync, P: Write>(
    rt: &R,
    alloc: Global,
    shared: &Shared<C>,
    seat: Seat<C>,
    watcher: Seat<C>,
    plan: StormPlan,
    flags: &Flags,
    progress: &mut P,
) -> (Seat<C>, Ended<C>)
    requires seat { seat.object ≡ shared.now }
    requires watcher { watcher.object ≡ shared.now }
    ensures looked { Looked watcher result.0 }
    ensures stormed { Stormed plan seat result.1.0 result.1.1 }
    ensures progress { ShowsProgress (P.contents progress.old) (P.contents progress.new)
        (count_seen result.0) }
{
    let bell = Bell::new();
    let bell = &bell;
    let (progress, watcher, ended) = scope(
        scope_env(),
        rt,
        move |s| -> (&mut P, Seat<C>, Ended<C>)
            requires { IsSync R.row × (seat.object ≡ shared.now)
                × (watcher.object ≡ shared.now) }
            ensures same { result.0.ghost_name ≡ progress.entry.ghost_name }
            ensures looked { Looked watcher result.1 }
            ensures stormed { Stormed plan seat result.2.0 result.2.1 }
            ensures progress { ShowsProgress (P.contents progress.entry.now)
                (P.contents result.0.now) (count_seen result.1) }
        {
            let promise = Storming {
                before: Snapshot::of(&seat),
                plan,
            };
            let spawned = s.spawn_with(
                promise,
                move || -> Ended<C>
                    requires { IsSync R.row × (seat.object ≡ shared.now) }
                    ensures { Stormed plan seat result.0 result.1 }
                { run_and_ring(rt, alloc, shared, seat, plan, flags, bell) },
            );
            match spawned {
                Ok(thread) => {
                    let watcher = tell_until(rt, shared, watcher, bell, progress);
                    (progress, watcher, thread.join(rt))
                }
                Err(refused) => (progress, watcher, (refused.value)()),
            }
        },
    );
    end_borrow(progress);
    (watcher, ended)
}

// Does nothing. A proof needs this use of a returned reference, to tie it to the parameter that it
// was borrowed from.
fn end_borrow<T>(end: &mut T)
    ensures { end.new ≡ end.old }
{}

// Runs the storm, and then rings the bell.
fn run_and_ring<C: Step + Send, R: Threads + Wait + Sync>(
    rt: &R,
    alloc: Global,
    shared: &Shared<C>,
    mut seat: Seat<C>,
    plan: StormPlan,
    flags: &Flags,
    bell: &Bell,
) -> Ended<C>
    requires { seat.object ≡ shared.now }
    ensures { Stormed plan seat result.0 result.1 }
{
    let ended = storm(rt, alloc, shared, &mut seat, &plan, flags);
    bell.ring(rt);
    (seat, ended)
}

// Reports the progress until the bell rings or a write fails.
fn tell_until<C: Step, R: Wait + Clock, P: Write>(
    rt: &R,
    shared: &Shared<C>,
    mut seat: Seat<C>,
    bell: &Bell,
    progress: &mut P,
) -> Seat<C>
    requires { seat.object ≡ shared.now }
    ensures looked { Looked seat result }
    ensures progress { ShowsProgress (P.contents progress.old) (P.contents progress.new)
        (count_seen result) }
{
    let mut pause = QUIET;
    for _ in rt.forever() {
        if bell.rings_within(rt, pause) {
            return seat;
        }
        let Ok(()) = tell_next(shared, &mut seat, progress) else {
            return seat;
        };
        pause = PAUSE;
    }
    unreachable!()
}

// Reports how many events have been answered.
fn tell_next<C: Step, P: Write>(
    shared: &Shared<C>,
    seat: &mut Seat<C>,
    progress: &mut P,
) -> Result<(), WriteFault>
    requires { seat.old.object ≡ shared.now }
    ensures looked { Looked seat.old seat.new }
    ensures told { WritesText (progress_line (count_seen seat.new)) (P.contents progress.old)
        (P.contents progress.new) result }
{
    let count = shared.published(seat);
    let told = write_progress(count, progress);
    let _ = progress.flush();
    told
}

// Writes the line with a number of events. At a fault the writer took a prefix of it.
fn write_progress<P: Write>(count: u64, progress: &mut P) -> Result<(), WriteFault>
    ensures { WritesText (progress_line count) (P.contents progress.old) (P.contents progress.new)
        result }
{
    let mut printer = Printer::new(progress);
    put_placed(b"storm", count, b"events", b"answered", &mut printer);
    printer.hand_over()
}
