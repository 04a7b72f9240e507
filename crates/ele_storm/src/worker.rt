//! One worker of a storm.
ghost use Rattle.std.specs.Prelude.{◌≡◌, ◌*◌, ◌<◌, IfOk, IfErr, [], ◌∷◌, OnOk};
ghost use Rattle.ele_shared_history.specs.Calling.{SeesRoom};
ghost use Rattle.ele_shared_history.specs.Running.{entry};
ghost use Rattle.ele_storm_plan.specs.declared.fault.StormFault.TheVariants as storm;
ghost use Rattle.ele_storm_plan.specs.Plan.{task_of, workers_of};
ghost use Rattle.ele_storm.specs.Rounds.{looks, round_size, writes};
ghost use Rattle.ele_storm.specs.Making.{Makes, MakesOne, RunsRound, RunsRounds};
ghost use Rattle.ele_storm.specs.Work.{AddsCalls, FailsWorker, SeesMore, StopsWorker, Works};

use crate::events::{bytes_of, file_of, handle_in, tagged_file};
use crate::meet::{Meet, MeetEnd};
use ele_model::{Event, Reply, Source, Step, Tag, VersionNo};
use ele_shared_history::{Seat, Shared};
use ele_storm_plan::{StormFault, StormPlan, Task};
use std::alloc::Global;
use std::sync::Wait;

/// Runs one worker of the plan: it arrives, and then makes the events of each round, in order. A
/// writer whose file can't be opened writes and closes by handle 0. Returns how many events it
/// made.
///
/// After a fault it has made some of the events. `Alone` if no other worker arrived, and then it
/// has made none; `NoMemory` if memory was refused; `HistoryFull` if the history is full.
pub fn work<C: Step, R: Wait, M: Meet>(
    rt: &R,
    alloc: Global,
    shared: &Shared<C>,
    seat: &mut Seat<C>,
    plan: &StormPlan,
    worker: u32,
    meet: &M,
) -> Result<u64, StormFault>
    requires object { seat.old.object ≡ shared.now }
    requires worker { worker < workers_of plan.now }
    ensures ok { IfOk result (λ count. Works plan.now worker seat.old count seat.new) }
    ensures count { IfOk result (λ count. count ≡ round_size (task_of plan.now worker) * plan.now.rounds) }
    ensures seen { SeesMore seat.old seat.new }
    ensures fault { IfErr result (λ fault. FailsWorker fault seat.old seat.new) }
{
    let task = plan.task(worker);
    if meet.arrive(worker) == MeetEnd::Alone {
        return Err(StormFault::Alone);
    }
    run_rounds(rt, alloc, shared, seat, plan, task)?;
    Ok(count_of(task, plan.rounds))
}

// How many events so many rounds have.
fn count_of(task: Task, rounds: u32) -> u64
    ensures { result ≡ round_size task * rounds }
{
    let rounds = u64::from(rounds);
    match task {
        Task::Writer(_) => 4 * rounds,
        Task::Historian(_) => 2 * rounds,
        Task::Cleaner => rounds,
    }
}

// Makes the events of all rounds.
fn run_rounds<C: Step, R: Wait>(
    rt: &R,
    alloc: Global,
    shared: &Shared<C>,
    seat: &mut Seat<C>,
    plan: &StormPlan,
    task: Task,
) -> Result<(), StormFault>
    requires { seat.old.object ≡ shared.now }
    ensures ok { OnOk result
        (RunsRounds plan.now.writers task plan.now.rounds seat.old seat.new) }
    ensures seen { SeesMore seat.old seat.new }
    ensures fault { IfErr result (λ fault. StopsWorker fault seat.new) }
{
    for round in 0..u64::from(plan.rounds) {
        run_round(rt, alloc, shared, seat, plan, task, round)?;
    }
    Ok(())
}

// Makes the events of one round.
fn run_round<C: Step, R: Wait>(
    rt: &R,
    alloc: Global,
    shared: &Shared<C>,
    seat: &mut Seat<C>,
    plan: &StormPlan,
    task: Task,
    round: u64,
) -> Result<(), StormFault>
    requires object { seat.old.object ≡ shared.now }
    requires round { round < plan.now.rounds }
    ensures ok { OnOk result (RunsRound plan.now.writers task round seat.old seat.new) }
    ensures seen { SeesMore seat.old seat.new }
    ensures fault { IfErr result (λ fault. StopsWorker fault seat.new) }
{
    match task {
        Task::Writer(writer) => write(rt, alloc, shared, seat, writer, round),
        Task::Historian(historian) => {
            let file = 1 + (u64::from(historian) + round) % u64::from(plan.writers);
            look(rt, alloc, shared, seat, file)
        }
        Task::Cleaner => make(rt, shared, seat, Event::CleanOne),
    }
}

// Moves the clock by a second, and writes the round's number into the writer's file.
fn write<C: Step, R: Wait>(
    rt: &R,
    alloc: Global,
    shared: &Shared<C>,
    seat: &mut Seat<C>,
    writer: u32,
    round: u64,
) -> Result<(), StormFault>
    requires { seat.old.object ≡ shared.now }
    ensures ok { OnOk result (Makes (writes writer round) seat.old seat.new) }
    ensures seen { SeesMore seat.old seat.new }
    ensures fault { IfErr result (λ fault. StopsWorker fault seat.new) }
{
    let path = file_of(alloc, u64::from(writer))?;
    let bytes = bytes_of(alloc, round)?;
    make(rt, shared, seat, Event::Tick(1))?;
    let opened = ask(rt, shared, seat, Event::OpenWrite(path))?;
    let handle = handle_in(&opened);
    make(rt, shared, seat, Event::Write(handle, 0, bytes))?;
    make(rt, shared, seat, Event::Close(handle))?;
    Ok(())
}

// Asks for a writer's file, and reads its first version.
fn look<C: Step, R: Wait>(
    rt: &R,
    alloc: Global,
    shared: &Shared<C>,
    seat: &mut Seat<C>,
    writer: u64,
) -> Result<(), StormFault>
    requires { seat.old.object ≡ shared.now }
    ensures ok { OnOk result (Makes (looks writer) seat.old seat.new) }
    ensures seen { SeesMore seat.old seat.new }
    ensures fault { IfErr result (λ fault. StopsWorker fault seat.new) }
{
    let file = tagged_file(alloc, writer, Tag::Now)?;
    let first = tagged_file(alloc, writer, Tag::Number(VersionNo(1)))?;
    make(rt, shared, seat, Event::Stat(file))?;
    make(rt, shared, seat, Event::Read(Source::Tagged(first)))?;
    Ok(())
}

/// Makes one event, and ignores its reply.
pub(crate) fn make<C: Step, R: Wait>(
    rt: &R,
    shared: &Shared<C>,
    seat: &mut Seat<C>,
    event: Event,
) -> Result<(), StormFault>
    requires { seat.old.object ≡ shared.now }
    ensures ok { OnOk result (MakesOne event seat.old seat.new) }
    ensures seen { SeesMore seat.old seat.new }
    ensures fault { IfErr result (λ fault. StopsWorker fault seat.new) }
{
    ask(rt, shared, seat, event)?;
    Ok(())
}

// Makes one event, and returns the reply.
fn ask<C: Step, R: Wait>(
    rt: &R,
    shared: &Shared<C>,
    seat: &mut Seat<C>,
    event: Event,
) -> Result<Reply, StormFault>
    requires { seat.old.object ≡ shared.now }
    ensures ok { IfOk result (λ reply. AddsCalls seat.old (entry event reply ∷ []) seat.new) }
    ensures seen { SeesMore seat.old seat.new }
    ensures fault { IfErr result (λ fault. StopsWorker fault seat.new) }
    ensures room { IfErr result (λ fault. fault ≡ storm.NoMemory → SeesRoom seat.new) }
{
    Ok(shared.call(rt, seat, event)?)
}
