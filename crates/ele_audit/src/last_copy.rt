//! A copy of a core's rows that goes on with the core. A contract sees it as a world.
ghost use Rattle.std.specs.Prelude.{◌≡◌, if◌then◌else◌, IfOk, None, OnOk, Some};
ghost use Rattle.ele_audit.specs.LastCopy.{IsCopy, leaves, world_after};
ghost use Rattle.ele_model.specs.Change.{Time, after_change};
ghost use Rattle.ele_model.specs.Step.{step};

use crate::cleaned::cleaned;
use ele_model::{Event, Explain, Flat, NoMemory, Reply};
use ele_moment::Moment;
use std::alloc::Global;

/// Returns a copy of the core's rows: this one, if there is one, and else a new one.
///
/// `NoMemory` if memory is refused.
/// Cost: without a copy that of the core's `flat`, else constant time.
pub fn copy_of<C: Explain>(core: &C, copy: Option<Flat>) -> Result<Flat, NoMemory>
    requires { IsCopy (C.world core.now) copy }
    ensures { IfOk result (λ world. world ≡ C.world core.now) }
{
    match copy {
        Some(world) => Ok(world),
        None => core.flat(),
    }
}

/// Applies the event to the core and, in place, to the copy of its rows. None if there was no copy,
/// or if the reply alone doesn't say what changed, as that of a clean or of a clock does.
///
/// `NoMemory` if memory is refused.
/// Cost: that of the core's `apply`; with a copy a clean scans its versions and, if a file goes, its
/// files, names and groups.
#[tactic(auto, using(crate::proofs::Copies::copy_goes))]
pub fn advance<C: Explain>(
    alloc: Global,
    core: &mut C,
    copy: Option<Flat>,
    event: &Event,
) -> Result<Option<Flat>, NoMemory>
    requires { IsCopy (C.world core.old) copy }
    ensures world { OnOk result (C.world core.new ≡ (step (C.world core.old) event.now).1) }
    ensures copy { IfOk result (IsCopy (C.world core.new)) }
{
    let reply = core.apply(event)?;
    match copy {
        Some(world) => advanced(alloc, world, &reply),
        None => Ok(None),
    }
}

// The world after an event with the reply, if the reply says what it is.
fn advanced(alloc: Global, world: Flat, reply: &Reply) -> Result<Option<Flat>, NoMemory>
    ensures { IfOk result (λ after. after ≡ world_after reply.now world) }
{
    match reply {
        Reply::Now(to) => Ok(Some(at_moment(world, *to))),
        Reply::Removed(key) => {
            let left = cleaned(alloc, world, *key)?;
            Ok(Some(left))
        }
        _ => Ok(unless_changed(world, reply)),
    }
}

// The world, if nothing has changed after the reply.
fn unless_changed(world: Flat, reply: &Reply) -> Option<Flat>
    ensures { result ≡ (if leaves reply.now then Some world else None) }
{
    if leaves(reply) {
        return Some(world);
    }
    None
}

// Whether nothing has changed after the reply.
fn leaves(reply: &Reply) -> bool
    ensures { result ≡ leaves reply.now }
{
    matches!(
        reply,
        Reply::Nothing
            | Reply::Refused(_)
            | Reply::Bytes(_)
            | Reply::FileStat(_)
            | Reply::DirStat(_)
            | Reply::Rows(_)
            | Reply::NameList(_)
            | Reply::RestoreList(_)
            | Reply::DueList(_)
            | Reply::UsageList(_)
            | Reply::GroupList(_)
    )
}

// The world with that moment.
fn at_moment(world: Flat, to: Moment) -> Flat
    ensures { result ≡ after_change world (Time to) }
{
    let mut world = world;
    world.now = to;
    world
}
