//! Removed versions of a history. A contract sees them as rows.
ghost use Rattle.std.specs.Prelude.{◌≡◌, ◌++◌, IfOk, OnErr, List};
ghost use Rattle.ele_audit.specs.Clock.{clock_after};
ghost use Rattle.std.specs.List.{AllZip, list_any};
ghost use Rattle.ele_model.specs.World.{World};
ghost use Rattle.ele_audit.specs.LastCopy.{IsCopy};
ghost use Rattle.ele_audit.specs.Removals.{AreRemoved, HasRemovals, IsExplained, is_removal, removal_in};

use crate::held::hold_in;
use crate::last_copy::{advance, copy_of};
use crate::row::Removed;
use ele_history::History;
use ele_model::{Entry, Explain, Flat, FromFlat, Key, NoMemory, Reply, Target};
use ele_moment::Moment;
use ele_name_paths::{Above, path_of};
use ele_world::laws;
use std::alloc::Global;

/// Returns the versions that the stored entries removed, in order.
///
/// `NoMemory` if memory is refused. If no stored entry removed a version, it takes none.
/// Cost: that of a core made of the base and of all stored events on it. The removals between which
/// only the clock moves share one copy of all rows; for each removal these are scanned.
#[tactic(auto, using(crate::proofs::Numbered::no_rows))]
pub fn removed<C: Explain + FromFlat>(
    alloc: Global,
    history: &History<C>,
) -> Result<Vec<Removed>, NoMemory>
    ensures ok { IfOk result (λ rows. AreRemoved history.now rows.items) }
    ensures err { OnErr result (HasRemovals history.now) }
{
    if !has_removals(history.entries()) {
        return Ok(Vec::new(alloc));
    }
    gathered(alloc, history)
}

/// Whether one of the entries removed a version.
/// Cost: scans the entries.
pub fn has_removals(entries: &[Entry]) -> bool
    ensures { result ≡ list_any (λ entry. is_removal entry.reply) entries.now }
{
    entries.iter().any(|entry| is_removal(&entry.reply))
}

// Whether the reply removed a version.
fn is_removal(reply: &Reply) -> bool
    ensures { result ≡ is_removal reply.now }
{
    match reply {
        Reply::Removed(_) => true,
        _ => false,
    }
}

// The removed versions, by all entries on a second core, which is made of the base.
fn gathered<C: Explain + FromFlat>(
    alloc: Global,
    history: &History<C>,
) -> Result<Vec<Removed>, NoMemory>
    ensures { IfOk result (λ rows. AreRemoved history.now rows.items) }
{
    // For the proof: events led to the base, so a run may go on in it.
    laws::start_stays();
    let mut core = C::from_flat(alloc, history.base())?;
    let mut copy = None;
    let mut rows = Vec::new(alloc);
    let entries = history.entries();
    for entry in entries {
        let kept = explain(alloc, &core, copy, &entry.reply, &mut rows)?;
        copy = advance(alloc, &mut core, kept, &entry.event)?;
    }
    Ok(rows)
}

// Pushes the row of what the reply removes from the core's world. Returns the copy of its rows, or
// the one that it made.
fn explain<C: Explain>(
    alloc: Global,
    core: &C,
    copy: Option<Flat>,
    reply: &Reply,
    rows: &mut Vec<Removed>,
) -> Result<Option<Flat>, NoMemory>
    requires { IsCopy (C.world core.now) copy }
    ensures copy { IfOk result (IsCopy (C.world core.now)) }
    ensures rows { IfOk result (λ _. (added : List Removed)
        × AllZip IsExplained (removal_in (C.world core.now) reply.now) added
        × (rows.new.items ≡ rows.old.items ++ added)) }
{
    let Reply::Removed(key) = reply else {
        return Ok(copy);
    };
    let world = copy_of(core, copy)?;
    rows.push(explained(alloc, core, &world, *key)?)?;
    Ok(Some(world))
}

// The row of the version that is removed from the core's world, of which there is a copy.
fn explained<C: Explain>(
    alloc: Global,
    core: &C,
    world: &Flat,
    key: Key,
) -> Result<Removed, NoMemory>
    requires { world.now ≡ C.world core.now }
    ensures { IfOk result (IsExplained (C.world core.now, key)) }
{
    let names = world.names.as_slice();
    let path = path_of(alloc, Above::Live, names, Target::File(key.file))?;
    let fate = core.fate(key.file, key.number);
    let hold = hold_in(world, key.file, key.number, &fate)?;
    Ok(Removed {
        at: core.now(),
        key,
        path,
        fate,
        hold,
    })
}

// The moment after an event with the reply.
pub(crate) fn clock_after(reply: &Reply, now: Moment) -> Moment
    ensures { result ≡ clock_after reply.now now }
{
    match reply {
        Reply::Now(to) => *to,
        _ => now,
    }
}
