//! The removed versions of a history, by its events on a second core. A contract sees them as rows.
ghost use Rattle.std.specs.Prelude.{◌≡◌, ◌++◌, IfOk, OnErr, List};
ghost use Rattle.std.specs.List.{AllZip};
ghost use Rattle.ele_audit.specs.LastCopy.{IsCopy};
ghost use Rattle.ele_audit.specs.Removals.{HasRemovals, removal_in};
ghost use Rattle.ele_removals.specs.Removals.{AreTold, IsTold};

use crate::known::known_story;
use crate::removal::Removal;
use ele_audit::{advance, copy_of, has_removals, version_story};
use ele_history::History;
use ele_model::{Explain, Flat, FromFlat, Key, NoMemory, Reply, Target};
use ele_world::laws;
use std::alloc::Global;

/// Returns the versions that the stored entries removed, in order, each with what was known just
/// before: its moments, its fate, the mark that held it after its policy had let it go, and the name
/// of its file, or the last one if it had none any more.
///
/// `NoMemory` if memory is refused. If no stored entry removed a version, it takes none.
/// Cost: that of a core made of the base and of all stored events on it. The removals between which
/// only the clock moves share one copy of all rows; for each removal these are scanned.
#[tactic(auto, using(crate::proofs::Replays::no_rows))]
pub fn removals<C: Explain + FromFlat>(
    alloc: Global,
    history: &History<C>,
) -> Result<Vec<Removal>, NoMemory>
    ensures ok { IfOk result (λ rows. AreTold history.now rows.items) }
    ensures err { OnErr result (HasRemovals history.now) }
{
    if !has_removals(history.entries()) {
        return Ok(Vec::new(alloc));
    }
    replayed(alloc, history)
}

// The removed versions, by all entries on a second core, which is made of the base.
fn replayed<C: Explain + FromFlat>(
    alloc: Global,
    history: &History<C>,
) -> Result<Vec<Removal>, NoMemory>
    ensures { IfOk result (λ rows. AreTold history.now rows.items) }
{
    // For the proof: events led to the base, so a run may go on in it.
    laws::start_stays();
    let mut core = C::from_flat(alloc, history.base())?;
    let mut copy = None;
    let mut rows = Vec::new(alloc);
    let entries = history.entries();
    for entry in entries {
        let kept = add_removal(alloc, &core, copy, &entry.reply, &mut rows)?;
        copy = advance(alloc, &mut core, kept, &entry.event)?;
    }
    Ok(rows)
}

// Pushes the row of what the reply removes from the core's world. Returns the copy of its rows, or
// the one that it made.
fn add_removal<C: Explain>(
    alloc: Global,
    core: &C,
    copy: Option<Flat>,
    reply: &Reply,
    rows: &mut Vec<Removal>,
) -> Result<Option<Flat>, NoMemory>
    requires { IsCopy (C.world core.now) copy }
    ensures copy { IfOk result (IsCopy (C.world core.now)) }
    ensures rows { IfOk result (λ _. (added : List Removal)
        × AllZip IsTold (removal_in (C.world core.now) reply.now) added
        × (rows.new.items ≡ rows.old.items ++ added)) }
{
    let Reply::Removed(key) = reply else {
        return Ok(copy);
    };
    let world = copy_of(core, copy)?;
    rows.push(removal_of(alloc, core, &world, *key)?)?;
    Ok(Some(world))
}

// The row of the version that is removed from the core's world, of which there is a copy.
fn removal_of<C: Explain>(
    alloc: Global,
    core: &C,
    world: &Flat,
    key: Key,
) -> Result<Removal, NoMemory>
    requires { world.now ≡ C.world core.now }
    ensures { IfOk result (IsTold (C.world core.now, key)) }
{
    let removed = Some(core.now());
    let version = version_story(core, world, key.file, key.number, removed)?;
    let name = known_story(alloc, world.names.as_slice(), &Target::File(key.file))?;
    Ok(Removal {
        file: key.file,
        version,
        name,
    })
}
