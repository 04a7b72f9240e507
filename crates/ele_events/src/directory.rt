//! The events of directories.
ghost use Rattle.ele_events.specs.Does.{Does, DoesAtOnce, done};
ghost use Rattle.ele_policy.specs.Policy.{IsPolicy};
ghost use Rattle.ele_model.specs.declared.event.Event.TheVariants as event;
ghost use Rattle.ele_model.specs.declared.reply.Reply.TheVariants.{Directory};

use crate::halt::{Halt, check, refuse_if};
use crate::place::{free_place, room_for};
use ele_model::{DirId, Path, Policy, Refusal, Target, Which};
use ele_state::State;

/// Makes a directory at the path, with the default policy of its parent.
#[inline(never)]
pub fn make_dir(state: &mut State, path: &Path) -> Result<DirId, Halt>
    ensures { Does Directory state.old.world (event.MakeDir path.now) result state.new.world }
{
    let (directory, name) = check!(free_place(state, path));
    check!(room_for(state, Which::Directories));
    check!(room_for(state, Which::Names));
    Ok(state.make_directory(directory, name)?)
}

/// Deletes the name of the empty directory at the path.
#[inline(never)]
pub fn remove_dir(state: &mut State, path: &Path) -> Result<(), Refusal>
    ensures { DoesAtOnce done state.old.world (event.RemoveDir path.now) result state.new.world }
{
    let (home, name, found) = check!(state.placed_now(path));
    let Target::Directory(directory) = found.target() else {
        return Err(Refusal::NotDirectory);
    };
    check!(refuse_if(!state.is_empty(directory), Refusal::NotEmpty));
    state.end_name(home, &name, &found);
    Ok(())
}

/// Sets the policy that later files and directories in the directory at the path get.
#[inline(never)]
pub fn set_default(state: &mut State, path: &Path, policy: Policy) -> Result<(), Refusal>
    ensures does { DoesAtOnce done
        state.old.world (event.SetDefault path.now policy) result state.new.world }
    ensures valid { IsPolicy policy }
{
    policy.lemma_valid();
    let directory = check!(state.directory_now(path));
    state.set_default(directory, policy);
    Ok(())
}
