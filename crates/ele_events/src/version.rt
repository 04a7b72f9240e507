//! The events that make a version of an older one, and that set the policy of a file.
ghost use Rattle.ele_events.specs.Does.{Does, done};
ghost use Rattle.ele_policy.specs.Policy.{IsPolicy};
ghost use Rattle.ele_model.specs.declared.event.Event.TheVariants as event;
ghost use Rattle.ele_model.specs.declared.reply.Reply.TheVariants.{Version};

use crate::halt::{Halt, check, refuse_if};
use crate::place::room_for;
use ele_model::{Path, Policy, Refusal, Tag, VersionNo, Which};
use ele_state::State;

/// Makes a new version of the file at the path, with the content of the version of that number, and
/// returns its number.
#[inline(never)]
pub fn revert(state: &mut State, path: &Path, number: VersionNo) -> Result<VersionNo, Halt>
    ensures { Does Version state.old.world (event.Revert path.now number) result state.new.world }
{
    let file = check!(state.file_now(path));
    check!(state.version_meant(file, Tag::Number(number)));
    check!(refuse_if(state.has_draft(file), Refusal::Drafting));
    check!(room_for(state, Which::Versions));
    Ok(state.revert_to(file, number)?)
}

/// Sets the policy of the file at the path, for all its versions.
#[inline(never)]
pub fn set_policy(state: &mut State, path: &Path, policy: Policy) -> Result<(), Halt>
    ensures does { Does done
        state.old.world (event.SetPolicy path.now policy) result state.new.world }
    ensures valid { IsPolicy policy }
{
    policy.lemma_valid();
    let file = check!(state.file_now(path));
    Ok(state.set_policy(file, policy)?)
}
