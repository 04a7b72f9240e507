//! The events of groups: their files and their marks.
ghost use Rattle.std.specs.Prelude.{◌≡◌, nat_le, false};
ghost use Rattle.std.specs.Option.{option_map_or};
ghost use Rattle.ele_events.specs.Does.{Does, done};
ghost use Rattle.ele_model.specs.declared.event.Event.TheVariants as event;

use crate::halt::{Halt, check, refuse_if};
use crate::place::room_for;
use ele_model::{MarkRow, Moment, Name, Path, Refusal, Which};
use ele_state::State;

// Whether there is an end, and the clock has reached it.
fn has_ended(until: &Option<Moment>, now: Moment) -> bool
    ensures { result ≡ option_map_or (λ end. nat_le end now) until.now false }
{
    match until {
        Some(end) => *end <= now,
        None => false,
    }
}

/// Makes a group of that name, without files and marks.
#[inline(never)]
pub fn make_group(state: &mut State, name: &Name) -> Result<(), Halt>
    ensures { Does done state.old.world (event.GroupMake name.now) result state.new.world }
{
    check!(refuse_if(state.has_group(name), Refusal::GroupExists));
    check!(room_for(state, Which::Groups));
    Ok(state.make_group(name)?)
}

/// Removes the group and its marks.
#[inline(never)]
pub fn drop_group(state: &mut State, name: &Name) -> Result<(), Halt>
    ensures { Does done state.old.world (event.GroupDrop name.now) result state.new.world }
{
    check!(refuse_if(!state.has_group(name), Refusal::NoGroup));
    Ok(state.drop_group(name)?)
}

/// Adds the file at the path to the group.
#[inline(never)]
pub fn add_to_group(state: &mut State, name: &Name, path: &Path) -> Result<(), Halt>
    ensures { Does done
        state.old.world (event.GroupAdd name.now path.now) result state.new.world }
{
    check!(refuse_if(!state.has_group(name), Refusal::NoGroup));
    let file = check!(state.file_now(path));
    check!(refuse_if(state.is_member(name, file), Refusal::AlreadyMember));
    check!(room_for(state, Which::Members));
    Ok(state.add_member(name, file)?)
}

/// Removes the file at the path from the group.
#[inline(never)]
pub fn remove_from_group(state: &mut State, name: &Name, path: &Path) -> Result<(), Halt>
    ensures { Does done
        state.old.world (event.GroupRemove name.now path.now) result state.new.world }
{
    check!(refuse_if(!state.has_group(name), Refusal::NoGroup));
    let file = check!(state.file_now(path));
    check!(refuse_if(!state.is_member(name, file), Refusal::NotMember));
    Ok(state.remove_member(name, file)?)
}

/// Marks the group at a moment before now, for good or until a moment after now.
#[inline(never)]
pub fn mark(
    state: &mut State,
    name: &Name,
    moment: Moment,
    until: &Option<Moment>,
) -> Result<(), Halt>
    ensures { Does done
        state.old.world (event.Mark name.now moment until.now) result state.new.world }
{
    check!(refuse_if(!state.has_group(name), Refusal::NoGroup));
    let is_past = moment.seconds() < state.now().seconds();
    check!(refuse_if(!is_past, Refusal::NotPast));
    check!(refuse_if(has_ended(until, state.now()), Refusal::NotAhead));
    check!(refuse_if(state.has_mark(name, moment), Refusal::MarkExists));
    check!(room_for(state, Which::Marks));
    let mark = MarkRow {
        at: moment,
        until: *until,
    };
    Ok(state.add_mark(name, &mark)?)
}

/// Removes the group's mark at the moment.
#[inline(never)]
pub fn unmark(state: &mut State, name: &Name, moment: Moment) -> Result<(), Halt>
    ensures { Does done state.old.world (event.Unmark name.now moment) result state.new.world }
{
    check!(refuse_if(!state.has_group(name), Refusal::NoGroup));
    check!(refuse_if(!state.has_mark(name, moment), Refusal::NoMark));
    Ok(state.remove_mark(name, moment)?)
}
