//! The events that change names of files.
ghost use Rattle.ele_events.specs.Does.{Does, done, revived};
ghost use Rattle.ele_model.specs.declared.event.Event.TheVariants as event;
ghost use Rattle.ele_model.specs.declared.reply.Reply.TheVariants.{File};

use crate::halt::{Halt, check, refuse_if};
use crate::place::{free_place, room_for};
use ele_model::{FileId, Path, Refusal, Target, VersionNo, Which};
use ele_state::State;

/// Makes a file at the path, with an empty first version.
#[inline(never)]
pub fn create(state: &mut State, path: &Path) -> Result<FileId, Halt>
    ensures { Does File state.old.world (event.Create path.now) result state.new.world }
{
    let (directory, name) = check!(free_place(state, path));
    check!(room_for(state, Which::Files));
    check!(room_for(state, Which::Names));
    check!(room_for(state, Which::Versions));
    Ok(state.make_file(directory, name)?)
}

/// Gives the file at the first path the second path as another name.
#[inline(never)]
pub fn link(state: &mut State, from: &Path, to: &Path) -> Result<(), Halt>
    ensures { Does done state.old.world (event.Link from.now to.now) result state.new.world }
{
    let file = check!(state.file_now(from));
    let (directory, name) = check!(free_place(state, to));
    check!(room_for(state, Which::Names));
    Ok(state.add_name(directory, name, Target::File(file))?)
}

/// Deletes the name of the file at the path; with the last name the current version ends.
#[inline(never)]
pub fn unlink(state: &mut State, path: &Path) -> Result<(), Halt>
    ensures { Does done state.old.world (event.Unlink path.now) result state.new.world }
{
    let (directory, name, found) = check!(state.placed_now(path));
    let Target::File(file) = found.target() else {
        return Err(Halt::Refused(Refusal::IsDirectory));
    };
    Ok(state.end_file_name(directory, &name, &found, file)?)
}

/// Moves the file or directory at the first path to the second path.
#[inline(never)]
pub fn rename(state: &mut State, from: &Path, to: &Path) -> Result<(), Halt>
    ensures { Does done state.old.world (event.Rename from.now to.now) result state.new.world }
{
    let (directory, name, found) = check!(state.placed_now(from));
    let (old, moved) = ((directory, name), found.target());
    let new = check!(state.parent_beside(to, from, &old));
    check!(refuse_if(state.stands_in(moved, to), Refusal::IntoItself));
    check!(refuse_if(state.is_taken(new.0, &new.1), Refusal::Exists));
    check!(room_for(state, Which::Names));
    Ok(state.move_name(&old, &new, &found)?)
}

/// Restores the deleted name at the path, with the file or directory that it last had. A file
/// without a live name gets a version with the content of its last one, and `undelete` returns the
/// number of that version.
#[inline(never)]
pub fn undelete(state: &mut State, path: &Path) -> Result<Option<VersionNo>, Halt>
    ensures { Does revived state.old.world (event.Undelete path.now) result state.new.world }
{
    let (directory, name) = check!(state.parent_now(path));
    let Some(lost) = state.last_dead(directory, &name) else {
        check!(refuse_if(state.is_taken(directory, &name), Refusal::Exists));
        return Err(Halt::Refused(Refusal::NoEntry));
    };
    check!(refuse_if(!state.may_return(&lost), Refusal::NotRestorable));
    let Some(file) = state.nameless(&lost) else {
        check!(room_for(state, Which::Names));
        state.add_name(directory, name, lost)?;
        return Ok(None);
    };
    check!(refuse_if(state.has_draft(file), Refusal::Drafting));
    check!(room_for(state, Which::Names));
    check!(room_for(state, Which::Versions));
    let last = state.last_number(file);
    Ok(Some(state.revive(directory, name, file, last)?))
}
