//! The events that make a version of given bytes, or of what a path held at a moment.
ghost use Rattle.std.specs.Prelude.{◌≡◌, ◌<◌, ◌≤◌, ◌+◌, ℕ, List, IfOk, IfSome, None, OnOk, Some, IfErr, false, true, find, is_some, length, nat_le};
ghost use Rattle.ele_content.specs.Content.{longest_content};
ghost use Rattle.ele_events.specs.Does.{Does, Gives};
ghost use Rattle.ele_model.specs.Plan.{outcome, refused};
ghost use Rattle.ele_model.specs.Step.{file_standing, restore_name, restore_over, save_new_plan, save_plan, versions_made};
ghost use Rattle.ele_model.specs.Walk.{live_target};
ghost use Rattle.ele_model.specs.World.{is_held, is_version, next_of};
ghost use Rattle.ele_model.specs.declared.event.Event.TheVariants as event;
ghost use Rattle.ele_model.specs.declared.refusal.Which.TheVariants.{Files, Names};
ghost use Rattle.ele_model.specs.declared.reply.Reply.TheVariants.{Version};
ghost use Rattle.ele_model.specs.declared.rows.VersionRow.{VersionRow};
ghost use Rattle.ele_state.specs.Full.{is_full};
ghost use Rattle.ele_state.specs.Home.{IsHome};

use crate::halt::{Halt, check, refuse_if};
use crate::place::room_for;
use crate::then::version_then;
use ele_content::is_too_long;
use ele_model::{
    ByteList, DirId, FileId, Moment, Name, Path, Reads, Refusal, Target, VersionNo, Which,
};
use ele_state::{State, file_in};

// Returns the file that the name means, or none if the name isn't live. Refused: `IsDirectory`.
fn file_standing(state: &State, directory: DirId, name: &Name) -> Result<Option<FileId>, Refusal>
    ensures value { result ≡ file_standing (live_target state.now.world.names directory name.now) }
    ensures there { IfOk result (λ standing.
        IfSome standing (λ file. 0 < next_of state.now.world.files file)) }
    ensures free { IfOk result (λ standing. standing ≡ None
        → is_some (live_target state.now.world.names directory name.now) ≡ false) }
{
    let Some(target) = state.live(directory, name) else {
        return Ok(None);
    };
    let file = check!(file_in(target));
    Ok(Some(file))
}

// Checks what a new file with two versions needs of the limits. Refused: `Full`.
fn room_for_saved(state: &State) -> Result<(), Refusal>
    ensures files { OnOk result (is_full state.now.world Files ≡ false) }
    ensures names { OnOk result (is_full state.now.world Names ≡ false) }
    ensures versions { OnOk result (nat_le state.now.world.limits.versions
        (versions_made state.now.world + 1) ≡ false) }
    ensures refused { IfErr result (λ why. (at : ℕ × List ℕ) (bytes : List ℕ)
        → outcome state.now.world (save_new_plan state.now.world at bytes)
        ≡ refused state.now.world why) }
{
    check!(room_for(state, Which::Files));
    check!(room_for(state, Which::Names));
    refuse_if(state.is_nearly_full(), Refusal::Full(Which::Versions))
}

// Makes the file's next version with the bytes.
fn save_over(state: &mut State, file: FileId, bytes: &[u8]) -> Result<VersionNo, Halt>
    requires there { 0 < next_of state.old.world.files file }
    requires short { length bytes.now ≤ longest_content }
    ensures { Gives Version state.old.world
        (outcome state.old.world (save_plan state.old.world file bytes.now))
        result state.new.world }
{
    check!(refuse_if(state.has_draft(file), Refusal::Drafting));
    check!(room_for(state, Which::Versions));
    Ok(state.save(file, bytes)?)
}

// Makes a file with the bytes as its second version.
fn save_new(
    state: &mut State,
    directory: DirId,
    name: Name,
    bytes: &[u8],
) -> Result<VersionNo, Halt>
    requires home { IsHome state.old.world directory }
    requires free { is_some (live_target state.old.world.names directory name) ≡ false }
    requires short { length bytes.now ≤ longest_content }
    ensures { Gives Version state.old.world
        (outcome state.old.world (save_new_plan state.old.world (directory, name) bytes.now))
        result state.new.world }
{
    check!(room_for_saved(state));
    Ok(state.make_saved(directory, name, bytes)?)
}

/// Makes a new version of the file at the path with these bytes, and returns its number. Where
/// nothing stands at the path, it makes the file, with an empty first version before that one.
#[inline(never)]
pub fn save(state: &mut State, path: &Path, bytes: &ByteList) -> Result<VersionNo, Halt>
    ensures { Does Version state.old.world (event.Save path.now bytes.now) result state.new.world }
{
    let (directory, name) = check!(state.parent_now(path));
    let standing = check!(file_standing(state, directory, &name));
    let bytes = bytes.as_slice();
    check!(refuse_if(is_too_long(0, bytes.len() as u64), Refusal::TooBig));
    match standing {
        Some(file) => save_over(state, file, bytes),
        None => save_new(state, directory, name, bytes),
    }
}

// Makes the held version the newest one of the file: by its number if it is the file's own, else by
// its bytes.
fn restore_over(
    state: &mut State,
    file: FileId,
    from: FileId,
    number: VersionNo,
) -> Result<VersionNo, Halt>
    requires there { 0 < next_of state.old.world.files file }
    requires held { is_held state.old.world from number ≡ true }
    ensures { (row : VersionRow)
        → find (is_version from number) state.old.world.versions ≡ Some row
        → Gives Version state.old.world
        (outcome state.old.world (restore_over state.old.world file row))
        result state.new.world }
{
    check!(refuse_if(state.has_draft(file), Refusal::Drafting));
    check!(room_for(state, Which::Versions));
    if from == file {
        return Ok(state.revert_to(file, number)?);
    }
    let bytes = state.bytes_of(Reads::Version(from, number))?;
    Ok(state.save(file, bytes.as_slice())?)
}

// Does what a restore does where no name stands: the file of the held version has the name again if
// it has no other one, else a new file is made with the version's bytes.
fn restore_name(
    state: &mut State,
    directory: DirId,
    name: Name,
    from: FileId,
    number: VersionNo,
) -> Result<VersionNo, Halt>
    requires home { IsHome state.old.world directory }
    requires free { is_some (live_target state.old.world.names directory name) ≡ false }
    requires held { is_held state.old.world from number ≡ true }
    ensures { (row : VersionRow)
        → find (is_version from number) state.old.world.versions ≡ Some row
        → Gives Version state.old.world
        (outcome state.old.world (restore_name state.old.world (directory, name) row))
        result state.new.world }
{
    if state.nameless(&Target::File(from)).is_none() {
        check!(room_for_saved(state));
        let bytes = state.bytes_of(Reads::Version(from, number))?;
        return Ok(state.make_saved(directory, name, bytes.as_slice())?);
    }
    check!(refuse_if(state.has_draft(from), Refusal::Drafting));
    check!(room_for(state, Which::Names));
    check!(room_for(state, Which::Versions));
    Ok(state.revive(directory, name, from, number)?)
}

/// Makes what the path held at the moment the newest version of the file at the path, and returns
/// its number. Where nothing stands at the path, the file of that version has the name again, or if
/// it has another name, a new file is made with the version's bytes.
#[inline(never)]
pub fn restore(state: &mut State, path: &Path, moment: Moment) -> Result<VersionNo, Halt>
    ensures { Does Version state.old.world (event.Restore path.now moment) result state.new.world }
{
    let (from, info) = check!(version_then(state, path, moment));
    let (directory, name) = check!(state.parent_now(path));
    match check!(file_standing(state, directory, &name)) {
        Some(file) => restore_over(state, file, from, info.number),
        None => restore_name(state, directory, name, from, info.number),
    }
}
