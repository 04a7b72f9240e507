//! The events of handles and drafts.
ghost use Rattle.ele_events.specs.Does.{Does, DoesAtOnce, done};
ghost use Rattle.ele_model.specs.declared.event.Event.TheVariants as event;
ghost use Rattle.ele_model.specs.declared.reply.Reply.TheVariants as reply;

use crate::halt::{Halt, check, refuse_if};
use crate::place::room_for;
use ele_content::is_too_long;
use ele_model::{ByteList, Handle, Path, Refusal, TaggedPath, VersionNo, Which};
use ele_state::State;

/// Opens a handle that writes the file at the path.
#[inline(never)]
pub fn open_write(state: &mut State, path: &Path) -> Result<Handle, Halt>
    ensures { Does reply.Handle state.old.world (event.OpenWrite path.now) result state.new.world }
{
    let file = check!(state.file_now(path));
    check!(room_for(state, Which::Handles));
    if state.has_draft(file) {
        return Ok(state.open_write(file)?);
    }
    check!(room_for(state, Which::Versions));
    Ok(state.open_write(file)?)
}

/// Opens a handle that reads the version that the path and its tag mean.
#[inline(never)]
pub fn open_read(state: &mut State, tagged: &TaggedPath) -> Result<Handle, Halt>
    ensures { Does reply.Handle state.old.world (event.OpenRead tagged.now) result state.new.world }
{
    let (file, info) = check!(state.version_at(tagged));
    check!(room_for(state, Which::Handles));
    Ok(state.open_read(file, info.number)?)
}

/// Writes the bytes into the handle's draft, from that offset in bytes on.
#[inline(never)]
pub fn write(state: &mut State, handle: Handle, offset: u64, bytes: &ByteList) -> Result<(), Halt>
    ensures { Does done
        state.old.world (event.Write handle offset bytes.now) result state.new.world }
{
    let file = check!(state.file_by(handle));
    let bytes = bytes.as_slice();
    if bytes.is_empty() {
        return Ok(());
    }
    check!(refuse_if(is_too_long(offset, bytes.len() as u64), Refusal::TooBig));
    Ok(state.write(file, offset, bytes)?)
}

/// Sets the length of the handle's draft to so many bytes.
#[inline(never)]
pub fn truncate(state: &mut State, handle: Handle, size: u64) -> Result<(), Halt>
    ensures { Does done state.old.world (event.Truncate handle size) result state.new.world }
{
    let file = check!(state.file_by(handle));
    check!(refuse_if(is_too_long(0, size), Refusal::TooBig));
    Ok(state.truncate(file, size)?)
}

/// Closes the handle; the last writer of a changed draft makes it the file's next version, and
/// `close` returns its number.
#[inline(never)]
pub fn close(state: &mut State, handle: Handle) -> Result<Option<VersionNo>, Halt>
    ensures { Does reply.Closed state.old.world (event.Close handle) result state.new.world }
{
    let found = check!(state.handle(handle));
    Ok(state.close(&found)?)
}

/// Ends the handle, which writes a file, and makes no version. If no other handle writes the file,
/// its draft is discarded.
#[inline(never)]
pub fn abandon(state: &mut State, handle: Handle) -> Result<(), Refusal>
    ensures { DoesAtOnce done state.old.world (event.Abandon handle) result state.new.world }
{
    let file = check!(state.file_by(handle));
    let found = check!(state.handle(handle));
    state.abandon(&found, file);
    Ok(())
}
