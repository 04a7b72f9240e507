//! The event that a call asks for. A contract sees its arguments as the bytes and numbers that C gives.
ghost use Rattle.ele_c_values.specs.Call.{AsksNumbered};

use crate::asks::{
    content, mark, member, moment, name, name_at, path, path_at, path_then, paths, policy, saved,
    tagged,
};
use crate::call::Call;
use ele_model::{Event, Handle, Source, VersionNo};
use ele_script::LineFault;
use std::alloc::Global;

/// Returns the event that a call asks for with two texts, the kind of a tag and two numbers. `Syntax` if
/// no call has the number.
pub fn event(
    alloc: Global,
    call: Option<Call>,
    first: &[u8],
    second: &[u8],
    tag: u32,
    number: u64,
    other: u64,
) -> Result<Event, LineFault>
    ensures { AsksNumbered call first.now second.now tag number other result }
{
    let Some(call) = call else {
        return Err(LineFault::Syntax);
    };
    match call {
        Call::Clock => moment(number).map(Event::Clock),
        Call::Tick => Ok(Event::Tick(number)),
        Call::MakeDir => path(alloc, first).map(Event::MakeDir),
        Call::RemoveDir => path(alloc, first).map(Event::RemoveDir),
        Call::Create => path(alloc, first).map(Event::Create),
        Call::Link => paths(alloc, first, second).map(|(from, to)| Event::Link(from, to)),
        Call::Unlink => path(alloc, first).map(Event::Unlink),
        Call::Rename => paths(alloc, first, second).map(|(from, to)| Event::Rename(from, to)),
        Call::Undelete => path(alloc, first).map(Event::Undelete),
        Call::OpenWrite => path(alloc, first).map(Event::OpenWrite),
        Call::OpenRead => match tagged(alloc, first, tag, number) {
            Ok(tagged) => Ok(Event::OpenRead(tagged)),
            Err(fault) => Err(fault),
        },
        Call::Write => {
            content(alloc, first).map(|bytes| Event::Write(Handle(number), other, bytes))
        }
        Call::Truncate => Ok(Event::Truncate(Handle(number), other)),
        Call::Close => Ok(Event::Close(Handle(number))),
        Call::Revert => match path(alloc, first) {
            Ok(path) => Ok(Event::Revert(path, VersionNo(number))),
            Err(fault) => Err(fault),
        },
        Call::SetPolicy => match policy(alloc, first, second) {
            Ok(both) => Ok(Event::SetPolicy(both.0, both.1)),
            Err(fault) => Err(fault),
        },
        Call::SetDefault => match policy(alloc, first, second) {
            Ok(both) => Ok(Event::SetDefault(both.0, both.1)),
            Err(fault) => Err(fault),
        },
        Call::GroupMake => name(alloc, first).map(Event::GroupMake),
        Call::GroupDrop => name(alloc, first).map(Event::GroupDrop),
        Call::GroupAdd => match member(alloc, first, second) {
            Ok(both) => Ok(Event::GroupAdd(both.0, both.1)),
            Err(fault) => Err(fault),
        },
        Call::GroupRemove => match member(alloc, first, second) {
            Ok(both) => Ok(Event::GroupRemove(both.0, both.1)),
            Err(fault) => Err(fault),
        },
        Call::Mark => mark(alloc, first, number, other).map(|(name, at, end)| Event::Mark(
            name, at, end,
        )),
        Call::Unmark => name_at(alloc, first, number).map(|(name, at)| Event::Unmark(name, at)),
        Call::CleanOne => Ok(Event::CleanOne),
        Call::Read => match tagged(alloc, first, tag, number) {
            Ok(tagged) => Ok(Event::Read(Source::Tagged(tagged))),
            Err(fault) => Err(fault),
        },
        Call::ReadHandle => Ok(Event::Read(Source::Of(Handle(number)))),
        Call::Stat => match tagged(alloc, first, tag, number) {
            Ok(tagged) => Ok(Event::Stat(tagged)),
            Err(fault) => Err(fault),
        },
        Call::Versions => match path_at(alloc, first, tag, number) {
            Ok(at) => Ok(Event::Versions(at)),
            Err(fault) => Err(fault),
        },
        Call::ListNames => match path_at(alloc, first, tag, number) {
            Ok(at) => Ok(Event::List(at)),
            Err(fault) => Err(fault),
        },
        Call::Restorable => Ok(Event::Restorable),
        Call::Due => Ok(Event::Due),
        Call::UsageAll => Ok(Event::UsageAll),
        Call::GroupsAll => Ok(Event::GroupsAll),
        Call::Save => match saved(alloc, first, second) {
            Ok(both) => Ok(Event::Save(both.0, both.1)),
            Err(fault) => Err(fault),
        },
        Call::Abandon => Ok(Event::Abandon(Handle(number))),
        Call::Restore => match path_then(alloc, first, number) {
            Ok(both) => Ok(Event::Restore(both.0, both.1)),
            Err(fault) => Err(fault),
        },
        Call::Note => content(alloc, first).map(Event::Note),
    }
}
