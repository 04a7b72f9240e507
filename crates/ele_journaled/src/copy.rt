//! Copies of events.
//! A contract sees the event.
ghost use Rattle.std.specs.Prelude.{◌≡◌, IfOk};

use ele_model::{ByteList, Event, NoMemory, Path, PathAt, Source, TaggedPath};
use std::alloc::Global;

/// Returns a copy of the event.
///
/// `NoMemory` if memory is refused.
/// Cost: grows with the names of its paths and with its bytes, which it copies.
pub fn copy_of(alloc: Global, event: &Event) -> Result<Event, NoMemory>
    ensures { IfOk result (λ copy. copy ≡ event.now) }
{
    Ok(match event {
        Event::Clock(moment) => Event::Clock(*moment),
        Event::Tick(seconds) => Event::Tick(*seconds),
        Event::MakeDir(path) => Event::MakeDir(path_of(path)?),
        Event::RemoveDir(path) => Event::RemoveDir(path_of(path)?),
        Event::Create(path) => Event::Create(path_of(path)?),
        Event::Link(path, other) => Event::Link(path_of(path)?, path_of(other)?),
        Event::Unlink(path) => Event::Unlink(path_of(path)?),
        Event::Rename(path, other) => Event::Rename(path_of(path)?, path_of(other)?),
        Event::Undelete(path) => Event::Undelete(path_of(path)?),
        Event::OpenWrite(path) => Event::OpenWrite(path_of(path)?),
        Event::OpenRead(tagged) => Event::OpenRead(tagged_of(tagged)?),
        Event::Write(handle, offset, bytes) => {
            Event::Write(*handle, *offset, bytes_of(alloc, bytes)?)
        }
        Event::Truncate(handle, size) => Event::Truncate(*handle, *size),
        Event::Close(handle) => Event::Close(*handle),
        Event::Abandon(handle) => Event::Abandon(*handle),
        Event::Save(path, bytes) => Event::Save(path_of(path)?, bytes_of(alloc, bytes)?),
        Event::Revert(path, version) => Event::Revert(path_of(path)?, *version),
        Event::Restore(path, moment) => Event::Restore(path_of(path)?, *moment),
        Event::CleanOne => Event::CleanOne,
        Event::SetPolicy(path, policy) => Event::SetPolicy(path_of(path)?, policy.copy(alloc)?),
        Event::SetDefault(path, policy) => Event::SetDefault(path_of(path)?, policy.copy(alloc)?),
        Event::GroupMake(name) => Event::GroupMake(name.copy(alloc)?),
        Event::GroupDrop(name) => Event::GroupDrop(name.copy(alloc)?),
        Event::GroupAdd(name, path) => Event::GroupAdd(name.copy(alloc)?, path_of(path)?),
        Event::GroupRemove(name, path) => Event::GroupRemove(name.copy(alloc)?, path_of(path)?),
        Event::Mark(name, moment, until) => Event::Mark(name.copy(alloc)?, *moment, *until),
        Event::Unmark(name, moment) => Event::Unmark(name.copy(alloc)?, *moment),
        Event::Note(bytes) => Event::Note(bytes_of(alloc, bytes)?),
        Event::Read(source) => Event::Read(source_of(source)?),
        Event::Stat(tagged) => Event::Stat(tagged_of(tagged)?),
        Event::Versions(place) => Event::Versions(place_of(place)?),
        Event::List(place) => Event::List(place_of(place)?),
        Event::Restorable => Event::Restorable,
        Event::Due => Event::Due,
        Event::UsageAll => Event::UsageAll,
        Event::GroupsAll => Event::GroupsAll,
    })
}

// A copy of a path.
fn path_of(path: &Path) -> Result<Path, NoMemory>
    ensures { IfOk result (λ copy. copy ≡ path.now) }
{
    Ok(path.clone()?)
}

// A copy of a path with a tag.
fn tagged_of(tagged: &TaggedPath) -> Result<TaggedPath, NoMemory>
    ensures { IfOk result (λ copy. copy ≡ tagged.now) }
{
    Ok(TaggedPath::new(path_of(tagged.path())?, tagged.tag()))
}

// A copy of a path at a moment.
fn place_of(place: &PathAt) -> Result<PathAt, NoMemory>
    ensures { IfOk result (λ copy. copy ≡ place.now) }
{
    Ok(PathAt::new(path_of(&place.path)?, place.moment))
}

// A copy of what a read asks for.
fn source_of(source: &Source) -> Result<Source, NoMemory>
    ensures { IfOk result (λ copy. copy ≡ source.now) }
{
    match source {
        Source::Tagged(tagged) => Ok(Source::Tagged(tagged_of(tagged)?)),
        Source::Of(handle) => Ok(Source::Of(*handle)),
    }
}

// A copy of bytes.
fn bytes_of(alloc: Global, bytes: &ByteList) -> Result<ByteList, NoMemory>
    ensures { IfOk result (λ copy. copy ≡ bytes.now) }
{
    Ok(ByteList::from_vec(Vec::from_slice(alloc, bytes.as_slice())?))
}
