//! The events that ask what a path or a handle means. They change nothing.
ghost use Rattle.std.specs.Prelude.{◌≡◌, ◌<◌, Ok, Err, IfOk, IfErr};
ghost use Rattle.ele_events.specs.Does.{Does, DoesAtOnce, stat_told};
ghost use Rattle.ele_model.specs.declared.event.Event.TheVariants as event;
ghost use Rattle.ele_model.specs.declared.event.Source.TheVariants as source;
ghost use Rattle.ele_model.specs.declared.reply.Reply.TheVariants.{Bytes, NameList, Rows};
ghost use Rattle.ele_model.specs.declared.rows.Target.TheVariants.{File, Directory};
ghost use Rattle.ele_model.specs.Told.{stat_of};
ghost use Rattle.ele_model.specs.World.{next_of};

use crate::halt::{Halt, check};
use ele_model::{
    ByteList, DirId, DirectoryRow, FileId, FileStat, Handle, NameList, PathAt, Reads, Refusal,
    Source, StampsList, Tag, TaggedPath, Target,
};
use ele_state::{State, directory_in, file_in};

/// A file or directory that a path and its tag mean.
#[derive(Clone, Copy, PartialEq, Eq)]
pub enum Stat {
    /// A version, and the policy that governs its file.
    File(FileStat),
    /// A directory, with the default policy of its files.
    Directory(DirectoryRow),
}

// The bytes that the handle reads.
fn read_handle(state: &State, handle: Handle) -> Result<ByteList, Halt>
    ensures { Does Bytes
        state.now.world (event.Read (source.Of handle)) result state.now.world }
{
    let reads = check!(state.reads_by(handle));
    Ok(state.bytes_of(reads)?)
}

// The bytes of the version that the path and its tag mean.
fn read_version(state: &State, tagged: &TaggedPath) -> Result<ByteList, Halt>
    ensures { Does Bytes
        state.now.world (event.Read (source.Tagged tagged.now)) result state.now.world }
{
    let (file, info) = check!(state.version_at(tagged));
    let reads = Reads::Version(file, info.number);
    Ok(state.bytes_of(reads)?)
}

/// Returns the bytes of the version that the path and its tag mean, or of the handle's version or
/// draft.
#[inline(never)]
pub fn read(state: &State, source: &Source) -> Result<ByteList, Halt>
    ensures { Does Bytes state.now.world (event.Read source.now) result state.now.world }
{
    match source {
        Source::Of(handle) => read_handle(state, *handle),
        Source::Tagged(tagged) => read_version(state, tagged),
    }
}

// The stat of the file's version that the tag means.
fn stat_file(state: &State, file: FileId, tag: Tag) -> Result<Stat, Refusal>
    requires { 0 < next_of state.now.world.files file }
    ensures ok { IfOk result
        (λ stat. stat_of state.now.world (File file) tag ≡ Ok (stat_told stat)) }
    ensures refused { IfErr result
        (λ refusal. stat_of state.now.world (File file) tag ≡ Err refusal) }
{
    let info = check!(state.version_meant(file, tag));
    let policy = state.policy_for(file);
    Ok(Stat::File(FileStat { file, info, policy }))
}

// The stat of the directory, which has no numbered versions.
fn stat_directory(state: &State, id: DirId, tag: Tag) -> Result<Stat, Refusal>
    ensures ok { IfOk result
        (λ stat. stat_of state.now.world (Directory id) tag ≡ Ok (stat_told stat)) }
    ensures refused { IfErr result
        (λ refusal. stat_of state.now.world (Directory id) tag ≡ Err refusal) }
{
    if let Tag::Number(_) = tag {
        return Err(Refusal::IsDirectory);
    }
    let default = state.default_of(id);
    Ok(Stat::Directory(DirectoryRow { id, default }))
}

/// Returns what the path and its tag mean, when it was made, how long it is, and its policy.
#[inline(never)]
pub fn stat_at(state: &State, tagged: &TaggedPath) -> Result<Stat, Refusal>
    ensures { DoesAtOnce stat_told state.now.world (event.Stat tagged.now) result state.now.world }
{
    match check!(state.walk_meant(tagged.path(), tagged.tag())) {
        Target::File(file) => stat_file(state, file, tagged.tag()),
        Target::Directory(id) => stat_directory(state, id, tagged.tag()),
    }
}

/// Returns the held versions of the file that the path names, or named at its moment.
#[inline(never)]
pub fn versions(state: &State, at: &PathAt) -> Result<StampsList, Halt>
    ensures { Does Rows state.now.world (event.Versions at.now) result state.now.world }
{
    let target = check!(state.walk_then(at));
    let file = check!(file_in(target));
    Ok(state.versions(file)?)
}

/// Returns the names in the directory that the path names, or named at its moment.
#[inline(never)]
pub fn list(state: &State, at: &PathAt) -> Result<NameList, Halt>
    ensures { Does NameList state.now.world (event.List at.now) result state.now.world }
{
    let target = check!(state.walk_then(at));
    let directory = check!(directory_in(target));
    let moment = at.moment.unwrap_or(state.now());
    Ok(state.names_in(directory, moment)?)
}
