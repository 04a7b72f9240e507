//! Events: the commands of a world. Policies are boxed and names of groups kept short, so that an
//! event stays small.
use crate::boxed::Boxed;
use ele_lists::ByteList;
use ele_moment::{Handle, Moment, VersionNo};
use ele_path::{KeptName, Path, PathAt, TaggedPath};
use ele_policy::Policy;

/// What a read returns.
#[derive(Drop)]
pub enum Source {
    /// The version that the path and its tag mean.
    Tagged(TaggedPath),
    /// The version that the handle reads, or the draft that it writes.
    Of(Handle),
}

/// A command.
#[derive(Drop)]
pub enum Event {
    /// Moves the clock to the moment.
    Clock(Moment),
    /// Moves the clock forward by so many seconds.
    Tick(u64),
    /// Makes a directory at the path, with the default policy of its parent.
    MakeDir(Path),
    /// Deletes the name of the directory at the path, which has no live name in it.
    RemoveDir(Path),
    /// Makes a file at the path, with an empty first version.
    Create(Path),
    /// Gives the file at the first path the second path as another name.
    Link(Path, Path),
    /// Deletes the name of the file at the path; with the last name the current version ends.
    Unlink(Path),
    /// Moves the file or directory at the first path to the second path.
    Rename(Path, Path),
    /// Restores the deleted name at the path, with the file or directory that it last had. A file
    /// without a live name gets a version with the content of its last one.
    Undelete(Path),
    /// Opens a handle that writes the file at the path.
    OpenWrite(Path),
    /// Opens a handle that reads the version that the path and its tag mean.
    OpenRead(TaggedPath),
    /// Writes the bytes into the handle's draft, from that offset in bytes on.
    Write(Handle, u64, ByteList),
    /// Sets the length of the handle's draft to so many bytes.
    Truncate(Handle, u64),
    /// Closes the handle; the last writer of a changed draft makes it a version.
    Close(Handle),
    /// Ends the handle, which writes a draft, and makes no version. If no other handle writes the
    /// draft, it is removed with all that was written to it.
    Abandon(Handle),
    /// Makes a new version of the file at the path with these bytes, without a handle. If nothing is
    /// at the path, it makes the file, with an empty first version before that one.
    Save(Path, ByteList),
    /// Makes a new version of the file at the path, with the content of the version of that number.
    Revert(Path, VersionNo),
    /// Makes what the path held at the moment the newest version of the file at the path. If nothing
    /// is at the path, the file has that name again, or a new one is made if it has another.
    Restore(Path, Moment),
    /// Sets the policy of the file at the path.
    SetPolicy(Path, Boxed<Policy>),
    /// Sets the policy that later files and directories in the directory at the path get.
    SetDefault(Path, Boxed<Policy>),
    /// Makes a group of that name, without files and marks.
    GroupMake(KeptName),
    /// Removes the group and its marks.
    GroupDrop(KeptName),
    /// Adds the file at the path to the group.
    GroupAdd(KeptName, Path),
    /// Removes the file at the path from the group.
    GroupRemove(KeptName, Path),
    /// Marks the group at the first moment, which is before now. No clean removes what was current
    /// then of its files, before the mark ends. It ends at the second moment, if there is one.
    Mark(KeptName, Moment, Option<Moment>),
    /// Removes the group's mark at the moment.
    Unmark(KeptName, Moment),
    /// Removes the first due version.
    CleanOne,
    /// Notes the bytes, at most 200: who makes the next changes, say, and why. It is an entry of the
    /// history that changes nothing else.
    Note(ByteList),
    /// Asks for the bytes of a version or a draft.
    Read(Source),
    /// Asks what the path and its tag mean, when it was made, how long it is, and for its policy.
    Stat(TaggedPath),
    /// Asks for the held versions of the file that the path names, or named at its moment.
    Versions(PathAt),
    /// Asks for the names in the directory that the path names, or named at its moment.
    List(PathAt),
    /// Asks for the restorable names.
    Restorable,
    /// Asks for the keys of the due versions.
    Due,
    /// Asks what the files of each kind of policy use.
    UsageAll,
    /// Asks for all groups, with their files and marks.
    GroupsAll,
}
