//! Replies to commands. Large values are boxed, so that a reply stays small.
use crate::boxed::Boxed;
use crate::list::{DeletedNameList, GroupList, KeyList, NameList, StampsList};
use crate::refusal::Refusal;
use crate::rows::{DirectoryRow, FileStat};
use ele_due::Key;
use ele_lists::ByteList;
use ele_moment::{DirId, FileId, Handle, Moment, VersionNo};
use ele_usage::Usage;

/// The reply to a command.
#[derive(Drop, PartialEq, Eq)]
pub enum Reply {
    Done,
    /// Nothing was due.
    Nothing,
    Now(Moment),
    Directory(DirId),
    File(FileId),
    Handle(Handle),
    Version(VersionNo),
    /// The handle is closed. The value is the number of the version that it made, if it made one.
    Closed(Option<VersionNo>),
    Removed(Key),
    Bytes(ByteList),
    /// A version, and the policy that governs its file.
    FileStat(Boxed<FileStat>),
    /// A directory, and the default policy of its files.
    DirStat(Boxed<DirectoryRow>),
    /// Versions of one file, by number.
    Rows(StampsList),
    /// The names of a directory and what they mean, or meant, by the bytes of the names.
    NameList(NameList),
    /// The restorable names.
    RestoreList(DeletedNameList),
    DueList(KeyList),
    /// What the files of each kind of policy use, in the order of `Kind`.
    UsageList(Boxed<[Usage; 4]>),
    /// Groups in order of making.
    GroupList(GroupList),
    /// The command was refused, and changed nothing.
    Refused(Refusal),
}
