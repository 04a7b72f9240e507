//! The rows of a world: its files, directories, names, versions, drafts, handles and groups.
ghost use Rattle.std.specs.Prelude.{Some};
ghost use Rattle.ele_model.specs.FateText.{mark_word};

use ele_content::Cell;
use ele_lists::{Keyed, ListOf};
use ele_moment::{DirId, FileId, Handle, Moment, Name, VersionNo};
use ele_path::KeptName;
use ele_policy::Policy;
use std::fmt;

/// A file: its policy, and the number that its next version gets.
#[derive(Clone, Copy, PartialEq, Eq)]
pub struct FileRow {
    pub id: FileId,
    pub policy: Policy,
    pub next: VersionNo,
}

/// A directory, and the default policy of files that are made in it.
#[derive(Clone, Copy, PartialEq, Eq)]
pub struct DirectoryRow {
    pub id: DirId,
    pub default: Policy,
}

impl Keyed for DirectoryRow {
    ghost key = { λ row. row.id };

    fn key(&self) -> u64 {
        self.id.0
    }
}

/// The file or directory of a name.
#[derive(Clone, Copy, PartialEq, Eq)]
pub enum Target {
    File(FileId),
    Directory(DirId),
}

/// A name in a directory, from its birth until its death; without a death it is live.
#[derive(Clone, Copy, PartialEq, Eq)]
pub struct NameRow {
    pub directory: DirId,
    pub name: Name,
    pub target: Target,
    pub birth: Moment,
    pub death: Option<Moment>,
}

/// A name whose newest row is dead, and the target of that row.
#[derive(Drop, PartialEq, Eq)]
pub struct DeletedName {
    pub directory: DirId,
    pub name: KeptName,
    pub target: Target,
}

/// A held version of a file: the moments at which it was opened, closed and, if it has an end,
/// ended.
#[derive(Drop, PartialEq, Eq)]
pub struct VersionRow {
    pub file: FileId,
    pub number: VersionNo,
    pub opened: Moment,
    pub closed: Moment,
    pub ended: Option<Moment>,
    pub cells: ListOf<Cell>,
}

/// A version's number, its moments, and its length in bytes.
#[derive(Clone, Copy, PartialEq, Eq)]
pub struct VersionInfo {
    pub number: VersionNo,
    pub opened: Moment,
    pub closed: Moment,
    pub ended: Option<Moment>,
    pub length: u64,
}

/// A file's version, and the policy that governs the file.
#[derive(Clone, Copy, PartialEq, Eq)]
pub struct FileStat {
    pub file: FileId,
    pub info: VersionInfo,
    pub policy: Policy,
}

/// The draft of a file.
#[derive(Drop, PartialEq, Eq)]
pub struct DraftRow {
    pub file: FileId,
    pub opened: Moment,
    pub cells: ListOf<Cell>,
    pub changed: bool,
}

/// What a handle reads.
#[derive(Clone, Copy, PartialEq, Eq, Hash)]
pub enum Reads {
    /// The file's draft, which the handle also writes.
    Draft(FileId),
    /// The file's version with that number.
    Version(FileId, VersionNo),
}

/// An open handle, and what it reads.
#[derive(Clone, Copy, PartialEq, Eq)]
pub struct HandleRow {
    pub number: Handle,
    pub reads: Reads,
}

impl Keyed for HandleRow {
    ghost key = { λ row. row.number };

    fn key(&self) -> u64 {
        self.number.0
    }
}

/// A mark of a group: the moment that it marks, and its end, if it has one. It is in force before
/// its end, and stays listed after it. It displays as scripts print it, `5` or `5/60`.
#[derive(Clone, Copy, PartialEq, Eq)]
pub struct MarkRow {
    pub at: Moment,
    pub until: Option<Moment>,
}

impl fmt::Display for MarkRow {
    ghost output = { λ mark. Some (mark_word mark) };

    fn fmt<W: fmt::Write>(&self, f: &mut fmt::Formatter<W>) -> fmt::Result {
        let at = self.at;
        match self.until {
            Some(until) => write!(f, "{at}/{until}"),
            None => write!(f, "{at}"),
        }
    }
}

/// A group: its files in order of adding, and its marks in order of making.
#[derive(Drop, PartialEq, Eq)]
pub struct GroupRow {
    pub name: Name,
    pub members: ListOf<FileId>,
    pub marks: ListOf<MarkRow>,
}
