//! The laws of the definitions: what is true of every run. `ele_model` has the definitions, and
//! this crate exports all of them too.
#![tactic(auto)]

pub mod laws;
pub mod schedule;

pub use ele_model::{
    Audit, ByteList, Cause, Cell, Counts, Cover, DeletedName, DeletedNameList, DirId, DirectoryRow,
    DraftRow, Entry, Event, Explain, Fate, FileId, FileRow, FileStat, Flat, Floor, GroupList,
    GroupRow, Handle, HandleRow, Interval, KeptName, Key, KeyList, Kind, Ladder, LimitNumbers,
    Limits, ListOf, MarkRow, Moment, Name, NameList, NameRow, NoMemory, PassEnd, Path, PathAt,
    Policy, Reads, Refusal, Reply, Rows, Source, StampsList, Step, Stop, Tag, TaggedPath, Target,
    Usage, VersionInfo, VersionNo, VersionRow, Which, audit,
};
