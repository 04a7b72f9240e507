//! The definitions: events, replies, the world that they change, and what is true of every run. All
//! of them are plain data, and a contract sees the world as the flat rows of `Flat`.
#![tactic(auto)]

mod auditing;
mod audits;
mod boxed;
mod copy;
mod cover;
mod entry;
mod event;
mod explain;
mod fate;
mod flat;
mod from_flat;
pub mod laws;
mod limits;
mod list;
mod pass;
mod refusal;
mod reply;
mod returning;
mod rows;
mod scan;
mod step;
mod sums;

pub use auditing::Audit;
pub use audits::audit;
pub use boxed::Boxed;
pub use cover::Cover;
pub use ele_content::Cell;
pub use ele_due::Key;
pub use ele_lists::{ByteList, ListOf};
pub use ele_moment::{DirId, FileId, Handle, Moment, Name, NoMemory, VersionNo};
pub use ele_path::{KeptName, Path, PathAt, Tag, TaggedPath};
pub use ele_policy::{Cause, Floor, Interval, Kind, Ladder, Policy};
pub use ele_usage::Usage;
pub use entry::Entry;
pub use event::{Event, Source};
pub use explain::Explain;
pub use fate::Fate;
pub use flat::Flat;
pub use from_flat::FromFlat;
pub use limits::{Counts, LimitNumbers, Limits};
pub use list::{
    DeletedNameList, GroupList, KeyList, NameList, Rows, StampsList, deleted_names, name_list,
    triples_of,
};
pub use pass::PassEnd;
pub use refusal::{Refusal, Stop, Which};
pub use reply::Reply;
pub use rows::{
    DeletedName, DirectoryRow, DraftRow, FileRow, FileStat, GroupRow, HandleRow, MarkRow, NameRow,
    Reads, Target, VersionInfo, VersionRow,
};
pub use scan::{is_live, is_member, policy_of, ripe_by};
pub use step::Step;
