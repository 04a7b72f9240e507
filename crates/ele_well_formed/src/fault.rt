//! Why rows are no world. A contract sees a fault as the fault.
use thiserror::Error;

/// Why rows are no world: which part of a world fails, and the place of a row that shows it, counted
/// from 0 in its list.
#[derive(Clone, Copy, Debug, PartialEq, Eq, Error)]
pub enum FlatFault {
    /// A count of what was made is above its limit, or below the rows that there are.
    #[error("the counts don't fit the limits or the rows")]
    Counts,
    /// There is no root directory.
    #[error("no root directory")]
    Root,
    /// The number of the directory at this place wasn't given, or isn't above the one before it.
    #[error("directory row {0}: its number is wrong or out of order")]
    Directories(usize),
    /// More directories were made than the limit allows.
    #[error("more directories than the limit")]
    DirectoryCount,
    /// The file at this place has a wrong number or next number, or isn't in order.
    #[error("file row {0}: its numbers are wrong or out of order")]
    Files(usize),
    /// The name at this place means a file that isn't there, has wrong moments, or lives while an
    /// earlier row of the same name lives.
    #[error("name row {0}: its file, its moments or an earlier life of the name is wrong")]
    Names(usize),
    /// The name at this place is in a directory that isn't there or can't be reached, or means a
    /// directory that isn't there.
    #[error("name row {0}: its directory isn't there or has no live name")]
    Homes(usize),
    /// The directory at this place has no name.
    #[error("directory row {0}: it has no name")]
    Nameless(usize),
    /// The live name at this place means a directory that an earlier live name means.
    #[error("name row {0}: its directory has an earlier live name")]
    Tree(usize),
    /// The name at this place means the root directory.
    #[error("name row {0}: it means the root directory")]
    RootName(usize),
    /// The live name at this place is in a directory to which no live names lead from the root: one
    /// that is in itself, at some depth.
    #[error("name row {0}: no live names lead from the root to its directory")]
    Cycle(usize),
    /// The version at this place has a wrong file, number, moment or content, or isn't in order.
    #[error("version row {0}: its file, numbers, moments or content is wrong, or its order")]
    Versions(usize),
    /// The draft at this place has a wrong file, moment or content, or isn't in order.
    #[error("draft row {0}: its file, moment or content is wrong, or its order")]
    Drafts(usize),
    /// The handle at this place has a wrong number, writes a draft that isn't there, or isn't in
    /// order.
    #[error("handle row {0}: its number, its draft or its order is wrong")]
    Handles(usize),
    /// The handle at this place reads a version that isn't held.
    #[error("handle row {0}: its version isn't held")]
    Readers(usize),
    /// No handle writes the draft at this place.
    #[error("draft row {0}: no handle writes it")]
    Writers(usize),
    /// The file at this place is live, and its last version isn't held or has an end.
    #[error("file row {0}: it has a name and no current version")]
    Current(usize),
    /// The version at this place has no end, and its file has no live name.
    #[error("version row {0}: it has no end, and its file no name")]
    Ended(usize),
    /// The file at this place has no live name, no version and no draft.
    #[error("file row {0}: it has no name, no version and no draft")]
    Idle(usize),
    /// The group at this place has a wrong file or mark, or the name of an earlier group.
    #[error("group row {0}: its files, its marks or its name is wrong")]
    Groups(usize),
    /// There are more groups than were made.
    #[error("more groups than were made")]
    GroupCount,
    /// A cell at this place has other bytes than a cell of an earlier row that has the same file,
    /// slot and writer. The place counts the versions, and then the drafts.
    #[error("version or draft row {0}: a cell's bytes differ from those of the same block")]
    Blocks(usize),
}
