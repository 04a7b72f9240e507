//! The rows of what changed. A contract sees plain data.
use ele_model::{NameRow, Target};
use ele_moment::{Moment, VersionNo};

/// Two moments between which changes are asked for.
#[derive(Clone, Copy, PartialEq, Eq)]
pub struct Span {
    pub first: Moment,
    pub second: Moment,
}

/// What became of a name between two moments.
#[derive(Clone, Copy, PartialEq, Eq)]
pub enum ChangeKind {
    /// Its file or directory is new.
    Made,
    /// Its file or directory had no name at the first moment, but one before.
    Back,
    /// It is one more name of a file.
    Linked,
    /// It has taken the place of another name.
    Renamed,
    /// It was the last name of its file or directory.
    Deleted,
    /// It is gone, and its file has another name.
    Unlinked,
    /// Its file had two versions at the two moments, of which at least one is held.
    Saved,
    /// Neither of the versions that its file had at the two moments is held: it may be one.
    Forgotten,
}

/// A change of a name, or of the version of a file.
#[derive(Clone, Copy, PartialEq, Eq)]
pub struct Change {
    pub kind: ChangeKind,
    pub target: Target,
    /// The version that the file had at the first moment. None if it had none, or isn't held.
    pub before: Option<VersionNo>,
    /// The same of the second moment.
    pub after: Option<VersionNo>,
    /// The name at the first moment. None if it wasn't there.
    pub from: Option<NameRow>,
    /// The name at the second moment. None if it wasn't there.
    pub to: Option<NameRow>,
}
