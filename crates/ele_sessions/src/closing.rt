//! The result of closing a handle.
//! A contract sees the variants, with files, versions and moments as their numbers.
use ele_moment::{FileId, Moment, VersionNo};

/// What closing a handle does.
#[derive(Clone, Copy, PartialEq, Eq)]
pub enum Closing {
    /// Another handle writes the file, and its draft stays.
    StillOpen,
    /// The draft is discarded, and nothing in it was changed.
    Clean(FileId),
    /// The draft is discarded, and was changed. It was opened at that moment.
    Changed(FileId, Moment),
    /// The handle read that version.
    Unread(FileId, VersionNo),
}
