//! The row of a removed version. A contract sees plain data.
use ele_audit::{NameStory, VersionStory};
use ele_moment::FileId;

/// A version that a clean removed.
#[derive(Drop)]
pub struct Removal {
    pub file: FileId,
    /// What was known of it just before, and when it was removed.
    pub version: VersionStory,
    /// The name that led to its file just before, or the last one that did. None if its file never
    /// had one.
    pub name: Option<NameStory>,
}
