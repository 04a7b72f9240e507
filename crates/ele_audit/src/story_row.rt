//! The rows of the story of a file. A contract sees plain data.
use ele_holds::Hold;
use ele_model::{Fate, VersionInfo};
use ele_moment::{FileId, Moment, Name, VersionNo};

/// What is known of a version. For a removed one this is what was known just before its removal.
#[derive(Drop)]
pub struct VersionStory {
    pub number: VersionNo,
    /// Its moments and its length. None if the version wasn't held.
    pub info: Option<VersionInfo>,
    /// What becomes of it, and why. None if the version wasn't held.
    pub fate: Option<Fate>,
    /// Of a version that is due: the mark that held it after its policy had let it go. None if no
    /// mark did.
    pub hold: Option<Hold>,
    /// When it was removed. None if it is held.
    pub removed: Option<Moment>,
}

/// A name of a file, live or dead.
#[derive(Drop)]
pub struct NameStory {
    /// The path of its directory, and the name. The path goes by live names, and by the last name
    /// of a directory that has no live one. None if no such names lead from the root to it.
    pub path: Option<Vec<Name>>,
    pub birth: Moment,
    /// When it died. None if it lives.
    pub death: Option<Moment>,
}

/// The story of a file.
#[derive(Drop)]
pub struct Story {
    pub file: FileId,
    /// Each version of which anything is known, by number.
    pub versions: Vec<VersionStory>,
    /// Each name that the file has or had, in order of making.
    pub names: Vec<NameStory>,
}
