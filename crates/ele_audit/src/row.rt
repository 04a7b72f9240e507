//! The rows of an audit. A contract sees plain data.
use ele_holds::Hold;
use ele_model::{Fate, HandleRow, Key};
use ele_moment::{Moment, Name};

/// A version that a clean removed.
#[derive(Drop)]
pub struct Removed {
    /// When it was removed.
    pub at: Moment,
    /// Its file, its number, and the first moment at which it was due.
    pub key: Key,
    /// The path that led to its file just before. None if no live names did.
    pub path: Option<Vec<Name>>,
    /// Why it was due.
    pub fate: Option<Fate>,
    /// The mark that held it after its policy had let it go. None if no mark did.
    pub hold: Option<Hold>,
}

/// An open handle.
#[derive(Drop)]
pub struct OpenHandle {
    /// Its number, and what it reads.
    pub row: HandleRow,
    /// For a writer when the draft was opened, for a reader when the handle was. None for a reader
    /// that a folded entry opened.
    pub since: Option<Moment>,
    /// The path that leads to its file now. None if no live names do.
    pub path: Option<Vec<Name>>,
}
