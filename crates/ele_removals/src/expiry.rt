//! The rows of versions that will be due. A contract sees plain data.
use ele_audit::NameStory;
use ele_model::Key;

/// A version that will be due.
#[derive(Drop)]
pub struct Expiry {
    /// The version, and the first moment at which it is due.
    pub key: Key,
    /// The name that leads to its file now or, if none does, the last one that did. None if its file
    /// never had one.
    pub name: Option<NameStory>,
}

/// The versions that will be due at a moment.
#[derive(Drop)]
pub struct Expiries {
    /// In order of removal.
    pub rows: Vec<Expiry>,
}
