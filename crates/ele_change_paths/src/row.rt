//! The rows of what changed, with paths. A contract sees plain data.
use ele_changes::Change;
use ele_moment::Name;

/// A change, with the paths of its name.
#[derive(Drop)]
pub struct PathChange {
    pub change: Change,
    /// The path of the name at the first moment. None if it wasn't there.
    pub from: Option<Vec<Name>>,
    /// The same of the second moment.
    pub to: Option<Vec<Name>>,
}

/// What changed between two moments.
#[derive(Drop)]
pub struct Difference {
    /// The changes, in order of the making of names.
    pub rows: Vec<PathChange>,
}
