//! Why a path leads nowhere. A contract sees a fault as the fault.
use thiserror::Error;

/// Why a path leads nowhere.
#[derive(Clone, Copy, Debug, PartialEq, Eq, Error)]
pub enum WalkFault {
    /// The moment is later than now.
    #[error("later than now")]
    Future,
    /// The path is the root, which has no name.
    #[error("the root has no name")]
    IsRoot,
    /// A name of the path isn't there.
    #[error("no such name")]
    NoEntry,
    /// A name follows the name of a file.
    #[error("not a directory")]
    NotDirectory,
}
