//! Why a word is no path, or no path with a tag. A contract sees a fault as the fault.
ghost use Rattle.std.specs.Prelude.{◌≡◌};
ghost use Rattle.ele_path.specs.declared.fault.PathFault.TheVariants.{NoMemory};
ghost use Rattle.ele_path.specs.declared.fault.PathAtFault.TheVariants.{Path};

use std::alloc::{AllocError, AllocFailed};
use thiserror::Error;

/// Why a word was not read as a path, or as a path with a tag.
#[derive(Clone, Copy, Debug, PartialEq, Eq, Error)]
pub enum PathFault {
    /// A piece between the slashes is no name.
    #[error("not a name")]
    BadName,
    /// The word does not begin with a slash, has an empty piece, or has more than 32 pieces; or no
    /// number follows `#`.
    #[error("not a path")]
    BadPath,
    /// No moment follows `@`.
    #[error("not a moment")]
    BadMoment,
    /// There was no memory for the names.
    #[error("no memory")]
    NoMemory,
}

impl<T: Drop> From<AllocFailed<T>> for PathFault {
    ghost from_gives = { λ _ fault. fault ≡ NoMemory };

    fn from(_refused: AllocFailed<T>) -> PathFault {
        PathFault::NoMemory
    }
}

impl From<AllocError> for PathFault {
    ghost from_gives = { λ _ fault. fault ≡ NoMemory };

    fn from(_refused: AllocError) -> PathFault {
        PathFault::NoMemory
    }
}

/// Why a word was not read as a path at a moment.
#[derive(Clone, Copy, Debug, PartialEq, Eq, Error)]
pub enum PathAtFault {
    /// The word is no path with or without a tag.
    #[error("not a path at a moment")]
    Path(PathFault),
    /// `#` follows the path.
    #[error("a number behind a path")]
    Numbered,
}

impl From<PathFault> for PathAtFault {
    ghost from_gives = { λ path fault. fault ≡ Path path };

    fn from(fault: PathFault) -> PathAtFault {
        PathAtFault::Path(fault)
    }
}
