//! Why a write or a truncate fails.
//! A contract sees the variants.
ghost use Rattle.std.specs.Prelude.{◌≡◌};
ghost use Rattle.ele_sessions.specs.declared.fault.SessionFault.TheVariants as fault;

use ele_moment::NoMemory;
use thiserror::Error;

/// Why a write or a truncate fails. The drafts and the store are as they were.
#[derive(Clone, Copy, Debug, PartialEq, Eq, Error)]
pub enum SessionFault {
    /// No open handle has that number.
    #[error("no such handle")]
    NoHandle,
    /// The handle is for reading.
    #[error("the handle is one for reading")]
    NotWriter,
    /// The content would be longer than 1,048,576 bytes.
    #[error("the content would be too long")]
    TooBig,
    /// Memory for the change was refused.
    #[error("out of memory")]
    NoMemory,
}

impl From<NoMemory> for SessionFault {
    ghost from_gives = { λ _ made. made ≡ fault.NoMemory };

    fn from(_refused: NoMemory) -> SessionFault {
        SessionFault::NoMemory
    }
}
