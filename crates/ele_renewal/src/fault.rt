//! Why rows aren't renewed.
//! A contract sees plain data.
use thiserror::Error;

/// Why there are no fresh rows.
#[derive(Clone, Copy, Debug, PartialEq, Eq, Error)]
pub enum RenewError {
    /// A handle or a draft is there. Close all handles first.
    #[error("a handle is open")]
    Open,
    /// Memory was refused.
    #[error("out of memory")]
    NoMemory,
}
