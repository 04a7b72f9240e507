//! What is wrong with bytes that are no journal, and with events that are no change.
//! A contract sees plain data.
use thiserror::Error;

/// What is wrong with a change that is all there.
#[derive(Clone, Copy, Debug, Error)]
pub enum Damage {
    /// The check of its length is wrong.
    #[error("the check of the length is wrong")]
    Length,
    /// The check of its events is wrong.
    #[error("the check of the events is wrong")]
    Check,
    /// The checks are right, but the bytes aren't one or more events.
    #[error("the bytes are no events")]
    Events,
}

/// What follows the last whole change.
#[derive(Clone, Copy, Debug, Error)]
pub enum Fault {
    /// The front of a change.
    #[error("the last change is cut off")]
    Cut,
    /// Bytes that no change begins with.
    #[error("a change is damaged: {0}")]
    Damaged(Damage),
}

/// Why nothing was recovered.
#[derive(Clone, Copy, Debug, Error)]
pub enum RecoverError {
    /// Memory was refused; the bytes may be a journal.
    #[error("out of memory")]
    NoMemory,
    /// The bytes end before the checkpoint does.
    #[error("the checkpoint is cut off")]
    Cut,
    /// The bytes don't begin as a journal does.
    #[error("not a journal")]
    Head,
    /// The bytes of the checkpoint are none. The place is counted from its first byte.
    #[error("the checkpoint is damaged: {0}")]
    Checkpoint(ele_checkpoint::Fault),
}

/// Why events have no bytes.
#[derive(Clone, Copy, Debug, Error)]
pub enum EncodeError {
    /// Memory was refused.
    #[error("out of memory")]
    NoMemory,
    /// There is no event.
    #[error("a change has at least one event")]
    Empty,
    /// An event is a question.
    #[error("a question is no change")]
    Question,
}

/// Why no change follows.
#[derive(Clone, Copy)]
pub(crate) enum End {
    Memory,
    At(Fault),
}
