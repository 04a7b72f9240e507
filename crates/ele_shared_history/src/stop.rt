//! Why a call of a shared history fails.

/// Why an attempt fails. The event is in no history, and nothing has changed.
#[derive(Clone, Copy, PartialEq, Eq)]
pub enum TryStop {
    NoMemory,
    HistoryFull,
    /// Another call had the turn, or took it first.
    Busy,
}

/// A call took the turn and never gave it back, so no slot has the history.
#[derive(Clone, Copy, PartialEq, Eq)]
pub struct TurnHeld;
