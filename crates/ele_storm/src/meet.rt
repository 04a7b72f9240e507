//! Where the workers of a storm arrive, to show that they run at once.

/// How an arrival ends.
#[derive(Clone, Copy, PartialEq, Eq)]
pub enum MeetEnd {
    /// Another worker has arrived too.
    Met,
    /// No other worker was seen, and the storm ends.
    Alone,
}

/// A place where each worker of a storm arrives once, before its first event.
pub trait Meet {
    /// Registers that the worker has arrived, and returns whether it goes on.
    fn arrive(&self, worker: u32) -> MeetEnd;
}
