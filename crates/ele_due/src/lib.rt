//! The queue of keys, in order of removal: which versions are due, and from when.
//! A contract sees the queue as the list of its keys, each key once, in order.
#![tactic(auto)]

mod key;
mod queue;

pub use key::Key;
pub use queue::DueQueue;
