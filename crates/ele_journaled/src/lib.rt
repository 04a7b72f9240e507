//! The journal of a store, apart from what keeps its world: it says which bytes the file gets, so that
//! no event is lost between both. A contract sees the check at the end of the file, the events since,
//! and what is remembered of the bytes that were given last.
#![tactic(auto)]

mod copy;
mod journal;
pub mod laws;
mod offer;

pub use crate::copy::copy_of;
pub use crate::journal::{Journal, NewFile};
