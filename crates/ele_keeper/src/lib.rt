//! What keeps a store's world: a core, alone or in its history, and the journal around it, if there is one.
//! A contract sees it as the state of a run, and what it holds.
#![tactic(auto)]

mod journal;
mod journaled;
mod keeper;
mod renewal;
mod replaying;
mod why;

pub use crate::journal::{JournalError, compact_of, pending_of};
pub use crate::journaled::JournaledKeeper;
pub use crate::keeper::Keeper;
pub use crate::renewal::{RenewalError, renewed, rows_of};
pub use crate::replaying::replay;
pub use crate::why::explain_why;
