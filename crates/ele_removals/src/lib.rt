//! The removed versions of a history, each with the name that its file had last, and the mark that
//! held it; and the versions that will be due, with names too. A contract sees them as rows.
#![tactic(auto)]

mod ahead;
mod expiring_text;
mod expiry;
mod known;
mod removal;
mod replay;
mod text;

pub use ahead::expiring;
pub use expiring_text::put_expiring;
pub use expiry::{Expiries, Expiry};
pub use removal::Removal;
pub use replay::removals;
pub use text::put_removals;
