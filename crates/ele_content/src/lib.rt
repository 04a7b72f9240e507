//! Cells, the result of a write or a truncate, and when two slots are one block.
//! A contract sees a content as the list of its cells.
#![tactic(auto)]

mod cell;
mod longest;

pub use cell::Cell;
pub use longest::is_too_long;
