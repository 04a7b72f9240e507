//! Name rows: which name meant what in which directory, from when until when, and where paths led.
//! A contract sees the rows as their list in order of making, and how many were ever made.
#![tactic(auto)]

mod birth_index;
mod found;
mod from_rows;
mod live_names;
mod names;
mod numbered;
mod places;
mod row_lists;
mod table;
mod walk;

pub use ele_model::{NameRow, Target};
pub use found::Found;
pub use names::Names;
pub use walk::{parent_beside, parent_now, placed_now, resolve_at, resolve_now, stands_in};
