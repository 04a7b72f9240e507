//! What changed between two moments, by path. A contract sees the changes as rows.
#![tactic(auto)]

mod difference;
mod names;
mod row;
mod within;

pub use difference::changes_by_path;
pub use row::{Difference, PathChange};
