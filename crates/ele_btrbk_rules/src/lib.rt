//! btrbk's rules: which rows of a list of backups its schedule keeps, and why. A contract sees rows, options and reasons as
//! lists, the oldest row first, and a word as its bytes.
#![tactic(auto)]

mod begins;
mod begun;
mod items;
mod numbers;
mod schedule;
mod why;

pub use items::{Item, item_of, read_item};
pub use schedule::scheduled;
