//! What an event checks, answers and asks of a state: a function for each event that takes a path, a
//! name or a handle, or changes the world. A contract sees the flat world of the state.
//! `Core` of `ele_core` documents its refusals and its cost.
#![tactic(auto)]

mod clean;
mod directory;
mod group;
mod halt;
mod name;
mod noting;
mod place;
mod question;
mod saving;
mod session;
mod then;
mod time;
mod version;

pub use crate::clean::clean_one;
pub use crate::directory::{make_dir, remove_dir, set_default};
pub use crate::group::{add_to_group, drop_group, make_group, mark, remove_from_group, unmark};
pub use crate::halt::Halt;
pub use crate::name::{create, link, rename, undelete, unlink};
pub use crate::noting::note;
pub use crate::question::{Stat, list, read, stat_at, versions};
pub use crate::saving::{restore, save};
pub use crate::session::{abandon, close, open_read, open_write, truncate, write};
pub use crate::time::{clock, tick};
pub use crate::version::{revert, set_policy};
