//! Groups of files, and their marks.
//! A contract sees them as the list of their rows in order of making.
#![tactic(auto)]

mod covering;
mod fault;
mod group;
mod groups;
mod marks;
mod memberships;
mod rows;
mod span;
mod taken;

pub use ele_model::{Cover, MarkRow};
pub use fault::GroupFault;
pub use groups::Groups;
