//! The mark that held a version after its policy had let it go. A contract sees groups, files and
//! versions as the rows of a world.
#![tactic(auto)]

mod hold;
mod policy;

pub use hold::{Hold, hold_of};
