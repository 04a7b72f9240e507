//! Whether flat rows are a world that a run may begin in, as `ele_model` says, and the first fault of
//! rows that are none. A contract sees the rows as a world, and a fault as what is wrong.
#![tactic(auto)]

mod blocks;
mod check;
mod content;
mod counts;
mod directories;
mod drafts;
mod fault;
mod files;
mod groups;
mod homes;
mod lives;
mod names;
mod numbered;
mod readers;
mod sets;
mod test;
mod tree;
mod versions;
mod writers;

pub use check::fault_of;
pub use fault::FlatFault;
