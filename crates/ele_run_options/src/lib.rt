//! The options of a run, and the faults that end it before the end of its input.
//! A contract sees both as plain data.
#![tactic(auto)]

mod fault;
mod options;

pub use fault::ShellFault;
pub use options::RunOptions;
