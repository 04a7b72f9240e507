//! Rows with fresh numbers and the same past, so that a store near its limits can go on.
//! A contract sees the flat worlds before and after.
#![tactic(auto)]

mod across;
mod counts;
mod fault;
pub mod laws;
mod numbers;
mod rows;
mod world;
mod writers;

pub use across::{directory_across, file_across, version_across};
pub use fault::RenewError;
pub use world::renew;
