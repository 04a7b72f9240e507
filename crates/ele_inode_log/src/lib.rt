//! The held versions of one file, read by number and by moment, with a count of the rows read. A
//! contract sees the list of their rows by number, and the reserved capacity.
#![tactic(auto)]

mod log;
mod meter;
mod row;

pub use log::InodeLog;
pub use meter::Meter;
pub use row::VersionRow;
