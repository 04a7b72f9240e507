//! What files and their versions use, as running sums for each kind of policy.
//! A contract sees the book as four records of sums, one for each kind.
#![tactic(auto)]

mod book;
mod usage;

pub use book::UsageBook;
pub use usage::Usage;
