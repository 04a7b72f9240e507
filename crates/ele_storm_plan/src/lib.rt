//! The plan of a storm, and the faults that end one.
//! A contract sees both as plain data.
#![tactic(auto)]

mod fault;
mod plan;

pub use fault::{AuditFault, StormFault};
pub use plan::{StormPlan, Task};
