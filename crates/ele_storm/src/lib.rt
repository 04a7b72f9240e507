//! Storms: many writers, historians and a cleaner call one history at once, each from a thread of
//! its own. A contract sees which calls a worker has added to its seat, and how many calls a storm
//! has.
#![tactic(auto)]

mod audited;
mod events;
mod flags;
mod halves;
mod meet;
mod storms;
mod worker;

pub use audited::{close_and_audit, share_fresh, storm_and_audit};
pub use ele_storm_plan::{AuditFault, StormFault, StormPlan, Task};
pub use flags::Flags;
pub use meet::{Meet, MeetEnd};
pub use storms::storm;
pub use worker::work;
