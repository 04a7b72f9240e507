//! Rules by which other backup tools keep some of a list of backups: which rows a rule keeps, and why. A contract sees a
//! row, a rule and a reason as plain data, and a list of rows as a list.
#![tactic(auto)]

mod length;
mod limit;
mod marking;
mod names;
mod reading;
mod rule;
mod tool;
mod ways;

pub use ele_rule_parts::{By, Limit, Month, Offset, Part, Reach, Reason, Row, Span, kind_of};
pub use reading::{RuleFault, Wrong, read_rule};
pub use rule::PeerRule;
pub use tool::Tool;
