//! Policies: when a version of a file becomes due. A contract sees a policy as plain data, an
//! interval as its seconds, and a ladder as the list of its pairs.
#![tactic(auto)]

mod cause;
mod floor;
mod interval;
mod ladder;
pub mod laws;
mod policy;
mod ripening;
mod rule;

pub use cause::{Cause, Newer, cause_of};
pub use floor::Floor;
pub use interval::{BadLadder, Interval};
pub use ladder::Ladder;
pub use policy::{Kind, Policy};
pub use ripening::{ripe, ripe_beside};
pub use rule::{Case, Rule};
