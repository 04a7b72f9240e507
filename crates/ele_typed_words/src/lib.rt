//! Words as people type them behind options: moments from now on, at a time of day and without seconds, and why a word
//! is no policy. A contract sees a word as its bytes, a moment as its seconds, and a reason as itself.
#![tactic(auto)]

mod reason;
mod when;

pub use reason::{PolicyReason, policy_reason};
pub use when::read_when;
