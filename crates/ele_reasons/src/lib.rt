//! Why a line of a script is no command: which of its words is at fault, and why. A contract sees a
//! line as its bytes, and a reason as itself and as its text.
#![tactic(auto)]

mod bad_word;
mod cut;
mod hints;
mod policy_detail;
mod reasons;

pub use bad_word::reason;
pub use reasons::{Detail, Hint, Reason, put_reason};
