//! The history that a script makes, if each of its lines is answered. A contract sees the script as
//! its lines, and what they were answered by the definitions of runs.
#![tactic(auto)]

mod recording;

pub use recording::{Unrecorded, record};
