//! What the program does with what its arguments ask for, over whatever steps.
//! A contract sees how a run ended, what the streams hold then, and the status.
#![tactic(auto)]

mod clock;
mod evidence;
mod failure;
mod forecasting;
mod keeps_error;
mod labels;
mod meter;
mod program;
mod storming;
mod strict;
mod summary;
mod system_reason;
mod typing;
mod watched;

pub use clock::now;
pub use ele_invocation::{Invocation, unreadable_args, words};
pub use failure::{Failure, status};
pub use keeps_error::{KeepsError, LastError};
pub use labels::{labels_file, unreadable_labels, with_labels};
pub use meter::{Cleared, Counted, Meter};
pub use program::{dispatch, dispatch_alone};
pub use system_reason::SystemReason;
pub use typing::run_typed;
