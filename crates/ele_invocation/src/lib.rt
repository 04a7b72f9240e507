//! What the program's arguments ask for, read by clap: a run, a storm, a forecast, evidence or help.
//! A contract sees the program as clap reads it, and for each command which of its words ask for what.
#![tactic(auto)]

mod evidence;
mod forecast;
mod invocation;
mod keeping;
mod matches;
mod reading;
mod rules;
mod run;
mod storm;
mod topics;

pub use invocation::{Invocation, unreadable_args, words};
