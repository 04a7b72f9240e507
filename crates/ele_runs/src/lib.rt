//! Runs scripts over any world that steps: bytes in, text out.
//! A contract sees the bytes that the reader gives and that the writer takes, if these are known.
#![tactic(auto)]

mod end;
mod keep;
pub mod laws;
mod line_buffer;
mod lines;
mod note;
mod piece;
mod runner;
mod said;
mod script;
mod tally;

pub use ele_run_options::{RunOptions, ShellFault};
pub use end::{EndLine, RunEnd};
pub use keep::Keep;
pub use line_buffer::{LineBuffer, kept_line};
pub use note::{put_why, why_bad, why_cut};
pub use said::{Said, explain_alone, hear_kept, last_reply};
pub use script::{run_in, run_over, run_to_exit};
pub use tally::{BadLine, Tally};
