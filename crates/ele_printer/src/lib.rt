//! Prints the answers of the script language: replies, stops, ends of passes, faults of lines,
//! histories, trims and explanations. A contract sees them as bytes, and a writer as the bytes that
//! it is known to hold.
#![tactic(auto)]

mod fault;
mod group_rows;
mod history;
mod refusal;
mod reply;
mod row;
mod rows;
mod text;
mod why;

pub use fault::LineFault;
pub use history::{put_history, put_trimmed};
pub use reply::{
    put_answer, put_fault, put_in_front, put_named, put_pass, put_placed, put_reply, put_stop,
};
pub use text::write_reply;
pub use why::{put_ahead, put_fate, put_why};
