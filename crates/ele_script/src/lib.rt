//! The script language: reads lines, and writes events as lines. It re-exports the calls of
//! `ele_printer` that print answers. A contract sees lines and answers as bytes.
#![tactic(auto)]

mod arguments;
mod command;
pub mod line_laws;
mod pairs;
pub mod policy_laws;
mod reading;
mod word;
mod writing;

pub use command::{kinds_for, read_command};
pub use ele_commands::WordKind;
pub use ele_output::{Printer, WriteFault};
pub use ele_printer::{
    LineFault, put_ahead, put_answer, put_fault, put_history, put_named, put_pass, put_placed,
    put_reply, put_stop, put_trimmed, put_why, write_reply,
};
pub use pairs::ladder_pairs;
pub use reading::{LONGEST_LINE, Line, Question, read_event, read_line, read_line_in, word_end};
pub use word::{begins_path, check_word, policy as read_policy, safe_numbers};
pub use writing::write_event;
