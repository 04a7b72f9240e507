//! A history as a text that can be handed over: its rows in a chain of hashes. A contract sees the
//! text as its bytes, and a history as its entries.
#![tactic(auto)]

mod checking;
mod row;
mod text;
mod verdict;

pub use checking::{line_of, verify};
pub use row::head_row;
pub use text::{evidence, is_evidence, put_evidence};
pub use verdict::{Fault, Verdict, verdict_line};
