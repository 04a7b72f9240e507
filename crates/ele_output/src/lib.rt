//! Buffered output to a writer. A contract sees a writer as the bytes that it is known to hold, and
//! a printer as an outlet.
#![tactic(auto)]

mod fault;
mod line;
mod number;
mod printer;

pub use fault::WriteFault;
pub use line::{put_line, put_word, put_words};
pub use number::{put_number, put_with_number};
pub use printer::{Printer, ROOM, write_all};
