//! The commands of the script language, with their names and arguments, and the text of each event.
//! A contract sees a command and an event as themselves, and their words as bytes.
#![tactic(auto)]

mod byte_words;
mod command;
mod event;
mod kind;
mod path_words;
mod pieces;
mod policy_words;
mod word;

pub use command::{Command, HELP, ROWS, Row, Topic, When};
pub use event::{put_event, put_event_line, write_event_text};
pub use kind::WordKind;
pub use pieces::{Piece, put_pieces_or_dash};
pub use word::{Word, put_line_of};
