//! What changed between two moments: the names of files and directories, and the versions of files.
//! A contract sees names and versions as the rows of a world.
#![tactic(auto)]

mod among;
mod change;
mod difference;
pub mod laws;
mod names;
mod told;
mod version;

pub use change::{Change, ChangeKind, Span};
pub use difference::{changes, span_refusal};
