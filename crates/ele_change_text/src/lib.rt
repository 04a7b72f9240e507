//! The text of what changed between two moments. A contract sees a printer as its outlet.
#![tactic(auto)]

mod text;

pub use text::put_changes;
