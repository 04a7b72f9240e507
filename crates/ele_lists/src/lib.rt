//! Lists, the result of a change at one place, and rows by a rising key.
//! A contract sees a list as its items.
#![tactic(auto)]

mod keyed;
mod list;

pub use keyed::Keyed;
pub use list::{ByteList, ListOf};
