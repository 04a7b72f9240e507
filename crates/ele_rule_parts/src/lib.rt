//! What rules of other backup tools are made of: rows of a list of backups, spans of time by their clocks, parts of a rule,
//! and reasons. A contract sees each of them as plain data, and a name or a word as its bytes.
#![tactic(auto)]

mod calendar;
mod cut;
mod kind;
mod part;
mod reason;
mod row;
mod span;

pub use calendar::Month;
pub use cut::cut_at;
pub use kind::kind_of;
pub use part::{Limit, Part, Reach};
pub use reason::{By, Reason};
pub use row::{Offset, Row};
pub use span::Span;
