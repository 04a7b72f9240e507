//! Which policy keeps what is asked of a list of versions, at the least cost. A contract sees versions, spans and policies as
//! plain data, and what a policy keeps as its forecast tells it.
#![tactic(auto)]

mod asked;
mod best;
mod calendar;
mod candidates;
mod cut;
mod grain;
mod json;
mod ladders;
mod listed;
mod row;
mod suggestion;
mod table;
mod version;
mod versions;
mod weigh;
mod weighed;
mod words;

pub use asked::{Asked, MOST_SPANS};
pub use candidates::candidates_for;
pub use grain::{Grain, Span, ages_rise};
pub use json::put_suggestion_json;
pub use listed::suggest_for;
pub use suggestion::{Suggestion, suggest};
pub use table::{put_suggestion, put_suggestion_csv};
pub use version::Version;
pub use versions::versions_of;
pub use weighed::Weighed;
pub use words::read_spans;
