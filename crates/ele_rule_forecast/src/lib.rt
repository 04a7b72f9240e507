//! What rules of other tools keep of the versions of a forecast, and why, beside what policies make of them: a table, JSON
//! and CSV. A contract sees verdicts as lists, a text as its bytes, and a printer as its outlet.
#![tactic(auto)]

mod csv;
mod json;
mod judged;
mod reason;
mod table;

pub use csv::put_ruled_csv;
pub use json::put_rules_member;
pub use judged::{AskedRule, Judged, Verdict, judge};
pub use table::put_ruled;
