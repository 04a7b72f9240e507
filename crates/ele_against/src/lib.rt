//! What a forecast keeps, against what another tool keeps: which versions are kept by both, only by the forecast, or only by
//! the tool, as a table, JSON and CSV. A contract sees them as lists of numbers, a text as its bytes, and a printer as its
//! outlet.
#![tactic(auto)]

mod compared;
mod csv;
mod json;
mod names;
mod table;

pub use compared::{Compared, compare};
pub use csv::{put_compared_csv, put_compared_heading};
pub use json::put_compared_json;
pub use table::{put_bytes, put_compared, put_unknown};
