//! Further forms of a forecast: several policies side by side, how many versions each keeps as time goes on, JSON
//! and CSV. A contract sees a text as its bytes, and a printer as its outlet.
#![tactic(auto)]

mod compared;
mod counts;
mod csv;
mod json;
mod json_parts;
mod over_time;
mod parts;
mod stayings;

pub use compared::{put_columns, put_compared, put_policies};
pub use counts::{Counts, counts_at_moments, counts_every, is_too_long};
pub use csv::{put_csv, put_fields, put_heading_fields};
pub use json::{put_at_moments, put_json, put_json_members, put_policy_field, put_staying};
pub use over_time::put_over_time;
pub use stayings::put_stayings;
