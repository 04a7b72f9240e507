//! Prints forecasts: lengths of time, reasons, versions and tables. A contract sees a text as its bytes,
//! and a printer as its outlet.
#![tactic(auto)]

mod details;
mod label;
mod listing;
mod plan;
mod policy;
mod reach;
mod row;
mod staying;
mod table;
mod unit;
mod why;

pub use details::{Columns, Details, bytes_of, put_details, put_headings, size_of};
pub use label::{Label, name_of, put_names};
pub use listing::listed_at;
pub use plan::{AskedPolicy, Plan, plans_of, versions_of};
pub use policy::put_policy;
pub use reach::{first_of, last_of, later};
pub use row::{put_version, stamp_of};
pub use staying::{Staying, staying_at};
pub use table::{put_kept, put_table};
pub use why::{put_length, put_reason};
