//! The space of a forecast: the bytes that stay, and those that the removals free. A contract sees a text as its bytes,
//! and a printer as its outlet.
#![tactic(auto)]

mod amounts;
mod json;
mod removals;
mod text;

pub use amounts::{Amount, Amounts, amounts_at, moments_in};
pub use json::put_removals_member;
pub use removals::{Removals, put_removals, removals_of};
pub use text::{put_amounts, put_amounts_csv};
