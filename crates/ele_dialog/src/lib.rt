//! A run whose lines a person types, and whose answers a person reads: a heading above rows, the dates
//! of moments behind them, the reason of a bad line at once, and `help`. A contract sees the lines, and
//! the text that answers them.
#![tactic(auto)]

mod answer;
mod dates;
mod dialog;
mod heading;
mod help;
mod input;
mod places;

pub use dialog::run_dialog;
