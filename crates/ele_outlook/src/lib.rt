//! Reads the closings of a file, a line each, and writes forecasts of its versions under policies and rules: a table, a list, a
//! drawing, JSON or CSV. Or it writes which versions another tool keeps too, or which policy keeps what is asked. A contract sees an input as its lines, the output as the text of the
//! forecasts, and a reader and a writer as the bytes that they are known to hold.
#![tactic(auto)]

mod against;
mod drawn;
mod fault;
mod fields;
mod found;
mod input;
mod options;
mod row;
mod suggested;
mod telling;
mod unplaced;

pub use ele_forecast_text::AskedPolicy;
pub use fault::{BadLine, ForecastFault, put_bad_line};
pub use options::{ForecastOptions, Form, Layout, LineForm, MOST_POLICIES};
pub use telling::write_forecast;
