//! Forecasts for the versions of one file, from the moments at which it closed. They say from when
//! on each is due, and why, and which stay at a moment. A contract sees the closings as their list,
//! and a forecast as what the definitions of the world say of a file with these versions.
#![tactic(auto)]

mod closings;
mod forecast;

pub use closings::{Closings, NotClosed};
pub use forecast::{Forecast, Why};
