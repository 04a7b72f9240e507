//! A forecast as an SVG document. A contract sees its text, and a printer as its outlet.
#![tactic(auto)]

mod columns;
mod compared;
mod curve;
mod marks;
mod measure;
mod notes;
mod rows;
mod strip;
mod summary;

pub use columns::{curve_moments, drawing_counts};
pub use compared::put_compared_drawing;
pub use measure::Measure;
pub use summary::{put_bytes_drawing, put_drawing};
