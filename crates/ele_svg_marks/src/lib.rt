//! The parts of a drawing: its marks, the places of moments and rows, the ticks, the labels and the head. A
//! contract sees a text as its bytes, and a printer as its outlet.
#![tactic(auto)]

mod calendar;
mod head;
mod labels;
mod mark;
mod page;

pub use calendar::Step;
pub use head::{put_escaped, put_head, put_heading, put_legend, put_name};
pub use labels::put_labels;
pub use mark::{Fill, Mark, Place, Side, Stroke, Words, put_marks, put_parts};
pub use page::{Page, label_rows, last_drawn, page_of, rungs_of};
