//! The labels of the moments that are asked about, on rows, so that none touches another. A contract
//! sees a row as plain data, and what is put as its text.
ghost use Rattle.std.specs.Prelude.{◌≡◌, ◌<◌, ◌≤◌, ◌^◌};
ghost use Rattle.std.specs.List.{flat_map};
ghost use Rattle.ele_output.specs.Prints.{Prints};
ghost use Rattle.ele_svg_marks.specs.Labels.{label_drawn, label_marks, labels_drawn};
ghost use Rattle.ele_svg_marks.specs.Shelves.{empty_shelf, empty_shelves, is_free, label_width, row_for, shelved_on, stretched};
ghost use Rattle.ele_svg_marks.specs.Mark.{mark_text};

use crate::mark::{Mark, Side, Words, put_marks};
use crate::page::Page;
use ele_forecast_text::Staying;
use ele_moment::Moment;
use ele_output::Printer;
use std::io::Write;

/// A row of labels: the middles of the first and the last of them, from the left.
#[derive(Clone, Copy)]
pub(crate) struct Shelf {
    pub(crate) first: u64,
    pub(crate) last: u64,
}

/// The rows of labels.
#[derive(Clone, Copy)]
pub(crate) struct Shelves {
    pub(crate) upper: Shelf,
    pub(crate) middle: Shelf,
    pub(crate) lower: Shelf,
}

impl Shelf {
    // A row without labels.
    const EMPTY: Shelf = Shelf {
        first: 10000,
        last: 0,
    };

    // Whether a label that stands there touches none of the row.
    fn is_free(self, width: u64, x: u64) -> bool
        ensures { result ≡ is_free width self x }
    {
        self.last <= x.saturating_sub(width) || x <= self.first.saturating_sub(width)
    }

    // The row with one more label.
    fn stretched(self, x: u64) -> Shelf
        ensures { result ≡ stretched self x }
    {
        Shelf {
            first: self.first.min(x),
            last: self.last.max(x),
        }
    }
}

impl Shelves {
    // Rows without labels.
    const EMPTY: Shelves = Shelves {
        upper: Shelf::EMPTY,
        middle: Shelf::EMPTY,
        lower: Shelf::EMPTY,
    };

    // The first row on which a label that stands there touches none, or one behind them.
    fn row_for(&self, width: u64, x: u64) -> u64
        ensures value { result ≡ row_for width self.now x }
        ensures few { result ≤ 3 }
    {
        if self.upper.is_free(width, x) {
            0
        } else if self.middle.is_free(width, x) {
            1
        } else if self.lower.is_free(width, x) {
            2
        } else {
            3
        }
    }

    // The rows with one more label on that one, if it is one of them.
    fn shelved_on(self, row: u64, x: u64) -> Shelves
        ensures { result ≡ shelved_on row self x }
    {
        match row {
            0 => Shelves {
                upper: self.upper.stretched(x),
                ..self
            },
            1 => Shelves {
                middle: self.middle.stretched(x),
                ..self
            },
            2 => Shelves {
                lower: self.lower.stretched(x),
                ..self
            },
            _ => self,
        }
    }
}

// A width that no label exceeds.
fn label_width(page: &Page) -> u64
    ensures { result ≡ label_width page.now }
{
    if page.last.seconds() < 864_000 {
        48
    } else {
        124
    }
}

/// Puts the labels of the moments that are asked about.
pub fn put_labels<W: Write>(page: &Page, stayings: &[Staying], printer: &mut Printer<'_, W>)
    ensures { Prints W.contents printer.old printer.new (labels_drawn page.now stayings.now) }
{
    let width = label_width(page);
    let mut shelves = Shelves::EMPTY;
    for staying in stayings {
        let x = page.x(staying.at);
        let row = shelves.row_for(width, x);
        put_label(page, row, staying.at, printer);
        shelves = shelves.shelved_on(row, x);
    }
}

// Puts a label on its row, or nothing if there is none for it.
fn put_label<W: Write>(page: &Page, row: u64, at: Moment, printer: &mut Printer<'_, W>)
    requires { row ≤ 3 }
    ensures { Prints W.contents printer.old printer.new
        (flat_map mark_text (label_marks page.now row at)) }
{
    if row < 3 {
        let label = Mark::Text {
            x: page.x(at),
            y: page.foot as u64 + 26 + 12 * row,
            size: 10,
            side: Side::Around,
            words: page.in_seconds(at, Words::Stamp(at)),
        };
        put_marks(&[label], printer);
    }
}
