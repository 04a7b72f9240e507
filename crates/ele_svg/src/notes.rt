//! What is written beside the moments of a drawing: how many versions stay, and that none is newer. A contract sees what
//! is put as its text.
ghost use Rattle.std.specs.Prelude.{◌≡◌, ◌<◌, ◌^◌};
ghost use Rattle.std.specs.List.{flat_map};
ghost use Rattle.ele_output.specs.Prints.{Prints};
ghost use Rattle.ele_svg.specs.Notes.{newest_drawn, newest_marks, note_at, note_marks, note_y, notes_drawn, notes_of_plan, stay_words};
ghost use Rattle.ele_svg_marks.specs.Mark.{mark_text};

use ele_forecast::Forecast;
use ele_forecast_text::{Plan, Staying};
use ele_output::Printer;
use ele_svg_marks::{Mark, Page, Side, Stroke, Words, put_marks};
use std::io::Write;

/// Puts how many versions stay under each policy, beside the moments that are asked about. The first policy's are on top.
pub(crate) fn put_notes<W: Write>(page: &Page, plans: &[Plan], printer: &mut Printer<'_, W>)
    ensures { Prints W.contents printer.old printer.new (notes_drawn page.now plans.now) }
{
    let mut place = 0;
    for plan in plans {
        put_notes_of(page, place, plan.stayings.as_slice(), printer);
        place += 1;
    }
}

/// Puts how many versions stay under the policy at that place.
pub(crate) fn put_notes_of<W: Write>(
    page: &Page,
    place: usize,
    stayings: &[Staying],
    printer: &mut Printer<'_, W>,
)
    ensures { Prints W.contents printer.old printer.new (notes_of_plan page.now place stayings.now) }
{
    for staying in stayings {
        put_note(page, place, staying, printer);
    }
}

// Puts how many versions stay at a moment.
fn put_note<W: Write>(page: &Page, place: usize, staying: &Staying, printer: &mut Printer<'_, W>)
    ensures { Prints W.contents printer.old printer.new
        (flat_map mark_text (note_marks page.now place staying.now)) }
{
    let x = page.x(staying.at);
    let y = note_y(page, place);
    let words = stay_words(staying);
    put_marks(&[note_at(x, y, words)], printer);
}

// How far from above the note of the policy at that place is.
fn note_y(page: &Page, place: usize) -> u64
    ensures { result ≡ note_y page.now place }
{
    page.top as u64 + 10 + 11 * place.min(64) as u64
}

// How many versions stay, in words.
fn stay_words(staying: &Staying) -> Words
    ensures { result ≡ stay_words staying.now }
{
    Words::Stay(staying.numbers.len() as u64)
}

// A text beside a line: left of it, if there is no room on its right.
fn note_at(x: u64, y: u64, words: Words) -> Mark
    requires { x < 2 ^ 60 }
    ensures { result ≡ note_at x y words }
{
    if x < 800 {
        Mark::Text {
            x: x + 4,
            y,
            size: 9,
            side: Side::Behind,
            words,
        }
    } else {
        Mark::Text {
            x: x.saturating_sub(4),
            y,
            size: 9,
            side: Side::Before,
            words,
        }
    }
}

/// Puts where the last version closed, unless the drawing ends there.
pub(crate) fn put_newest<W: Write>(
    page: &Page,
    forecasts: &[Forecast],
    printer: &mut Printer<'_, W>,
)
    ensures { Prints W.contents printer.old printer.new (newest_drawn page.now forecasts.now) }
{
    if let Some(forecast) = forecasts.last() {
        put_newest_at(page, forecast, printer);
    }
}

// Puts where a version closed, unless the drawing ends there.
fn put_newest_at<W: Write>(page: &Page, forecast: &Forecast, printer: &mut Printer<'_, W>)
    ensures { Prints W.contents printer.old printer.new
        (flat_map mark_text (newest_marks page.now forecast.now)) }
{
    if forecast.closed < page.last {
        let x = page.x(forecast.closed);
        let top = page.top as u64;
        let line = Mark::Line {
            from: (x, top),
            to: (x, top + 240),
            stroke: Stroke::Dotted,
        };
        put_marks(&[line, note_at(x, top + 232, Words::NoNewer)], printer);
    }
}
