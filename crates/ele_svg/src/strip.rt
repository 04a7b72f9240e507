//! The strips of a summary: the versions that pass each level of a ladder. A contract sees what is put as
//! its text.
ghost use Rattle.std.specs.Prelude.{◌≡◌, ◌<◌, ◌≤◌, ◌^◌, max};
ghost use Rattle.std.specs.List.{flat_map};
ghost use Rattle.ele_output.specs.Prints.{Prints};
ghost use Rattle.ele_svg.specs.Key.{strip_top};
ghost use Rattle.ele_svg.specs.Strips.{bar_height, bar_marks, bars_drawn, column_of, count_in, most_in, one_in, passes, strip_drawn, strips_drawn};
ghost use Rattle.ele_svg_marks.specs.Mark.{mark_text};

use crate::rows::level_of;
use ele_forecast::{Forecast, Why};
use ele_output::Printer;
use ele_policy::Cause;
use ele_svg_marks::{Fill, Mark, Page, Side, Stroke, Words, put_marks};
use std::io::Write;

/// The bars of a strip stand in so many columns.
pub(crate) const COLUMNS: u64 = 187;

/// Puts a strip of all versions, and one for each level of a ladder.
pub(crate) fn put_strips<W: Write>(
    page: &Page,
    rungs: &[(u64, u64)],
    forecasts: &[Forecast],
    printer: &mut Printer<'_, W>,
)
    ensures { Prints W.contents printer.old printer.new
        (strips_drawn page.now rungs.now forecasts.now) }
{
    put_strip(page, 0, Words::Closings, forecasts, printer);
    for rung in rungs {
        let words = Words::Level(rung.0, rung.1);
        put_strip(page, level_of(rungs, rung.0), words, forecasts, printer);
    }
}

// Puts the strip of a level.
fn put_strip<W: Write>(
    page: &Page,
    level: usize,
    words: Words,
    forecasts: &[Forecast],
    printer: &mut Printer<'_, W>,
)
    ensures { Prints W.contents printer.old printer.new
        (strip_drawn page.now level words forecasts.now) }
{
    let top = strip_top(page, level);
    put_marks(
        &[
            Mark::Text {
                x: 140,
                y: top + 11,
                size: 8,
                side: Side::Before,
                words,
            },
            Mark::Rect {
                x: 150,
                y: top,
                width: 746,
                height: 16,
                color: Fill::Paper,
            },
        ],
        printer,
    );
    put_bars(page, top, level, forecasts, printer);
}

// How far from above the strip of a level begins.
fn strip_top(page: &Page, level: usize) -> u64
    ensures value { result ≡ strip_top page.now level }
    ensures small { result < 2 ^ 60 }
{
    page.top as u64 + 254 + 22 * level.min(8) as u64
}

/// Puts the bars of a strip.
pub(crate) fn put_bars<W: Write>(
    page: &Page,
    top: u64,
    level: usize,
    forecasts: &[Forecast],
    printer: &mut Printer<'_, W>,
)
    requires { top < 2 ^ 60 }
    ensures { Prints W.contents printer.old printer.new
        (bars_drawn page.now top level forecasts.now) }
{
    let most = most_in(page, level, forecasts);
    for column in 0..COLUMNS {
        let count = count_in(page, level, column, forecasts);
        put_bar(Stroke::Bar, top, column, bar_height(most, count), printer);
    }
}

// The most versions of one column that pass the level, and 1 at least.
fn most_in(page: &Page, level: usize, forecasts: &[Forecast]) -> u64
    ensures value { result ≡ most_in page.now level forecasts.now }
    ensures some { 0 < result }
{
    let mut most = 1;
    for column in 0..COLUMNS {
        let count = count_in(page, level, column, forecasts);
        most = larger(most, count);
    }
    most
}

/// The larger of two numbers.
pub(crate) fn larger(a: u64, b: u64) -> u64
    ensures { result ≡ max a b }
{
    if a < b { b } else { a }
}

// How many versions of a column pass the level.
fn count_in(page: &Page, level: usize, column: u64, forecasts: &[Forecast]) -> u64
    ensures { result ≡ count_in page.now level column forecasts.now }
{
    let mut count = 0;
    for forecast in forecasts {
        count += one_in(page, level, column, forecast);
    }
    count
}

// 1 for a version of the column that passes the level, and else 0.
fn one_in(page: &Page, level: usize, column: u64, forecast: &Forecast) -> u64
    ensures value { result ≡ one_in page.now level column forecast.now }
    ensures small { result ≤ 1 }
{
    if column_of(page, forecast) == column && passes(level, forecast.why) {
        1
    } else {
        0
    }
}

/// The column in which a version closed.
pub(crate) fn column_of(page: &Page, forecast: &Forecast) -> u64
    ensures { result ≡ column_of page.now forecast.now }
{
    page.x(forecast.closed).saturating_sub(150) / 4
}

/// How high the bar of so many versions is, if the most are so many.
pub(crate) fn bar_height(most: u64, count: u64) -> u64
    requires { 0 < most }
    ensures value { result ≡ bar_height most count }
    ensures small { result ≤ 16 }
{
    if count == 0 {
        return 0;
    }
    let height = count as u128 * 15 / most as u128;
    1 + height.min(15) as u64
}

/// Puts a bar that is drawn like that, unless it has no height.
pub(crate) fn put_bar<W: Write>(
    stroke: Stroke,
    top: u64,
    column: u64,
    height: u64,
    printer: &mut Printer<'_, W>,
)
    requires top { top < 2 ^ 60 }
    requires column { column < 187 }
    requires height { height ≤ 16 }
    ensures { Prints W.contents printer.old printer.new
        (flat_map mark_text (bar_marks stroke top column height)) }
{
    if height > 0 {
        let x = 152 + 4 * column;
        let bar = Mark::Line {
            from: (x, top + 16),
            to: (x, top + 16 - height),
            stroke,
        };
        put_marks(&[bar], printer);
    }
}

// Whether a version passes a level.
fn passes(level: usize, why: Why) -> bool
    ensures { result ≡ passes level why }
{
    match why {
        Why::Goes(cause) => match cause {
            Cause::Displaced { level: at, .. } => level < at,
            Cause::AtOnce | Cause::Age(_) => true,
        },
        Why::Current | Why::Never | Why::AfterLast => true,
    }
}
