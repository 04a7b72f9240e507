//! The curves of a summary, and their axis. A contract sees an amount as a number, and what is put as its
//! text.
ghost use Rattle.std.specs.Prelude.{◌≡◌, ◌<◌, ◌≤◌, ◌+◌, ◌*◌, ◌/◌, ◌^◌, max, min};
ghost use Rattle.std.specs.List.{flat_map, fold};
ghost use Rattle.ele_output.specs.Prints.{Prints};
ghost use Rattle.ele_svg_marks.specs.Mark.{mark_text};
ghost use Rattle.ele_svg.specs.Curve.{count_of, curve_y, highest_of, point_text};
ghost use Rattle.ele_svg.specs.Key.{amount_words, axis_drawn, axis_line, axis_name, axis_step, axis_until, axis_words, curve_stroke, step_in};
ghost use Rattle.ele_svg.specs.Summary.{curve_drawn, curves_drawn};

use crate::measure::Measure;
use ele_forecast_forms::Counts;
use ele_output::Printer;
use ele_svg_marks::{Mark, Page, Side, Stroke, Words, put_marks, put_parts};
use itoa::Buffer;
use std::io::Write;

// The largest of these counts, and of a number before them.
fn highest_in(highest: u64, counts: &[usize]) -> u64
    ensures value { result ≡ fold max highest counts.now }
    ensures rises { highest ≤ result }
{
    let mut most = highest;
    for count in counts {
        most = most.max(*count as u64);
    }
    most
}

/// Returns the most that stay at any point under any of the policies, and 1 at least.
pub(crate) fn highest_of(rows: &[Counts]) -> u64
    ensures value { result ≡ highest_of rows.now }
    ensures some { 0 < result }
{
    let mut highest = 1;
    for row in rows {
        highest = highest_in(highest, row.counts.as_slice());
    }
    highest
}

// How far from above a curve is at so many.
fn curve_y(page: &Page, highest: u64, count: u64) -> u64
    requires { 0 < highest }
    ensures value { result ≡ curve_y page.now highest count }
    ensures small { result < 2 ^ 20 }
{
    let height = (count as u128 * 240 / highest as u128).min(240) as u64;
    page.top as u64 + 240 - height
}

/// How the curve of the policy at that place is drawn.
pub(crate) fn curve_stroke(place: usize) -> Stroke
    ensures { result ≡ curve_stroke place }
{
    match place % 4 {
        0 => Stroke::First,
        1 => Stroke::Second,
        2 => Stroke::Third,
        _ => Stroke::Fourth,
    }
}

/// Puts so many curves, one for each policy.
pub(crate) fn put_curves<W: Write>(
    page: &Page,
    highest: u64,
    rows: &[Counts],
    curves: usize,
    printer: &mut Printer<'_, W>,
)
    requires { 0 < highest }
    ensures { Prints W.contents printer.old printer.new
        (curves_drawn page.now highest rows.now curves) }
{
    for place in 0..curves {
        put_curve(page, highest, rows, place, printer);
    }
}

// Puts the curve of the policy at that place.
fn put_curve<W: Write>(
    page: &Page,
    highest: u64,
    rows: &[Counts],
    place: usize,
    printer: &mut Printer<'_, W>,
)
    requires { 0 < highest }
    ensures { Prints W.contents printer.old printer.new
        (curve_drawn page.now highest rows.now place) }
{
    put_parts(
        &[
            b"<polyline fill='none' stroke='",
            curve_stroke(place).words(),
            b"' points='",
        ],
        printer,
    );
    for row in rows {
        put_point(page, highest, place, row, printer);
    }
    printer.put(b"'/>\n");
}

// How many stay under the policy at that place.
fn count_of(place: usize, row: &Counts) -> u64
    ensures { result ≡ count_of place row.now }
{
    match row.counts.get(place) {
        Some(count) => *count as u64,
        None => 0,
    }
}

// Puts a point of a curve.
fn put_point<W: Write>(
    page: &Page,
    highest: u64,
    place: usize,
    row: &Counts,
    printer: &mut Printer<'_, W>,
)
    requires { 0 < highest }
    ensures { Prints W.contents printer.old printer.new
        (point_text page.now highest place row.now) }
{
    let mut x = Buffer::new();
    let mut y = Buffer::new();
    let from_left = page.x(row.at);
    let count = count_of(place, row);
    put_parts(
        &[
            x.format(from_left).as_bytes(),
            b",",
            y.format(curve_y(page, highest, count)).as_bytes(),
            b" ",
        ],
        printer,
    );
}

/// Puts what the axis counts, what the bars of strips mean, and the lines of the axis.
pub(crate) fn put_axis<W: Write>(
    page: &Page,
    measure: Measure,
    highest: u64,
    printer: &mut Printer<'_, W>,
)
    requires { 0 < highest }
    ensures { Prints W.contents printer.old printer.new (axis_drawn page.now measure highest) }
{
    let step = axis_step(highest);
    let lines = line_count(highest, step);
    put_marks(&axis_words(page, measure), printer);
    put_axis_lines(page, measure, highest, step, lines, printer);
}

// What the axis counts, and what the bars of strips mean.
fn axis_words(page: &Page, measure: Measure) -> [Mark; 2]
    ensures { result ≡ axis_words page.now measure }
{
    let top = page.top as u64;
    [
        Mark::Text {
            x: 150,
            y: top.saturating_sub(4),
            size: 9,
            side: Side::Behind,
            words: axis_name(measure),
        },
        Mark::Text {
            x: 150,
            y: top + 250,
            size: 8,
            side: Side::Behind,
            words: Words::Bars,
        },
    ]
}

// How many lines the axis has, which are so far apart.
fn line_count(highest: u64, step: u64) -> u64
    requires { 0 < step }
    ensures value { result ≡ min (highest / step) 9 + 1 }
    ensures few { result ≤ highest / step + 1 }
{
    (highest / step).min(9) + 1
}

// Puts so many lines of the axis, which are so far apart.
fn put_axis_lines<W: Write>(
    page: &Page,
    measure: Measure,
    highest: u64,
    step: u64,
    lines: u64,
    printer: &mut Printer<'_, W>,
)
    requires some { 0 < highest }
    requires apart { 0 < step }
    requires is { step ≡ axis_step highest }
    requires few { lines ≤ highest / step + 1 }
    ensures { Prints W.contents printer.old printer.new
        (axis_until page.now measure highest lines) }
{
    for k in 0..lines {
        let amount = multiple(highest, step, k);
        put_axis_line(page, measure, highest, amount, printer);
    }
}

// So many steps, which are no more than the most.
fn multiple(highest: u64, step: u64, k: u64) -> u64
    requires apart { 0 < step }
    requires within { k ≤ highest / step }
    ensures { result ≡ k * step }
{
    k * step
}

// How far apart the lines of the axis are.
fn axis_step(highest: u64) -> u64
    requires { 0 < highest }
    ensures value { result ≡ axis_step highest }
    ensures some { 0 < result }
    ensures within { result ≤ highest }
{
    step_in(20, highest)
}

// How far apart these are, after so many tenths.
fn step_in(tries: u32, highest: u64) -> u64
    requires { 0 < highest }
    ensures value { result ≡ step_in tries highest }
    ensures some { 0 < result }
    ensures within { result ≤ highest }
{
    if tries == 0 || highest <= 5 {
        1
    } else if highest <= 10 {
        2
    } else if highest <= 25 {
        5
    } else {
        10 * step_in(tries - 1, highest / 10)
    }
}

// What the axis counts.
fn axis_name(measure: Measure) -> Words
    ensures { result ≡ axis_name measure }
{
    match measure {
        Measure::Versions => Words::VersionsAxis,
        Measure::Bytes => Words::BytesAxis,
    }
}

// An amount in words.
fn amount_words(measure: Measure, amount: u64) -> Words
    ensures { result ≡ amount_words measure amount }
{
    match measure {
        Measure::Versions => Words::Count(amount),
        Measure::Bytes => Words::Bytes(amount),
    }
}

// Puts a line of the axis.
fn put_axis_line<W: Write>(
    page: &Page,
    measure: Measure,
    highest: u64,
    amount: u64,
    printer: &mut Printer<'_, W>,
)
    requires { 0 < highest }
    ensures { Prints W.contents printer.old printer.new
        (flat_map mark_text (axis_line page.now measure highest amount)) }
{
    let y = curve_y(page, highest, amount);
    let words = amount_words(measure, amount);
    put_marks(
        &[
            Mark::Line {
                from: (150, y),
                to: (896, y),
                stroke: Stroke::Grid,
            },
            Mark::Text {
                x: 144,
                y: y + 3,
                size: 9,
                side: Side::Before,
                words,
            },
        ],
        printer,
    );
}
