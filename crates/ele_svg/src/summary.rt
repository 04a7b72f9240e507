//! A forecast of many versions, or under several policies, as a drawing. A contract sees its text, and
//! a printer as its outlet.
ghost use Rattle.std.specs.Prelude.{◌≡◌, ◌<◌, ◌≤◌, ◌^◌, length};
ghost use Rattle.std.specs.List.{fold};
ghost use Rattle.ele_output.specs.Prints.{Prints};
ghost use Rattle.ele_svg.specs.Drawing.{bytes_text, drawing_text};
ghost use Rattle.ele_svg.specs.Key.{key_drawn, key_y, keys_drawn, summary_frame};
ghost use Rattle.ele_svg.specs.Summary.{ladder_of, last_of_plan, moments_of, summary_body, summary_page, summary_text};

use crate::columns::has_curves;
use crate::curve::{curve_stroke, highest_of, put_axis, put_curves};
use crate::measure::Measure;
use crate::notes::{put_newest, put_notes};
use crate::rows::{put_foot, put_moments, put_rows_drawing};
use crate::strip::put_strips;
use ele_forecast_forms::Counts;
use ele_forecast_text::{Plan, Staying, first_of, versions_of};
use ele_moment::Moment;
use ele_output::{Printer, put_with_number};
use ele_svg_marks::{
    Mark, Page, label_rows, last_drawn, put_head, put_labels, put_marks, put_name, rungs_of,
};
use std::io::Write;

/// Puts a drawing of what becomes of the same versions under each policy. Its title is one in UTF-8, and
/// none if it is empty. Up to 200 versions under one policy have a row each, and else there is a summary. The points of
/// its curves are these counts, one for each plan.
pub fn put_drawing<W: Write>(
    title: &[u8],
    plans: &[Plan],
    rows: &[Counts],
    printer: &mut Printer<'_, W>,
)
    ensures { Prints W.contents printer.old printer.new
        (drawing_text title.now plans.now rows.now) }
{
    if has_curves(plans) {
        put_summary(Measure::Versions, title, plans, rows, printer);
    } else {
        match plans.first() {
            Some(plan) => put_rows_drawing(title, plan, printer),
            None => put_summary(Measure::Versions, title, plans, rows, printer),
        }
    }
}

/// Puts a drawing of the bytes that stay under each policy. The points of its curves are these bytes, one number for
/// each plan.
pub fn put_bytes_drawing<W: Write>(
    title: &[u8],
    plans: &[Plan],
    rows: &[Counts],
    printer: &mut Printer<'_, W>,
)
    ensures { Prints W.contents printer.old printer.new
        (bytes_text title.now plans.now rows.now) }
{
    put_summary(Measure::Bytes, title, plans, rows, printer);
}

// Puts a summary.
fn put_summary<W: Write>(
    measure: Measure,
    title: &[u8],
    plans: &[Plan],
    rows: &[Counts],
    printer: &mut Printer<'_, W>,
)
    ensures { Prints W.contents printer.old printer.new (summary_text measure title.now plans.now rows.now) }
{
    let page = summary_page(plans);
    let highest = highest_of(rows);
    put_frame(&page, measure, title, plans, highest, printer);
    put_body(&page, plans, rows, highest, printer);
    printer.put(b"</svg>\n");
}

// Puts the title, the policies, the ticks and the axis.
fn put_frame<W: Write>(
    page: &Page,
    measure: Measure,
    title: &[u8],
    plans: &[Plan],
    highest: u64,
    printer: &mut Printer<'_, W>,
)
    requires { 0 < highest }
    ensures { Prints W.contents printer.old printer.new
        (summary_frame page.now measure title.now plans.now highest) }
{
    put_head(page, title, printer);
    put_with_number(
        b"<text x='20' y='37' font-size='11'>",
        versions_of(plans).len() as u64,
        printer,
    );
    printer.put(b" versions, and what stays over time</text>\n");
    put_keys(plans, printer);
    put_foot(page, printer);
    put_axis(page, measure, highest, printer);
}

// Puts the strips, the moments that are asked about, the curves, what is written beside moments, and
// the moments' labels.
fn put_body<W: Write>(
    page: &Page,
    plans: &[Plan],
    rows: &[Counts],
    highest: u64,
    printer: &mut Printer<'_, W>,
)
    requires { 0 < highest }
    ensures { Prints W.contents printer.old printer.new
        (summary_body page.now plans.now rows.now highest) }
{
    put_strips(page, ladder_of(plans), versions_of(plans), printer);
    put_moments(page, moments_of(plans), printer);
    put_curves(page, highest, rows, plans.len(), printer);
    put_newest(page, versions_of(plans), printer);
    put_notes(page, plans, printer);
    put_labels(page, moments_of(plans), printer);
}

// Puts each curve's line and policy.
fn put_keys<W: Write>(plans: &[Plan], printer: &mut Printer<'_, W>)
    ensures { Prints W.contents printer.old printer.new (keys_drawn plans.now) }
{
    let mut place = 0;
    for plan in plans {
        put_key(place, plan, printer);
        place += 1;
    }
}

// How far from above a curve's line is.
fn key_y(place: usize) -> u64
    ensures value { result ≡ key_y place }
    ensures small { result < 2 ^ 20 }
{
    50 + 16 * place.min(64) as u64
}

// Puts a curve's line and policy.
fn put_key<W: Write>(place: usize, plan: &Plan, printer: &mut Printer<'_, W>)
    ensures { Prints W.contents printer.old printer.new (key_drawn place plan.now) }
{
    let y = key_y(place);
    let stroke = curve_stroke(place);
    put_marks(
        &[Mark::Line {
            from: (20, y),
            to: (54, y),
            stroke,
        }],
        printer,
    );
    put_with_number(b"<text x='58' y='", y + 4, printer);
    printer.put(b"' font-size='11'>");
    put_name(&plan.policy, printer);
    printer.put(b"</text>\n");
}

// The moments that are asked about, of the first policy.
fn moments_of(plans: &[Plan]) -> &[Staying]
    ensures { result.now ≡ moments_of plans.now }
{
    match plans.first() {
        Some(plan) => plan.stayings.as_slice(),
        None => &[],
    }
}

// The ladder of a policy alone.
fn ladder_of(plans: &[Plan]) -> &[(u64, u64)]
    ensures value { result.now ≡ ladder_of plans.now }
    ensures few { length result.now ≤ 8 }
{
    match plans {
        [] => &[],
        [plan] => rungs_of(&plan.policy),
        [_, _, ..] => &[],
    }
}

// The last moment of plans, and of the one before them.
fn last_of_all(first: Moment, plans: &[Plan]) -> Moment
    ensures { result ≡ fold last_of_plan first plans.now }
{
    let mut last = first;
    for plan in plans {
        last = last_drawn(last, plan.forecasts.as_slice(), plan.stayings.as_slice());
    }
    last
}

/// Returns the page of a summary.
pub(crate) fn summary_page(plans: &[Plan]) -> Page
    ensures { result ≡ summary_page plans.now }
{
    let first = first_of(versions_of(plans));
    let top = 66 + 16 * plans.len().min(64) as u16;
    Page {
        first,
        last: last_of_all(first, plans),
        top,
        foot: top + 254 + 22 * (ladder_of(plans).len() as u16 + 1),
        row: 0,
        labels: label_rows(moments_of(plans)),
    }
}
