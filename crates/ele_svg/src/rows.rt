//! A forecast as a drawing with a row for each version. A contract sees its text, and a printer as its outlet.
ghost use Rattle.std.specs.Prelude.{◌≡◌, ◌<◌, ◌≤◌, ◌+◌, ◌-◌, ◌*◌, ◌/◌, ◌^◌, ◌++◌, slice_get};
ghost use Rattle.std.specs.List.{flat_map};
ghost use Rattle.ele_policy.specs.Ladder.{level_of};
ghost use Rattle.ele_output.specs.Prints.{Prints};
ghost use Rattle.ele_svg.specs.Frame.{IsOnPage, band_drawn, band_marks, band_top, foot_drawn, frame_drawn, scale_drawn, scale_marks, spans_drawn, tick_marks};
ghost use Rattle.ele_svg.specs.Rows.{kept_drawn, kept_marks, moment_drawn, rows_drawn, rows_text, tie_from, version_drawn, version_tied};
ghost use Rattle.ele_svg_marks.specs.Mark.{mark_text};

use crate::marks::{band_top, border_marks, foot_marks, square, tie_marks, version_marks};
use crate::notes::put_notes_of;
use ele_forecast::{Forecast, Why};
use ele_forecast_text::{Plan, Staying, put_version};
use ele_moment::{Moment, VersionNo};
use ele_output::Printer;
use ele_policy::{Cause, Policy};
use ele_svg_marks::{
    Fill, Mark, Page, Side, Step, Stroke, Words, page_of, put_head, put_heading, put_labels,
    put_legend, put_marks, rungs_of,
};
use std::io::Write;

/// Where moments are told: at the foot, or at the borders of the spans of a level, whose band
/// begins so far from above.
#[derive(Clone, Copy)]
pub(crate) enum Scale {
    Foot(Step),
    Band(u64),
}

/// Puts a drawing with a row for each version of a plan.
pub(crate) fn put_rows_drawing<W: Write>(title: &[u8], plan: &Plan, printer: &mut Printer<'_, W>)
    ensures { Prints W.contents printer.old printer.new (rows_text title.now plan.now) }
{
    let policy = &plan.policy;
    let forecasts = plan.forecasts.as_slice();
    let stayings = plan.stayings.as_slice();
    let page = page_of(policy, forecasts, stayings);
    put_frame(&page, title, policy, forecasts.len(), printer);
    put_rows(&page, policy, forecasts, stayings, printer);
    printer.put(b"</svg>\n");
}

// Puts the title, the heading, the legend, the ticks, and the levels of a ladder.
fn put_frame<W: Write>(
    page: &Page,
    title: &[u8],
    policy: &Policy,
    count: usize,
    printer: &mut Printer<'_, W>,
)
    ensures { Prints W.contents printer.old printer.new
        (frame_drawn page.now title.now policy.now count) }
{
    put_head(page, title, printer);
    put_heading(policy, count, printer);
    put_legend(printer);
    put_foot(page, printer);
    put_bands(page, rungs_of(policy), printer);
}

// Puts the versions, behind their ties and the moments that are asked about, what stays at these,
// and how many.
fn put_rows<W: Write>(
    page: &Page,
    policy: &Policy,
    forecasts: &[Forecast],
    stayings: &[Staying],
    printer: &mut Printer<'_, W>,
)
    ensures { Prints W.contents printer.old printer.new
        (rows_drawn page.now policy.now forecasts.now stayings.now) }
{
    put_ties(page, forecasts, printer);
    put_moments(page, stayings, printer);
    put_versions(page, policy, forecasts, printer);
    put_kept(page, stayings, printer);
    put_notes_of(page, 0, stayings, printer);
    put_labels(page, stayings, printer);
}

/// Puts the ticks.
pub(crate) fn put_foot<W: Write>(page: &Page, printer: &mut Printer<'_, W>)
    ensures { Prints W.contents printer.old printer.new (foot_drawn page.now) }
{
    let step = page.step();
    put_scale(page, Scale::Foot(step), step.seconds(), printer);
}

// Puts a scale at each multiple of so many seconds.
fn put_scale<W: Write>(page: &Page, scale: Scale, step: u64, printer: &mut Printer<'_, W>)
    requires some { 0 < step }
    requires small { IsOnPage scale }
    ensures { Prints W.contents printer.old printer.new (scale_drawn page.now scale step) }
{
    let first = multiple_behind(page.first, step);
    let behind = multiple_behind(page.last, step);
    for k in first..behind {
        put_multiple(page, scale, multiple(page, step, k), printer);
    }
}

// How many times a number of seconds is behind a moment.
fn multiple_behind(moment: Moment, step: u64) -> u64
    requires { 0 < step }
    ensures { result ≡ moment / step + 1 }
{
    moment.seconds() / step + 1
}

// So many times a number of seconds, which is no later than the last moment.
fn multiple(page: &Page, step: u64, k: u64) -> Moment
    requires some { 0 < step }
    requires within { k ≤ page.now.last / step }
    ensures { result ≡ k * step }
{
    page.last.lemma_in_range();
    match Moment::new(k * step) {
        Some(moment) => moment,
        None => page.last,
    }
}

// Puts the marks of a scale at a moment.
fn put_multiple<W: Write>(page: &Page, scale: Scale, moment: Moment, printer: &mut Printer<'_, W>)
    requires { IsOnPage scale }
    ensures { Prints W.contents printer.old printer.new
        (flat_map mark_text (scale_marks page.now scale moment)) }
{
    match scale {
        Scale::Foot(step) => put_tick(page, step, moment, printer),
        Scale::Band(top) => put_marks(&border_marks(page, top, moment), printer),
    }
}

// Puts a tick at a multiple of a step, if there is one.
fn put_tick<W: Write>(page: &Page, step: Step, moment: Moment, printer: &mut Printer<'_, W>)
    ensures { Prints W.contents printer.old printer.new
        (flat_map mark_text (tick_marks page.now step moment)) }
{
    if step.begins(moment) {
        put_marks(&foot_marks(page, step, moment), printer);
    }
}

// Puts the levels of a ladder.
fn put_bands<W: Write>(page: &Page, rungs: &[(u64, u64)], printer: &mut Printer<'_, W>)
    ensures { Prints W.contents printer.old printer.new
        (flat_map (band_drawn page.now rungs.now) rungs.now) }
{
    for rung in rungs {
        put_band(page, level_of(rungs, rung.0), *rung, printer);
    }
}

/// The level of an age.
pub(crate) fn level_of(rungs: &[(u64, u64)], age: u64) -> usize
    ensures { result ≡ level_of rungs.now age }
{
    rungs.iter().filter(|rung| rung.0 <= age).count()
}

// Puts a level.
fn put_band<W: Write>(page: &Page, level: usize, rung: (u64, u64), printer: &mut Printer<'_, W>)
    ensures { Prints W.contents printer.old printer.new (flat_map mark_text (band_marks (band_top level) rung.0 rung.1)
        ++ spans_drawn page.now (band_top level) rung.1) }
{
    let top = band_top(level);
    put_marks(
        &[
            Mark::Text {
                x: 140,
                y: top + 11,
                size: 8,
                side: Side::Before,
                words: Words::Level(rung.0, rung.1),
            },
            Mark::Rect {
                x: 150,
                y: top,
                width: 746,
                height: 16,
                color: Fill::Paper,
            },
        ],
        printer,
    );
    put_spans(page, top, rung.1, printer);
}

// Puts the spans of a level.
fn put_spans<W: Write>(page: &Page, top: u64, width: u64, printer: &mut Printer<'_, W>)
    requires { top < 2 ^ 60 }
    ensures { Prints W.contents printer.old printer.new (spans_drawn page.now top width) }
{
    if page.span() / 248 < width {
        put_scale(page, Scale::Band(top), width, printer);
    } else {
        let hatches = Mark::Rect {
            x: 150,
            y: top,
            width: 746,
            height: 16,
            color: Fill::Hatched,
        };
        let narrow = Mark::Text {
            x: 523,
            y: top + 11,
            size: 9,
            side: Side::Around,
            words: Words::Narrow,
        };
        put_marks(&[hatches, narrow], printer);
    }
}

// Puts what ties each version to the one that displaces it.
fn put_ties<W: Write>(page: &Page, forecasts: &[Forecast], printer: &mut Printer<'_, W>)
    ensures { Prints W.contents printer.old printer.new
        (flat_map (version_tied page.now forecasts.now) forecasts.now) }
{
    for forecast in forecasts {
        put_tie(page, forecasts, forecast, printer);
    }
}

// Puts what ties a version to the one that displaces it, if one does.
fn put_tie<W: Write>(
    page: &Page,
    forecasts: &[Forecast],
    forecast: &Forecast,
    printer: &mut Printer<'_, W>,
)
    ensures { Prints W.contents printer.old printer.new
        (version_tied page.now forecasts.now forecast.now) }
{
    match forecast.why {
        Why::Goes(cause) => match cause {
            Cause::Displaced { by, .. } => put_tie_to(page, forecasts, forecast, by, printer),
            Cause::AtOnce | Cause::Age(_) => {}
        },
        Why::Current | Why::Never | Why::AfterLast => {}
    }
}

// Puts what ties a version to the one of that number.
fn put_tie_to<W: Write>(
    page: &Page,
    forecasts: &[Forecast],
    forecast: &Forecast,
    by: VersionNo,
    printer: &mut Printer<'_, W>,
)
    ensures { Prints W.contents printer.old printer.new
        (flat_map mark_text (tie_from page.now forecast.now.number forecast.now.ripe
        (slice_get forecasts.now (by - 1)))) }
{
    let Some(ripe) = forecast.ripe else {
        return;
    };
    match forecasts.get(by.0.saturating_sub(1) as usize) {
        Some(other) => put_marks(&tie_marks(page, forecast.number, ripe, other), printer),
        None => {}
    }
}

/// Puts the moments that are asked about.
pub(crate) fn put_moments<W: Write>(page: &Page, stayings: &[Staying], printer: &mut Printer<'_, W>)
    ensures { Prints W.contents printer.old printer.new
        (flat_map (moment_drawn page.now) stayings.now) }
{
    for staying in stayings {
        let x = page.x(staying.at);
        let line = Mark::Line {
            from: (x, page.top as u64),
            to: (x, page.foot as u64),
            stroke: Stroke::Dashed,
        };
        put_marks(&[line], printer);
    }
}

// Puts the versions.
fn put_versions<W: Write>(
    page: &Page,
    policy: &Policy,
    forecasts: &[Forecast],
    printer: &mut Printer<'_, W>,
)
    ensures { Prints W.contents printer.old printer.new
        (flat_map (version_drawn policy.now page.now) forecasts.now) }
{
    for forecast in forecasts {
        printer.put(b"<g><title>version ");
        put_version(policy, forecast, printer);
        printer.put(b"</title>\n");
        put_marks(&version_marks(page, forecast), printer);
        printer.put(b"</g>\n");
    }
}

// Puts which versions stay at each moment.
fn put_kept<W: Write>(page: &Page, stayings: &[Staying], printer: &mut Printer<'_, W>)
    ensures { Prints W.contents printer.old printer.new
        (flat_map (kept_drawn page.now) stayings.now) }
{
    for staying in stayings {
        put_kept_at(page, staying.at, staying.numbers.as_slice(), printer);
    }
}

// Puts which versions stay at a moment.
fn put_kept_at<W: Write>(
    page: &Page,
    at: Moment,
    numbers: &[VersionNo],
    printer: &mut Printer<'_, W>,
)
    ensures { Prints W.contents printer.old printer.new
        (flat_map (λ number. flat_map mark_text (kept_marks page.now at number)) numbers.now) }
{
    for number in numbers {
        let mark = square(page, page.x(at), page.y(*number), Fill::Stays);
        put_marks(&[mark], printer);
    }
}
