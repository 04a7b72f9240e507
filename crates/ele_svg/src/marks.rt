//! The marks of a version and of a moment. A contract sees a mark as plain data.
ghost use Rattle.std.specs.Prelude.{◌≡◌, ◌<◌, ◌^◌};
ghost use Rattle.ele_svg.specs.Frame.{band_top, border_marks, foot_marks};
ghost use Rattle.ele_svg.specs.Rows.{end_words, tie_marks, version_marks};
ghost use Rattle.ele_svg.specs.Shapes.{bar_of, beside_of, due_bar_of, square_of};

use ele_forecast::{Forecast, Why};
use ele_moment::{Moment, VersionNo};
use ele_policy::Cause;
use ele_svg_marks::{Fill, Mark, Page, Side, Step, Stroke, Words};

// A bar from one place to another.
fn bar(page: &Page, y: u64, from: u64, to: u64, color: Fill) -> Mark
    ensures { result ≡ bar_of page.now y from to color }
{
    let row = page.row as u64;
    Mark::Rect {
        x: from,
        y: y.saturating_sub(row / 6),
        width: to.saturating_sub(from).max(1),
        height: row / 3,
        color,
    }
}

// A thin bar from there to the right edge.
fn due_bar(page: &Page, y: u64, from: u64) -> Mark
    ensures { result ≡ due_bar_of page.now y from }
{
    let row = page.row as u64;
    Mark::Rect {
        x: from,
        y: y.saturating_sub(row / 12),
        width: 896u64.saturating_sub(from),
        height: row / 6,
        color: Fill::Due,
    }
}

/// A square with that middle.
pub(crate) fn square(page: &Page, x: u64, y: u64, color: Fill) -> Mark
    ensures { result ≡ square_of page.now x y color }
{
    let row = page.row as u64;
    Mark::Rect {
        x: x.saturating_sub(row / 4),
        y: y.saturating_sub(row / 4),
        width: row / 2,
        height: row / 2,
        color,
    }
}

// A text beside a row.
fn beside(page: &Page, x: u64, y: u64, side: Side, words: Words) -> Mark
    requires { y < 2 ^ 60 }
    ensures { result ≡ beside_of page.now x y side words }
{
    let row = page.row as u64;
    Mark::Text {
        x,
        y: y + row / 6,
        size: row / 2 + 2,
        side,
        words,
    }
}

// What is said where the bar of a version ends.
fn end_words(why: Why) -> Words
    ensures { result ≡ end_words why }
{
    match why {
        Why::Current => Words::Current,
        Why::Never | Why::AfterLast => Words::Kept,
        Why::Goes(cause) => match cause {
            Cause::AtOnce | Cause::Age(_) => Words::Due,
            Cause::Displaced { by, .. } => Words::DueBy(by),
        },
    }
}

/// The marks of a version.
pub(crate) fn version_marks(page: &Page, forecast: &Forecast) -> [Mark; 6]
    ensures { result ≡ version_marks page.now forecast.now }
{
    let x = page.x(forecast.closed);
    let y = page.y(forecast.number);
    let end = page.x_or(forecast.ripe);
    [
        due_bar(page, y, end),
        bar(page, y, x, end, Fill::Kept),
        bar(page, y, x, page.x_or(forecast.ended), Fill::Current),
        square(page, x, y, Fill::Paper),
        beside(page, 140, y, Side::Before, Words::Number(forecast.number)),
        beside(page, end + 4, y, Side::Behind, end_words(forecast.why)),
    ]
}

/// The marks that tie a version, from its ripe moment on, to the one that displaces it.
pub(crate) fn tie_marks(page: &Page, number: VersionNo, ripe: Moment, other: &Forecast) -> [Mark; 2]
    ensures { result ≡ tie_marks page.now number ripe other.now }
{
    let x = page.x(ripe);
    let y = page.y(other.number);
    [
        Mark::Line {
            from: (x, page.y(number)),
            to: (x, y),
            stroke: Stroke::Dotted,
        },
        Mark::Line {
            from: (page.x(other.closed), y),
            to: (x, y),
            stroke: Stroke::Dotted,
        },
    ]
}

/// The marks of a tick.
pub(crate) fn foot_marks(page: &Page, step: Step, moment: Moment) -> [Mark; 2]
    ensures { result ≡ foot_marks page.now step moment }
{
    let x = page.x(moment);
    let foot = page.foot as u64;
    [
        Mark::Line {
            from: (x, page.top as u64),
            to: (x, foot),
            stroke: Stroke::Grid,
        },
        Mark::Text {
            x,
            y: foot + 12,
            size: 9,
            side: Side::Around,
            words: page.in_seconds(moment, step.date_words(moment)),
        },
    ]
}

/// The mark between two spans of a level.
pub(crate) fn border_marks(page: &Page, top: u64, moment: Moment) -> [Mark; 1]
    requires { top < 2 ^ 60 }
    ensures { result ≡ border_marks page.now top moment }
{
    let x = page.x(moment);
    [Mark::Line {
        from: (x, top),
        to: (x, top + 16),
        stroke: Stroke::Thin,
    }]
}

/// How far from above the band of a level begins.
pub(crate) fn band_top(level: usize) -> u64
    ensures value { result ≡ band_top level }
    ensures small { result < 2 ^ 60 }
{
    40 + 22 * level.min(8) as u64
}
