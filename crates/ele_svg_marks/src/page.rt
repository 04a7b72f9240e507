//! Where a drawing has its moments and its rows. A contract sees a page as plain data, and a place
//! as pixels.
ghost use Rattle.std.specs.Prelude.{◌≡◌, ◌+◌, ◌*◌, ◌/◌, ◌<◌, ◌≤◌, ◌^◌, length, min};
ghost use Rattle.ele_svg_marks.specs.Calendar.{in_seconds, step_of};
ghost use Rattle.ele_svg_marks.specs.Head.{height_of};
ghost use Rattle.ele_svg_marks.specs.Page.{label_rows, row_height, rungs_of};
ghost use Rattle.ele_svg_marks.specs.Places.{last_drawn, page_of, span_of, x_of, x_or, y_of};

use crate::calendar::{Step, step_for};
use crate::mark::Words;
use ele_forecast::Forecast;
use ele_forecast_text::{Staying, first_of, last_of, later};
use ele_moment::{Moment, VersionNo};
use ele_policy::Policy;

// A page has at most so many rows.
const MOST: u64 = 2000;

/// The moments from the first to the last stand from left to right, and the rows from above to
/// below, of that height in pixels. Below these are rows of labels.
#[derive(Clone, Copy)]
pub struct Page {
    pub first: Moment,
    pub last: Moment,
    pub top: u16,
    pub foot: u16,
    pub row: u16,
    pub labels: u16,
}

impl Page {
    /// The seconds from the first moment to the last.
    pub fn span(&self) -> u64
        ensures value { result ≡ span_of self.now }
        ensures few { result < 2 ^ 40 }
    {
        self.last.seconds().saturating_sub(self.first.seconds())
    }

    /// Where a moment stands.
    pub fn x(&self, moment: Moment) -> u64
        ensures value { result ≡ x_of self.now moment }
        ensures small { result < 2 ^ 60 }
    {
        let behind = moment.seconds().saturating_sub(self.first.seconds());
        150 + pixels(behind, self.span())
    }

    /// Where that moment stands, or behind all if there is none.
    pub fn x_or(&self, moment: Option<Moment>) -> u64
        ensures value { result ≡ x_or self.now moment }
        ensures small { result < 2 ^ 60 }
    {
        match moment {
            Some(moment) => self.x(moment),
            None => 910,
        }
    }

    /// The middle of the row of the version of that number.
    pub fn y(&self, number: VersionNo) -> u64
        ensures value { result ≡ y_of self.now number }
        ensures small { result < 2 ^ 60 }
    {
        self.top as u64 + self.row as u64 * number.0.min(MOST)
    }

    /// The height of all.
    pub(crate) fn height(&self) -> u64
        ensures { result ≡ height_of self.now }
    {
        self.foot as u64 + 24 + 12 * self.labels as u64
    }

    /// The step of its ticks.
    pub fn step(&self) -> Step
        ensures { result ≡ step_of self.now }
    {
        step_for(self.span())
    }

    /// How a moment is told: in seconds if all are in the first ten days, and else by those words.
    pub fn in_seconds(&self, moment: Moment, date: Words) -> Words
        ensures { result ≡ in_seconds self.now moment date }
    {
        if self.last.seconds() < 864_000 {
            Words::Seconds(moment)
        } else {
            date
        }
    }
}

// How far from the left so many seconds of a span are.
fn pixels(behind: u64, span: u64) -> u64
    requires { span < 2 ^ 40 }
    ensures value { result ≡ min behind span * 746 / (span + 1) }
    ensures small { result < 2 ^ 59 }
{
    behind.min(span) * 746 / (span + 1)
}

// How high a row is where there are so many.
fn row_height(count: usize) -> u16
    ensures value { result ≡ row_height count }
    ensures small { result ≤ 18 }
{
    if count <= 60 { 18 } else { 10 }
}

/// The pairs of a policy's ladder.
pub fn rungs_of(policy: &Policy) -> &[(u64, u64)]
    ensures value { result.now ≡ rungs_of policy.now }
    ensures few { length result.now ≤ 8 }
{
    match policy {
        Policy::Landmarks(ladder) => ladder.pairs(),
        Policy::One | Policy::All | Policy::Safe(_, _) => &[],
    }
}

/// The last moment of these, or `first` if that is later.
pub fn last_drawn(first: Moment, forecasts: &[Forecast], stayings: &[Staying]) -> Moment
    ensures { result ≡ last_drawn first forecasts.now stayings.now }
{
    let mut last = last_of(first, forecasts);
    for staying in stayings {
        last = later(last, staying.at);
    }
    last
}

/// How many rows of labels there are.
pub fn label_rows(stayings: &[Staying]) -> u16
    ensures value { result ≡ label_rows stayings.now }
    ensures few { result ≤ 3 }
{
    stayings.len().min(3) as u16
}

/// The page of a drawing with a row for each version.
pub fn page_of(policy: &Policy, forecasts: &[Forecast], stayings: &[Staying]) -> Page
    ensures { result ≡ page_of policy.now forecasts.now stayings.now }
{
    let first = first_of(forecasts);
    let row = row_height(forecasts.len());
    let top = 66 + 22 * rungs_of(policy).len() as u16;
    Page {
        first,
        last: last_drawn(first, forecasts, stayings),
        top,
        foot: top + row * (forecasts.len().min(MOST as usize) as u16 + 1),
        row,
        labels: label_rows(stayings),
    }
}
