//! The ticks of a drawing. A contract sees a step as plain data.
ghost use Rattle.std.specs.Prelude.{◌≡◌, ◌<◌, ◌-◌, ◌*◌, ◌+◌, ◌/◌, ◌^◌};
ghost use Rattle.ele_forecast_text.specs.Stamp.{date_of};
ghost use Rattle.ele_svg_marks.specs.Calendar.{begins, date_words, day_of, day_step, month_of, month_step, seconds_of, short_step, step_for};

use crate::mark::Words;
use ele_forecast_text::stamp_of;
use ele_moment::Moment;

/// The moments at which a drawing has its ticks.
#[derive(Clone, Copy)]
pub enum Step {
    /// Each multiple of so many seconds.
    Seconds(u64),
    /// The beginning of each week.
    Mondays,
    /// The beginning of each month whose number is a multiple of that, counted from the year 0.
    Months(u64),
}

impl Step {
    /// Each tick is a multiple of so many seconds.
    pub fn seconds(self) -> u64
        ensures value { result ≡ seconds_of self }
        ensures some { 0 < result }
    {
        match self {
            Step::Seconds(seconds) => seconds.max(1),
            Step::Mondays | Step::Months(_) => 86400,
        }
    }

    /// Whether a multiple of these seconds is a tick.
    pub fn begins(self, moment: Moment) -> bool
        ensures { result ≡ begins self moment }
    {
        match self {
            Step::Seconds(_) => true,
            Step::Mondays => (moment.seconds() / 86400 + 3) % 7 == 0,
            Step::Months(months) => day_of(moment) == 1 && month_of(moment) % months.max(1) == 0,
        }
    }

    /// What is written at a tick.
    pub fn date_words(self, moment: Moment) -> Words
        ensures { result ≡ date_words self moment }
    {
        match self {
            Step::Seconds(seconds) if seconds < 86400 => Words::Stamp(moment),
            Step::Seconds(_) | Step::Mondays => Words::Date(moment),
            Step::Months(months) if months < 12 => Words::Month(moment),
            Step::Months(_) => Words::Year(moment),
        }
    }
}

/// The step of a drawing of so many seconds: it has few ticks.
pub(crate) fn step_for(span: u64) -> Step
    ensures { result ≡ step_for span }
{
    match span {
        0..=21600 => Step::Seconds(short_step(span)),
        21601..=5443200 => day_step(span),
        _ => Step::Months(month_step(span)),
    }
}

// The seconds of the step of some hours.
fn short_step(span: u64) -> u64
    ensures { result ≡ short_step span }
{
    match span {
        0..=6 => 1,
        7..=30 => 5,
        31..=60 => 10,
        61..=180 => 30,
        181..=360 => 60,
        361..=1800 => 300,
        1801..=3600 => 600,
        3601..=10800 => 1800,
        _ => 3600,
    }
}

// The step of some days.
fn day_step(span: u64) -> Step
    ensures { result ≡ day_step span }
{
    match span {
        0..=64800 => Step::Seconds(10800),
        64801..=129600 => Step::Seconds(21600),
        129601..=259200 => Step::Seconds(43200),
        259201..=604800 => Step::Seconds(86400),
        604801..=1209600 => Step::Seconds(172800),
        _ => Step::Mondays,
    }
}

// The months of the step of months or years.
fn month_step(span: u64) -> u64
    ensures { result ≡ month_step span }
{
    match span {
        0..=18748800 => 1,
        18748801..=55900800 => 3,
        55900801..=110678400 => 6,
        110678401..=220924800 => 12,
        220924801..=441849600 => 24,
        441849601..=1104537600 => 60,
        1104537601..=2209075200 => 120,
        2209075201..=11045376000 => 600,
        11045376001..=22090752000 => 1200,
        22090752001..=110453760000 => 6000,
        _ => 12000,
    }
}

// The month of a moment, counted from the year 0.
fn month_of(moment: Moment) -> u64
    ensures { result ≡ month_of moment }
{
    let [a, b, c, d, _, e, f, ..] = stamp_of(moment);
    12 * (100 * pair(a, b) + pair(c, d)) + pair(e, f).saturating_sub(1)
}

// The day of the month of a moment.
fn day_of(moment: Moment) -> u64
    ensures { result ≡ day_of moment }
{
    let [_, _, _, _, _, _, _, _, a, b, ..] = stamp_of(moment);
    pair(a, b)
}

// The number of two digits.
fn pair(tens: u8, ones: u8) -> u64
    ensures value { result ≡ 10 * (tens - 48) + (ones - 48) }
    ensures small { result < 2 ^ 12 }
{
    10 * tens.saturating_sub(48) as u64 + ones.saturating_sub(48) as u64
}
