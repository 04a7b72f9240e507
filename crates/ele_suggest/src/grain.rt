//! Spans of time, and the periods of each of which a version is asked for. A contract sees a span as plain data.
ghost use Rattle.std.specs.Prelude.{◌≡◌};
ghost use Rattle.ele_suggest.specs.Asked.{is_within, rise_from, same_period, week_of};

use crate::version::Version;
use ele_moment::Moment;

/// The periods of each of which a version is asked for. Weeks begin on Monday. With `Each`, a version has a period of its
/// own.
#[derive(Clone, Copy, Debug, Default, PartialEq, Eq)]
pub enum Grain {
    #[default]
    Each,
    Hour,
    Day,
    Week,
    Month,
    Year,
}

/// What is asked of versions up to an age: one of each period.
#[derive(Clone, Copy, Debug, Default, PartialEq, Eq)]
pub struct Span {
    /// The greatest age in seconds, counted from the closing.
    pub age: u64,
    pub grain: Grain,
}

/// Whether each age is greater than the one before it, and the first greater than 0, as those of the rungs of a ladder are.
pub fn ages_rise(spans: &[Span]) -> bool
    ensures { result ≡ rise_from 0 spans.now }
{
    let mut age = 0;
    for span in spans {
        if span.age <= age {
            return false;
        }
        age = span.age;
    }
    true
}

/// Whether both versions closed in one period, by the list's clock.
pub(crate) fn same_period(grain: Grain, a: &Version, b: &Version) -> bool
    ensures { result ≡ same_period grain a.now b.now }
{
    match grain {
        Grain::Each => a.number == b.number,
        Grain::Hour => a.local / 3_600 == b.local / 3_600,
        Grain::Day => a.local / 86_400 == b.local / 86_400,
        Grain::Week => week_of(a.local) == week_of(b.local),
        Grain::Month => a.month == b.month,
        Grain::Year => a.month / 12 == b.month / 12,
    }
}

// The week of a time that a clock showed. A week begins on Monday, and 1970-01-01 was a Thursday.
fn week_of(local: u64) -> u64
    ensures { result ≡ week_of local }
{
    (local / 86_400 + 3) / 7
}

/// Whether the version has closed by the moment, and isn't older than the span then.
pub(crate) fn is_within(at: Moment, span: &Span, version: &Version) -> bool
    ensures { result ≡ is_within at span.now version.now }
{
    let (now, closed) = (at.seconds(), version.closed.seconds());
    closed <= now && now - closed <= span.age
}
