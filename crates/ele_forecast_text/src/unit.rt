//! Units of time, in which lengths and spans are printed. A contract sees a unit as itself.
ghost use Rattle.std.specs.Prelude.{◌≡◌, ◌<◌};
ghost use Rattle.ele_forecast_text.specs.Why.{count_of, many_word, one_word, unit_of, unit_seconds};

/// A unit of time. A span of a week or a year is printed in days.
#[derive(Clone, Copy, PartialEq, Eq)]
pub(crate) enum TimeUnit {
    Day,
    Hour,
    Minute,
    Second,
}

impl TimeUnit {
    // Returns the number of seconds in the unit.
    fn seconds(self) -> u64
        ensures value { result ≡ unit_seconds self }
        ensures some { 0 < result }
    {
        match self {
            TimeUnit::Day => 86400,
            TimeUnit::Hour => 3600,
            TimeUnit::Minute => 60,
            TimeUnit::Second => 1,
        }
    }

    /// Returns the word in the singular.
    pub(crate) fn one(self) -> &'static str
        ensures { result.now ≡ one_word self }
    {
        match self {
            TimeUnit::Day => "day",
            TimeUnit::Hour => "hour",
            TimeUnit::Minute => "minute",
            TimeUnit::Second => "second",
        }
    }

    /// Returns the word in the plural.
    pub(crate) fn many(self) -> &'static str
        ensures { result.now ≡ many_word self }
    {
        match self {
            TimeUnit::Day => "days",
            TimeUnit::Hour => "hours",
            TimeUnit::Minute => "minutes",
            TimeUnit::Second => "seconds",
        }
    }
}

/// Returns the largest unit of which the seconds are a multiple.
pub(crate) fn unit_of(seconds: u64) -> TimeUnit
    ensures { result ≡ unit_of seconds }
{
    if seconds % 86400 == 0 {
        TimeUnit::Day
    } else if seconds % 3600 == 0 {
        TimeUnit::Hour
    } else if seconds % 60 == 0 {
        TimeUnit::Minute
    } else {
        TimeUnit::Second
    }
}

/// Returns the seconds in that unit.
pub(crate) fn count_of(seconds: u64) -> u64
    ensures { result ≡ count_of seconds }
{
    seconds / unit_of(seconds).seconds()
}
