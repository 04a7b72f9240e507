//! A version of a list, with the time that the list's clock showed as it closed. A contract sees it as plain data.
ghost use Rattle.std.specs.Prelude.{◌≡◌};
ghost use Rattle.ele_suggest.specs.Versions.{IsRow, local_of, size_of};

use crate::calendar::month_of;
use ele_moment::{Moment, VersionNo};
use ele_tool_words::Offset;

// The number of the calendar's last day, 9999-12-31.
const LAST_DAY: u64 = 2932896;

/// A version of a list.
#[derive(Clone, Copy)]
pub struct Version {
    pub number: VersionNo,
    pub closed: Moment,
    /// What the list's clock showed then, in seconds since it showed 1970.
    pub local: u64,
    /// The month that it showed, counted from January 1970.
    pub month: u32,
    pub bytes: u64,
}

/// The version of that number, which closed then.
pub(crate) fn version_of(number: VersionNo, closed: Moment, clock: Offset, sizes: &[u64]) -> Version
    ensures number { result.number ≡ number }
    ensures closed { result.closed ≡ closed }
    ensures row { IsRow clock sizes.now result }
{
    let local = local_of(clock, closed);
    Version {
        number,
        closed,
        local,
        month: month_of((local / 86_400).min(LAST_DAY) as u32),
        bytes: size_of(sizes, number),
    }
}

// What the clock showed at the moment.
fn local_of(clock: Offset, moment: Moment) -> u64
    ensures { result ≡ local_of clock moment }
{
    let seconds = moment.seconds();
    match clock {
        Offset::Ahead(minutes) => seconds + 60 * minutes as u64,
        Offset::Behind(minutes) => seconds.saturating_sub(60 * minutes as u64),
    }
}

// The size of the version of that number, or 0 if it has none.
fn size_of(sizes: &[u64], number: VersionNo) -> u64
    ensures { result ≡ size_of sizes.now number }
{
    match sizes.get(number.before().0 as usize) {
        Some(size) => *size,
        None => 0,
    }
}
