//! Why a version is held, in numbers.
ghost use Rattle.std.specs.Prelude.{◌≡◌};
ghost use Rattle.ele_c_values.specs.Kept.{hold_in, why_in};
ghost use Rattle.ele_c_values.specs.Numbers.{due_numbers, fate_numbers, or_never};

use crate::codes::{NEVER, NO_RESULT, or_never};
use crate::groups::mark_numbers;
use crate::numbers::{NONE, Numbers};
use ele_embed::Said;
use ele_model::{Cause, Fate, Moment};

/// Why a version is held.
pub(crate) fn why_in(said: &Said) -> Result<Numbers, i32>
    ensures { result ≡ why_in said.now }
{
    match said {
        Said::Why(Ok(fate)) => Ok(fate_numbers(fate)),
        Said::WhyHeld(fate, _) => Ok(fate_numbers(fate)),
        _ => Err(NO_RESULT),
    }
}

/// The mark that held a version after its policy had let it go.
pub(crate) fn hold_in(said: &Said) -> Result<Numbers, i32>
    ensures { result ≡ hold_in said.now }
{
    match said {
        Said::WhyHeld(_, hold) => Ok(mark_numbers(&hold.mark)),
        _ => Err(NO_RESULT),
    }
}

// `elephant_why_row`: fate, moment, until, level, cause, seconds, by.
fn fate_numbers(fate: &Fate) -> Numbers
    ensures { result ≡ fate_numbers fate.now }
{
    match fate {
        Fate::Current => NONE,
        Fate::Open => Numbers { first: 1, ..NONE },
        Fate::Marked { group: _, mark } => Numbers {
            first: 2,
            second: mark.at.seconds(),
            third: or_never(mark.until),
            ..NONE
        },
        Fate::Kept { until, level } => Numbers {
            first: 3,
            third: or_never(*until),
            fourth: level_number(*level),
            ..NONE
        },
        Fate::Due { since, cause } => due_numbers(*since, cause),
    }
}

fn level_number(level: Option<usize>) -> u64
    ensures { result ≡ or_never level }
{
    match level {
        Some(level) => level as u64,
        None => NEVER,
    }
}

fn due_numbers(since: Moment, cause: &Cause) -> Numbers
    ensures { result ≡ due_numbers since cause.now }
{
    let due = Numbers {
        first: 4,
        second: since.seconds(),
        ..NONE
    };
    match cause {
        Cause::AtOnce => due,
        Cause::Age(interval) => Numbers {
            fifth: 1,
            sixth: interval.seconds(),
            ..due
        },
        Cause::Displaced { level, by } => Numbers {
            fourth: *level as u64,
            fifth: 2,
            seventh: by.0,
            ..due
        },
    }
}
