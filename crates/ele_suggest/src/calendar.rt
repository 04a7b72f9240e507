//! Months of the calendar. A contract sees a month as its number, counted from January 1970, which is 0.
ghost use Rattle.std.specs.Prelude.{◌≤◌};
ghost use Rattle.ele_moment.specs.Day.{IsDay, IsDayNumber};
ghost use Rattle.ele_suggest.specs.Versions.{IsMonth};

use jiff_core::civil::Date as CivilDate;

// Days from -9999-01-01, the first day of the calendar, to 1970-01-01.
const DAYS_BEFORE_1970: u32 = 4371587;

/// The month of a day, which is counted from 1970-01-01 and isn't past the year 9999.
pub(crate) fn month_of(number: u32) -> u32
    requires { number ≤ 2932896 }
    ensures { IsMonth number result }
{
    let (year, month, _) = date_of(number);
    12 * (year as u32 - 1970) + (month as u32 - 1)
}

// The year, month and day of a day number.
fn date_of(number: u32) -> (u16, u8, u8)
    requires { number ≤ 2932896 }
    ensures day { IsDay result.0 result.1 result.2 }
    ensures number { IsDayNumber result.0 result.1 result.2 number }
{
    let date = CivilDate::from_days_since_min(number + DAYS_BEFORE_1970);
    (date.year as u16, date.month, date.day)
}
