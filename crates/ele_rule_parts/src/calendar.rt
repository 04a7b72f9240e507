//! Months of the calendar. A contract sees a month as its number, counted from January 1970, which is 0.
ghost use Rattle.std.specs.Prelude.{◌≡◌, ◌≤◌, ◌-◌, ◌↔◌, IsSome, IfSome, OnOk};
ghost use Rattle.ele_moment.specs.Day.{IsDay, IsDayNumber};
ghost use Rattle.ele_rule_parts.specs.Shown.{IsMonth};
ghost use Rattle.ele_rule_parts.specs.Months.{month_start};

use jiff::civil::Date;
use jiff_core::civil::Date as CivilDate;
use std::marker::Model;

// Days from -9999-01-01, the first day of the calendar, to 1970-01-01.
const DAYS_BEFORE_1970: u32 = 4371587;

/// A month of the years 1970 to 9999.
#[derive(Clone, Copy)]
pub struct Month {
    number: u32,
}

impl Model for Month {
    ghost use Rattle.std.specs.Prelude.{ℕ, ◌≤◌};

    ghost Value = { ℕ };

    ghost view = { λ month. month.number };

    ghost invariant = { λ month. month.number ≤ 96359 };

    ghost inverse = { λ n. record { number = n } };
}

impl Month {
    /// January 1970.
    pub const FIRST: Month = Month { number: 0 };

    /// Returns the months since January 1970.
    pub fn number(self) -> u32
        ensures { result ≡ self }
    {
        self.number
    }

    /// Returns the day on which the month begins, counted from 1970-01-01.
    pub fn first_day(self) -> u32
        ensures start { result ≡ month_start self }
        ensures bound { result ≤ 2932896 }
    {
        month_start(self.number)
    }

    /// Returns the month of a day, which is counted from 1970-01-01 and isn't past the year 9999.
    pub fn of_day(number: u32) -> Month
        requires { number ≤ 2932896 }
        ensures { IsMonth number result }
    {
        let (year, month, _) = date_of(number);
        Month {
            number: 12 * (year as u32 - 1970) + (month as u32 - 1),
        }
    }

    /// Returns the days from the first of the month so many months before to the first of this one. None if that month
    /// is before 1970.
    pub fn days_since(self, months: u64) -> Option<u32>
        ensures some { IsSome result ↔ (months ≤ self) }
        ensures days { IfSome result (λ days. days ≡ month_start self - month_start (self - months)) }
        ensures bound { IfSome result (λ days. days ≤ 2932896) }
    {
        if months > self.number as u64 {
            return None;
        }
        let before = month_start(self.number - months as u32);
        Some(month_start(self.number).saturating_sub(before))
    }
}

// The year, month and day of a day number.
fn date_of(number: u32) -> (u16, u8, u8)
    requires { number ≤ 2932896 }
    ensures day { IsDay result.0 result.1 result.2 }
    ensures number { IsDayNumber result.0 result.1 result.2 number }
{
    let date = CivilDate::from_days_since_min(number + DAYS_BEFORE_1970);
    (date.year as u16, date.month, date.day)
}

// The number of the first day of a month.
fn month_start(month: u32) -> u32
    requires { month ≤ 96359 }
    ensures start { result ≡ month_start month }
    ensures bound { result ≤ 2932896 }
{
    let year = 1970 + month / 12;
    let Ok(date) = Date::new(year as i16, (month % 12 + 1) as i8, 1) else {
        return 0;
    };
    date.to_plain().days_since_min() - DAYS_BEFORE_1970
}
