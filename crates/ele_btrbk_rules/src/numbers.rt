//! The numbers of the spans in which rows lie. A contract sees a row as plain data.
ghost use Rattle.std.specs.Prelude.{◌≡◌, ◌<◌, ◌^◌};
ghost use Rattle.ele_btrbk_rules.specs.Numbers.{ago, day_of, into_week, month_of, number_now, number_of, week_of};

use crate::begins::Begins;
use ele_rule_parts::{Row, Span};

// The day of a row.
fn day_of(begins: Begins, row: &Row) -> u64
    ensures day { result ≡ day_of begins row.now }
    ensures bound { result < 2 ^ 60 }
{
    (row.local.seconds() / 3_600 + 24).saturating_sub(begins.hour) / 24
}

// The week of a row.
fn week_of(begins: Begins, row: &Row) -> u64
    ensures { result ≡ week_of begins row.now }
{
    (day_of(begins, row) + 10).saturating_sub(begins.weekday) / 7
}

// The days since the week of a row began.
fn into_week(begins: Begins, row: &Row) -> u64
    ensures { result ≡ into_week begins row.now }
{
    (day_of(begins, row) + 10).saturating_sub(begins.weekday) % 7
}

// The month of a row, which begins with its first week.
fn month_of(begins: Begins, row: &Row) -> u64
    ensures { result ≡ month_of begins row.now }
{
    let day = row.local.seconds() / 86_400;
    let in_month = day.saturating_sub(row.month.first_day() as u64);
    let month = row.month.number() as u64;
    if in_month < into_week(begins, row) {
        month.saturating_sub(1)
    } else {
        month
    }
}

/// The number of the span of that kind in which a row lies.
pub(crate) fn number_of(begins: Begins, span: Span, row: &Row) -> u64
    ensures { result ≡ number_of begins span row.now }
{
    match span {
        Span::Each | Span::Second | Span::Minute => 0,
        Span::Hour => row.local.seconds() / 3_600,
        Span::Day => day_of(begins, row),
        Span::Week => week_of(begins, row),
        Span::Month => month_of(begins, row),
        Span::Year => month_of(begins, row) / 12,
    }
}

// The number of the span in which the present lies.
fn number_now(begins: Begins, span: Span, present: &Row) -> u64
    ensures { result ≡ number_now begins span present.now }
{
    match span {
        Span::Each | Span::Second | Span::Minute => 0,
        Span::Hour => present.local.seconds() / 3_600,
        Span::Day => day_of(begins, present),
        Span::Week => week_of(begins, present),
        Span::Month => present.month.number() as u64,
        Span::Year => present.month.number() as u64 / 12,
    }
}

/// How many spans ago a row lies.
pub(crate) fn ago(begins: Begins, span: Span, present: &Row, row: &Row) -> u64
    ensures { result ≡ ago begins span present.now row.now }
{
    number_now(begins, span, present).saturating_sub(number_of(begins, span, row))
}
