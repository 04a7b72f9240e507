//! Which spans were begun last, as rows are gone through from the oldest on. A contract sees them as plain data.
ghost use Rattle.std.specs.Prelude.{◌≡◌, ◌≤◌};
ghost use Rattle.ele_btrbk_rules.specs.Begun.{begun_after, begun_if, depth, none_begun};
ghost use Rattle.ele_btrbk_rules.specs.Firsts.{is_new};

use crate::begins::Begins;
use crate::numbers::number_of;
use ele_rule_parts::{Row, Span};

/// The number of the span of each kind that was begun last.
#[derive(Clone, Copy)]
pub struct Begun {
    pub hour: Option<u64>,
    pub day: Option<u64>,
    pub week: Option<u64>,
    pub month: Option<u64>,
    pub year: Option<u64>,
}

/// Before the first row.
pub(crate) fn none_begun() -> Begun
    ensures { result ≡ none_begun }
{
    Begun {
        hour: None,
        day: None,
        week: None,
        month: None,
        year: None,
    }
}

/// Of how many of an hour, a day, a week, a month and a year the row is the first.
pub(crate) fn depth(begins: Begins, begun: &Begun, row: &Row) -> u64
    ensures { result ≡ depth begins begun.now row.now }
{
    if !is_new(begun.hour, number_of(begins, Span::Hour, row)) {
        return 0;
    }
    if !is_new(begun.day, number_of(begins, Span::Day, row)) {
        return 1;
    }
    if !is_new(begun.week, number_of(begins, Span::Week, row)) {
        return 2;
    }
    if !is_new(begun.month, number_of(begins, Span::Month, row)) {
        return 3;
    }
    if is_new(begun.year, number_of(begins, Span::Year, row)) {
        5
    } else {
        4
    }
}

// Whether a span isn't the one that was begun last.
fn is_new(last: Option<u64>, number: u64) -> bool
    ensures { result ≡ is_new last number }
{
    match last {
        Some(last) => last != number,
        None => true,
    }
}

/// What was begun last, after a row that is the first of so many spans.
pub(crate) fn begun_after(begins: Begins, begun: &Begun, deep: u64, row: &Row) -> Begun
    ensures { result ≡ begun_after begins begun.now deep row.now }
{
    Begun {
        hour: begun_if(deep >= 1, number_of(begins, Span::Hour, row), begun.hour),
        day: begun_if(deep >= 2, number_of(begins, Span::Day, row), begun.day),
        week: begun_if(deep >= 3, number_of(begins, Span::Week, row), begun.week),
        month: begun_if(deep >= 4, number_of(begins, Span::Month, row), begun.month),
        year: begun_if(deep >= 5, number_of(begins, Span::Year, row), begun.year),
    }
}

// The span that is begun last after a row that may be the first of it.
fn begun_if(first: bool, number: u64, last: Option<u64>) -> Option<u64>
    ensures { result ≡ begun_if first number last }
{
    if first { Some(number) } else { last }
}
