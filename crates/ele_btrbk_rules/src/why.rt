//! What keeps a row. A contract sees rows, options and reasons as plain data.
ghost use Rattle.std.specs.Prelude.{◌≡◌};
ghost use Rattle.std.specs.List.{list_any};
ghost use Rattle.ele_btrbk_rules.specs.Numbers.{ago};
ghost use Rattle.ele_btrbk_rules.specs.Why.{at_least, by_first, keeps, least_ago, least_by, least_of, reaches, why};

use crate::begins::Begins;
use crate::numbers::ago;
use ele_rule_parts::{By, Limit, Part, Reason, Row, Span};

/// What keeps the row, which is the first of so many spans: the longest of these, or what is kept at least.
pub(crate) fn why(
    begins: Begins,
    parts: &[Part],
    present: &Row,
    deep: u64,
    newest: bool,
    row: &Row,
) -> Option<Reason>
    ensures { result ≡ why begins parts.now present.now deep newest row.now }
{
    by_first(
        deep >= 5,
        Span::Year,
        ago(begins, Span::Year, present, row),
        parts,
    )
    .or(by_first(
        deep >= 4,
        Span::Month,
        ago(begins, Span::Month, present, row),
        parts,
    ))
    .or(by_first(
        deep >= 3,
        Span::Week,
        ago(begins, Span::Week, present, row),
        parts,
    ))
    .or(by_first(
        deep >= 2,
        Span::Day,
        ago(begins, Span::Day, present, row),
        parts,
    ))
    .or(by_first(
        deep >= 1,
        Span::Hour,
        ago(begins, Span::Hour, present, row),
        parts,
    ))
    .or(at_least(begins, present, newest, row, parts))
}

// What keeps the first row of a span, if it is one.
fn by_first(first: bool, span: Span, spans: u64, parts: &[Part]) -> Option<Reason>
    ensures { result ≡ by_first first span spans parts.now }
{
    if !first {
        return None;
    }
    if any_keeps(span, spans, parts) {
        Some(because(span, By::Count, spans))
    } else {
        None
    }
}

// Whether one of the options keeps the first row of a span so many spans ago.
fn any_keeps(span: Span, spans: u64, parts: &[Part]) -> bool
    ensures { result ≡ list_any (keeps span spans) parts.now }
{
    parts.iter().any(|part| keeps(span, spans, *part))
}

// Whether this option does.
fn keeps(span: Span, spans: u64, part: Part) -> bool
    ensures { result ≡ keeps span spans part }
{
    part.span.rank() == span.rank() && reaches(part.limit, spans)
}

fn reaches(limit: Limit, spans: u64) -> bool
    ensures { result ≡ reaches limit spans }
{
    match limit {
        Limit::Number(number) => number > 0 && spans <= number,
        Limit::All => true,
        Limit::Within(_) | Limit::Ago(_) | Limit::Begin(_) => false,
    }
}

// What keeps the row at least, if something does.
fn at_least(
    begins: Begins,
    present: &Row,
    newest: bool,
    row: &Row,
    parts: &[Part],
) -> Option<Reason>
    ensures { result ≡ at_least begins present.now newest row.now parts.now }
{
    for part in parts {
        let reason = least_of(begins, present, newest, row, *part);
        if reason.is_some() {
            return reason;
        }
    }
    None
}

// What an option keeps at least.
fn least_of(begins: Begins, present: &Row, newest: bool, row: &Row, part: Part) -> Option<Reason>
    ensures { result ≡ least_of begins present.now newest row.now part }
{
    let spans = ago(begins, part.span, present, row);
    let hours = ago(begins, Span::Hour, present, row);
    least_by(part.limit, part.span, spans, hours, newest)
}

// The same of a row so many spans and hours ago.
fn least_by(limit: Limit, span: Span, spans: u64, hours: u64, newest: bool) -> Option<Reason>
    ensures { result ≡ least_by limit span spans hours newest }
{
    let each = span.rank() == 0;
    match limit {
        Limit::Number(_) if each && newest => Some(because(span, By::Count, 1)),
        Limit::All if each => Some(because(span, By::Age, hours)),
        Limit::Ago(most) => least_ago(span, spans, most),
        _ => None,
    }
}

// A row so many spans ago is kept, if these aren't more than the most.
fn least_ago(span: Span, spans: u64, most: u64) -> Option<Reason>
    ensures { result ≡ least_ago span spans most }
{
    if spans <= most {
        Some(because(span, By::Age, spans))
    } else {
        None
    }
}

fn because(span: Span, by: By, number: u64) -> Reason
    ensures { result ≡ record { span = span; by = by; number = number } }
{
    Reason { span, by, number }
}
