//! What one part of a rule keeps. A contract sees rows and marks as lists, the oldest first.
ghost use Rattle.std.specs.Prelude.{◌≡◌, ◌<◌, ◌^◌, ◌+◌, length, slice_get, Some};
ghost use Rattle.ele_lists.specs.Ends.{last_of};
ghost use Rattle.ele_peer_rules.specs.Marks.{after_part, by_limit, by_name, by_of, by_take, counts, is_number, is_oldest, keeps_oldest, marked, stays_young, takes};

use crate::limit::{Since, is_allowed, is_young};
use crate::ways::{OldestKept, Take, Ways};
use ele_rule_parts::{By, Limit, Part, Reason, Row, Span};

// By what a part keeps a row, which it may take, and may allow by its limit.
fn by_of(take: Take, part: Part, taken: bool, allowed: bool) -> By
    ensures { result ≡ by_of take part taken allowed }
{
    if !taken {
        return By::Oldest;
    }
    if allowed {
        by_take(take, part)
    } else {
        By::Age
    }
}

// By what a part keeps a row that it takes and allows.
fn by_take(take: Take, part: Part) -> By
    ensures { result ≡ by_take take part }
{
    match take {
        Take::Newest | Take::First => by_limit(part.limit),
        Take::Named => by_name(part.span, part.limit),
    }
}

fn by_name(span: Span, limit: Limit) -> By
    ensures { result ≡ by_name span limit }
{
    match span {
        Span::Each => By::Other,
        Span::Second
        | Span::Minute
        | Span::Hour
        | Span::Day
        | Span::Week
        | Span::Month
        | Span::Year => by_limit(limit),
    }
}

fn by_limit(limit: Limit) -> By
    ensures { result ≡ by_limit limit }
{
    match limit {
        Limit::Number(_) | Limit::All => By::Count,
        Limit::Within(_) | Limit::Ago(_) | Limit::Begin(_) => By::Age,
    }
}

// Whether the tool keeps the row for its age, whatever is counted.
fn stays_young(take: Take, part: Part, since: &Since, row: &Row) -> bool
    ensures { result ≡ stays_young take part since.now row.now }
{
    match take {
        Take::Newest | Take::First => false,
        Take::Named => is_young(part.limit, part.span, since, row),
    }
}

// Whether a part with the span takes the row, which lies between these.
fn takes(ways: Ways, span: Span, older: &[Row], row: &Row, newer: &[Row]) -> bool
    ensures { result ≡ takes ways span (last_of older.now) row.now newer.now }
{
    match ways.take {
        Take::Newest => span.is_newest(row, newer),
        Take::First => span.is_first(older, row),
        Take::Named => span.is_of(row),
    }
}

// Whether a part with the limit keeps the oldest row, though it doesn't take it.
fn keeps_oldest(oldest: OldestKept, limit: Limit) -> bool
    ensures { result ≡ keeps_oldest oldest limit }
{
    match oldest {
        OldestKept::Always => true,
        OldestKept::ByNumber => is_number(limit),
        OldestKept::Never => false,
    }
}

fn is_number(limit: Limit) -> bool
    ensures { result ≡ is_number limit }
{
    matches!(limit, Limit::Number(_))
}

// Whether no row is before.
#[tactic(auto, using(ele_rule_parts::proofs::Newest::newest_is))]
fn is_oldest(older: &[Row]) -> bool
    ensures { result ≡ is_oldest (last_of older.now) }
{
    match older.last() {
        Some(_) => false,
        None => true,
    }
}

// What keeps a row after the part. So many newer rows are counted.
fn marked(
    ways: Ways,
    since: &Since,
    part: Part,
    oldest: bool,
    taken: bool,
    counted: u64,
    row: &Row,
    mark: Option<Reason>,
) -> Option<Reason>
    requires { counted + 1 < 2 ^ 64 }
    ensures { result ≡ marked ways since.now part oldest taken counted row.now mark }
{
    if mark.is_some() {
        return mark;
    }
    let may = taken || (oldest && keeps_oldest(ways.oldest, part.limit));
    let allowed = is_allowed(part.limit, since, counted, row);
    if !may || !(allowed || stays_young(ways.take, part, since, row)) {
        return None;
    }
    Some(Reason {
        span: part.span,
        by: by_of(ways.take, part, taken, allowed),
        number: counted + 1,
    })
}

/// Marks the rows that a part keeps and nothing before it does.
pub(crate) fn mark_part(
    ways: Ways,
    since: &Since,
    part: Part,
    rows: &[Row],
    marks: &mut [Option<Reason>],
)
    requires same { length rows.now ≡ length marks.old }
    requires fits { length rows.now < 2 ^ 60 }
    ensures { marks.new ≡ after_part ways since.now part rows.now marks.old }
{
    let mut counted = 0;
    for at in (0..rows.len()).rev() {
        let row = &rows[at];
        let older = rows.split_at(at).0;
        let newer = rows.split_at(at + 1).1;
        let taken = takes(ways, part.span, older, row, newer);
        let mark = mark_at(marks, at);
        marks[at] = marked(
            ways,
            since,
            part,
            is_oldest(older),
            taken,
            counted,
            row,
            mark,
        );
        counted += counts(ways, taken, mark);
    }
}

// What keeps the row so far.
fn mark_at(marks: &[Option<Reason>], at: usize) -> Option<Reason>
    requires { at < length marks.now }
    ensures { slice_get marks.now at ≡ Some result }
{
    marks[at]
}

// How many rows more the part counts.
fn counts(ways: Ways, taken: bool, mark: Option<Reason>) -> u64
    ensures { result ≡ counts ways taken mark }
{
    if taken && (ways.counts_kept || mark.is_none()) {
        1
    } else {
        0
    }
}
