//! Spans of time by a clock. A contract sees a span as plain data.
ghost use Rattle.std.specs.Prelude.{◌≡◌, ◌<◌};
ghost use Rattle.ele_lists.specs.Ends.{last_of};
ghost use Rattle.ele_rule_parts.specs.Spans.{is_first, is_newest, is_of, rank_of_span, same_span};

use crate::row::Row;

/// Spans of time, of each of which a part of a rule takes a row. Weeks begin on Monday. `Each` is a span for each row.
#[derive(Clone, Copy, Default)]
pub enum Span {
    #[default]
    Each,
    Second,
    Minute,
    Hour,
    Day,
    Week,
    Month,
    Year,
}

impl Span {
    /// Returns the place of the span among all: 0 for each row, then from the shortest on.
    pub fn rank(self) -> u8
        ensures rank { result ≡ rank_of_span self }
        ensures bound { result < 8 }
    {
        self as u8
    }

    // Whether both rows lie in one span, by the clock of each.
    fn is_one(self, row: &Row, other: &Row) -> bool
        ensures { result ≡ same_span self row.now other.now }
    {
        let (a, b) = (row.local.seconds(), other.local.seconds());
        match self {
            Span::Each => false,
            Span::Second => a == b,
            Span::Minute => a / 60 == b / 60,
            Span::Hour => a / 3_600 == b / 3_600,
            Span::Day => a / 86_400 == b / 86_400,
            Span::Week => (a / 86_400 + 3) / 7 == (b / 86_400 + 3) / 7,
            Span::Month => row.month.number() == other.month.number(),
            Span::Year => row.month.number() / 12 == other.month.number() / 12,
        }
    }

    /// Whether the row is the newest of its span: the next newer one, if there is one, lies in another.
    pub fn is_newest(self, row: &Row, newer: &[Row]) -> bool
        ensures { result ≡ is_newest self row.now newer.now }
    {
        match newer {
            [next, ..] => !self.is_one(row, next),
            [] => true,
        }
    }

    /// Whether the row is the first of its span: the row before it, if there is one, lies in another.
    #[tactic(auto, using(crate::proofs::Newest::newest_is))]
    pub fn is_first(self, older: &[Row], row: &Row) -> bool
        ensures { result ≡ is_first self (last_of older.now) row.now }
    {
        match older.last() {
            Some(before) => !self.is_one(before, row),
            None => true,
        }
    }

    /// Whether the row's name tells the span.
    pub fn is_of(self, row: &Row) -> bool
        ensures { result ≡ is_of self row.now }
    {
        row.kind.rank() == self.rank()
    }
}
