//! What limits of parts allow, and the order of parts. A contract sees parts, limits and rows as plain data.
ghost use Rattle.std.specs.Prelude.{◌≡◌, ◌<◌, ◌+◌, ◌*◌, nat_le};
ghost use Rattle.ele_peer_rules.specs.Kept.{rank_of};
ghost use Rattle.ele_peer_rules.specs.Marks.{is_allowed, is_young, period};
ghost use Rattle.ele_peer_rules.specs.Within.{is_within};

use ele_moment::Moment;
use ele_rule_parts::{Limit, Month, Part, Reach, Row, Span};

/// The moment from which a length of time reaches back, and its month.
#[derive(Clone, Copy)]
pub struct Since {
    pub moment: Moment,
    pub month: Month,
}

/// The part's place in the order in which a tool takes them. Two parts of one rank say the same of a rule.
pub(crate) fn rank_of(part: Part) -> u8
    ensures rank { result ≡ rank_of part }
    ensures bound { result < 18 }
{
    let span = part.span.rank();
    match part.limit {
        Limit::Number(_) | Limit::All => 1 + span,
        Limit::Ago(_) => 1,
        Limit::Within(_) if span == 0 => 0,
        Limit::Within(_) => 8 + span,
        Limit::Begin(_) if span == 4 => 16,
        Limit::Begin(_) => 17,
    }
}

/// Whether the limit allows a row with so many newer ones of its kind.
pub(crate) fn is_allowed(limit: Limit, since: &Since, newer: u64, row: &Row) -> bool
    ensures { result ≡ is_allowed limit since.now newer row.now }
{
    match limit {
        Limit::Number(number) => newer < number,
        Limit::All => true,
        Limit::Within(reach) => is_within(reach, since, row),
        Limit::Ago(_) | Limit::Begin(_) => false,
    }
}

// Whether a row is later than the moment that lies so far back.
fn is_within(reach: Reach, since: &Since, row: &Row) -> bool
    ensures { result ≡ is_within reach since.now row.now }
{
    let Some(days) = since.month.days_since(reach.months) else {
        return true;
    };
    let at = row.moment.seconds() + 86_400 * days as u64;
    match since.moment.seconds().checked_sub(at) {
        Some(apart) => apart < reach.seconds,
        None => true,
    }
}

/// Whether a row isn't older than so many of sanoid's periods.
pub(crate) fn is_young(limit: Limit, span: Span, since: &Since, row: &Row) -> bool
    ensures { result ≡ is_young limit span since.now row.now }
{
    match limit {
        Limit::Number(number) => lasts(number, span, since, row),
        Limit::All | Limit::Within(_) | Limit::Ago(_) | Limit::Begin(_) => false,
    }
}

// Whether so many periods from the row on reach the moment.
fn lasts(number: u64, span: Span, since: &Since, row: &Row) -> bool
    ensures { result ≡ nat_le since.now.moment (row.now.moment + number * period span) }
{
    let now = since.moment.seconds();
    let Some(seconds) = number.checked_mul(period(span)) else {
        return true;
    };
    match now.checked_sub(row.moment.seconds()) {
        Some(apart) => apart <= seconds,
        None => true,
    }
}

// The seconds of sanoid's period.
fn period(span: Span) -> u64
    ensures { result ≡ period span }
{
    match span {
        Span::Each | Span::Second => 0,
        Span::Minute => 900,
        Span::Hour => 3_600,
        Span::Day => 86_400,
        Span::Week => 604_800,
        Span::Month => 2_678_400,
        Span::Year => 31_557_600,
    }
}
