//! Where days and weeks begin. A contract sees it as plain data.
ghost use Rattle.std.specs.Prelude.{◌≡◌};
ghost use Rattle.ele_btrbk_rules.specs.Numbers.{begin_by, begin_in, begin_of, begins_of};

use ele_rule_parts::{Limit, Part, Span};

/// The hour at which days begin, and the day on which weeks do, of which 0 is Sunday.
#[derive(Clone, Copy)]
pub struct Begins {
    pub hour: u64,
    pub weekday: u64,
}

/// When days and weeks begin under the options.
pub(crate) fn begins_of(parts: &[Part]) -> Begins
    ensures { result ≡ begins_of parts.now }
{
    Begins {
        hour: begin_of(Span::Day, parts),
        weekday: begin_of(Span::Week, parts),
    }
}

// When the spans of a kind begin.
fn begin_of(span: Span, parts: &[Part]) -> u64
    ensures { result ≡ begin_of span parts.now }
{
    for part in parts {
        if let Some(at) = begin_by(span, *part) {
            return at;
        }
    }
    0
}

// When an option lets them begin.
fn begin_by(span: Span, part: Part) -> Option<u64>
    ensures { result ≡ begin_by span part }
{
    if part.span.rank() == span.rank() {
        begin_in(part.limit)
    } else {
        None
    }
}

fn begin_in(limit: Limit) -> Option<u64>
    ensures { result ≡ begin_in limit }
{
    match limit {
        Limit::Begin(at) => Some(at),
        Limit::Number(_) | Limit::All | Limit::Within(_) | Limit::Ago(_) => None,
    }
}
