//! Rows of a list of backups, each with what a clock showed as it was made, and its kind. A contract sees a row as plain
//! data.
ghost use Rattle.std.specs.Prelude.{◌≤◌, ℕ, IsSome, IfSome};
ghost use Rattle.ele_moment.specs.Last.{last_moment};
ghost use Rattle.ele_rule_parts.specs.Shown.{IsRow, IsShown};

use crate::calendar::Month;
use crate::span::Span;
use ele_moment::Moment;

/// How many seconds a clock is ahead of UTC, or behind it.
#[derive(Clone, Copy)]
pub enum Offset {
    Ahead(u32),
    Behind(u32),
}

/// A backup: its moment, what the clock showed then, and its kind.
#[derive(Clone, Copy)]
pub struct Row {
    pub moment: Moment,
    /// The moment at which UTC shows what the clock showed.
    pub local: Moment,
    pub month: Month,
    /// The span that its name tells, or `Each`.
    pub kind: Span,
}

impl Row {
    /// The row of a backup of that kind that was made at the moment, by a clock with the offset. None if the clock showed
    /// a time before 1970 or after the year 9999. It takes no memory.
    pub fn new(moment: Moment, offset: Offset, kind: Span) -> Option<Row>
        ensures some { IfSome result (IsRow moment offset kind) }
        ensures only { (local : ℕ) → local ≤ last_moment → IsShown moment offset local → IsSome result }
    {
        let local = shown(moment, offset)?;
        let month = Month::of_day((local.seconds() / 86_400) as u32);
        Some(Row {
            moment,
            local,
            month,
            kind,
        })
    }
}

// What the clock showed at the moment.
fn shown(moment: Moment, offset: Offset) -> Option<Moment>
    ensures some { IfSome result (IsShown moment offset) }
    ensures only { (local : ℕ) → local ≤ last_moment → IsShown moment offset local → IsSome result }
{
    match offset {
        Offset::Ahead(seconds) => moment.plus(seconds as u64),
        Offset::Behind(seconds) => Moment::new(moment.seconds().checked_sub(seconds as u64)?),
    }
}
