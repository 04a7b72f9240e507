//! What becomes of a held version, and why. A contract sees plain data.
ghost use Rattle.std.specs.Prelude.{Some};
ghost use Rattle.ele_model.specs.AnswerText.{words_text};
ghost use Rattle.ele_model.specs.FateText.{fate_words};

use crate::rows::MarkRow;
use ele_moment::{Moment, Name};
use ele_policy::Cause;
use std::fmt;

/// What becomes of a held version: why it stays, or since when a clean may remove it. The first
/// variant that fits is the answer. It displays as the words of
/// `why`, such as `kept until 60 level 1` or `due 60 by age 55`.
#[derive(Clone, Copy, PartialEq, Eq)]
pub enum Fate {
    /// It has no end.
    Current,
    /// A handle reads it.
    Open,
    /// It was current at that mark of that group, which has its file, and the mark is in force. If
    /// several groups or marks hold the version, this is the group made first, and its mark made
    /// first.
    Marked {
        group: Name,
        mark: MarkRow,
    },
    /// Its policy keeps it until the moment, if only the clock moves, or without a moment for good.
    /// Under a ladder `level` is the level of its age; it is 0 before the first age.
    Kept {
        until: Option<Moment>,
        level: Option<usize>,
    },
    /// It is due since that moment, and a clean may remove it.
    Due {
        since: Moment,
        cause: Cause,
    },
}

impl fmt::Display for Fate {
    ghost output = { λ fate. Some (words_text (fate_words fate)) };

    fn fmt<W: fmt::Write>(&self, f: &mut fmt::Formatter<W>) -> fmt::Result {
        match self {
            Fate::Current => f.write_str("current"),
            Fate::Open => f.write_str("open"),
            Fate::Marked { group, mark } => write!(f, "marked {group} {mark}"),
            Fate::Kept { until, level } => match (until, level) {
                (Some(until), Some(level)) => write!(f, "kept until {until} level {level}"),
                (Some(until), None) => write!(f, "kept until {until}"),
                (None, Some(level)) => write!(f, "kept level {level}"),
                (None, None) => f.write_str("kept"),
            },
            Fate::Due { since, cause } => write!(f, "due {since} {cause}"),
        }
    }
}
