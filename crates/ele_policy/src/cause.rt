//! Why a policy lets a version go. A contract sees a cause, and a newer version, as plain data.
ghost use Rattle.std.specs.Prelude.{◌≡◌, true, List, Some, slice_get};
ghost use Rattle.ele_policy.specs.Cause.{IsCause};
ghost use Rattle.ele_policy.specs.CauseText.{cause_text};
ghost use Rattle.ele_policy.specs.RipeCase.{closing_of, alone};
ghost use Rattle.ele_policy.specs.Ripe.{is_due_by};
ghost use Rattle.ele_policy.specs.declared.cause.Newer.{Newer};

use crate::interval::Interval;
use crate::policy::Policy;
use ele_moment::{Moment, VersionNo};
use std::fmt;

/// Why a policy lets a version go. It is displayed in the words of `why`: `at once`, `by age 60` or `by 3 level 1`.
#[derive(Clone, Copy, PartialEq, Eq)]
pub enum Cause {
    /// It keeps no version that has ended.
    AtOnce,
    /// The version ended that long ago, and as many newer ones are held as the floor asks for.
    Age(Interval),
    /// A newer version closed in the same span, at that level of the ladder. Levels count from 1,
    /// and this is the level that the version had reached as it became due. `by` is the nearest
    /// newer held version that closed in the span.
    Displaced { level: usize, by: VersionNo },
}

/// A newer held version of the same file: its number, and when it closed.
#[derive(Clone, Copy, PartialEq, Eq)]
pub struct Newer {
    pub number: VersionNo,
    pub closed: Moment,
}

/// Returns why the policy lets the version go at the moment. `closed` and `ended` are the version's
/// moments, and `nearest` is the nearest newer held version, if there is one. The policy lets the
/// version go beside that one alone. Other newer versions don't change the cause.
/// Cost: constant time; a ladder has at most eight pairs.
pub fn cause_of(
    policy: &Policy,
    closed: Moment,
    ended: Moment,
    nearest: Option<Newer>,
    at: Moment,
) -> Cause
    requires { is_due_by policy.now closed (alone (closing_of nearest)) ended at ≡ true }
    ensures { (newer : List Newer) → slice_get newer 0 ≡ nearest
        → IsCause policy.now closed ended newer at result }
{
    match policy {
        Policy::One => Cause::AtOnce,
        Policy::All => unreachable!(),
        Policy::Safe(interval, _) => Cause::Age(*interval),
        Policy::Landmarks(ladder) => {
            let Some(nearest) = nearest else {
                unreachable!()
            };
            let level = ladder.level(at.seconds().saturating_sub(ended.seconds()));
            let by = nearest.number;
            Cause::Displaced { level, by }
        }
    }
}

impl fmt::Display for Cause {
    ghost output = { λ cause. Some (cause_text cause) };

    fn fmt<W: fmt::Write>(&self, f: &mut fmt::Formatter<W>) -> fmt::Result {
        match self {
            Cause::AtOnce => f.write_str("at once"),
            Cause::Age(interval) => {
                let seconds = interval.seconds();
                write!(f, "by age {seconds}")
            }
            Cause::Displaced {
                level,
                by: VersionNo(by),
            } => write!(f, "by {by} level {level}"),
        }
    }
}
