//! How long a policy keeps a version that has ended.
//! A contract sees an interval as its seconds.
ghost use Rattle.std.specs.Prelude.{◌≡◌, ◌↔◌, IsOk, IfOk};
ghost use Rattle.ele_policy.specs.Interval.{IsInterval};

use std::marker::Model;
use thiserror::Error;

/// Numbers that no policy may have.
#[derive(Clone, Copy, Debug, PartialEq, Eq, Error)]
#[error("not the numbers of a policy")]
pub struct BadLadder;

/// A length of time, from 1 second to 253402300799, the seconds from the first moment to the last.
#[derive(Clone, Copy, PartialEq, Eq, PartialOrd, Ord)]
pub struct Interval {
    seconds: u64,
}

impl Model for Interval {
    ghost use Rattle.std.specs.Prelude.{ℕ};
    ghost use Rattle.ele_policy.specs.Interval.{IsInterval};

    ghost Value = { ℕ };

    ghost view = { λ interval. interval.seconds };

    ghost invariant = { λ interval. IsInterval interval.seconds };

    ghost inverse = { λ n. record { seconds = n } };
}

impl Interval {
    /// A day, which is 86400 seconds.
    /// Cost: constant time.
    pub const DAY: Interval = Interval { seconds: 86400 };

    const MOST_SECONDS: u64 = 253402300799;

    /// Returns the interval of that many seconds. `BadLadder` for 0 and for more than 253402300799.
    /// Cost: constant time.
    pub fn new(seconds: u64) -> Result<Interval, BadLadder>
        ensures valid { IsOk result ↔ IsInterval seconds }
        ensures value { IfOk result (λ interval. interval ≡ seconds) }
    {
        if seconds == 0 || seconds > Self::MOST_SECONDS {
            return Err(BadLadder);
        }
        Ok(Interval { seconds })
    }

    /// Returns the seconds of the interval.
    /// Cost: constant time.
    pub fn seconds(self) -> u64
        ensures value { result ≡ self }
        ensures valid { IsInterval result }
    {
        self.seconds
    }
}
