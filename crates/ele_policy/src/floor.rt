//! How many newer versions a live file must hold before its policy lets one go.
//! A contract sees a floor as that number.
ghost use Rattle.std.specs.Prelude.{◌≡◌, ◌↔◌, IsOk, IfOk};
ghost use Rattle.ele_policy.specs.Floor.{IsFloor};

use crate::interval::BadLadder;
use std::marker::Model;

/// A number of versions, from none to 16.
#[derive(Clone, Copy, PartialEq, Eq, PartialOrd, Ord)]
pub struct Floor {
    versions: u64,
}

impl Model for Floor {
    ghost use Rattle.std.specs.Prelude.{ℕ};
    ghost use Rattle.ele_policy.specs.Floor.{IsFloor};

    ghost Value = { ℕ };

    ghost view = { λ floor. floor.versions };

    ghost invariant = { λ floor. IsFloor floor.versions };

    ghost inverse = { λ n. record { versions = n } };
}

impl Floor {
    /// The floor of 0 versions.
    /// Cost: constant time.
    pub const NONE: Floor = Floor { versions: 0 };

    const MOST_VERSIONS: u64 = 16;

    /// Returns the floor of that many versions. `BadLadder` for more than 16.
    /// Cost: constant time.
    pub fn new(versions: u64) -> Result<Floor, BadLadder>
        ensures valid { IsOk result ↔ IsFloor versions }
        ensures value { IfOk result (λ floor. floor ≡ versions) }
    {
        if versions > Self::MOST_VERSIONS {
            return Err(BadLadder);
        }
        Ok(Floor { versions })
    }

    /// Returns the number of versions.
    /// Cost: constant time.
    pub fn number(self) -> u64
        ensures value { result ≡ self }
        ensures valid { IsFloor result }
    {
        self.versions
    }
}
