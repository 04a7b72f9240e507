//! A count of the rows that were read or removed.
//! A contract sees it as the number.
ghost use Rattle.std.specs.Prelude.{◌≡◌, ◌<◌, ◌+◌, ◌^◌};

use std::marker::Model;

/// How many rows were read or removed by the calls that got this meter.
#[derive(Drop)]
pub struct Meter {
    rows: u64,
}

impl Model for Meter {
    ghost use Rattle.std.specs.Prelude.{ℕ};

    ghost Value = { ℕ };

    ghost view = { λ meter. meter.rows };
}

impl Meter {
    /// Makes a meter at 0.
    pub fn new() -> Meter
        ensures { result ≡ 0 }
    {
        Meter { rows: 0 }
    }

    /// Returns how many rows were read or removed.
    pub fn rows(&self) -> u64
        ensures { result ≡ self.now }
    {
        self.rows
    }

    /// Counts one row.
    pub(crate) fn count(&mut self)
        requires { self.old < 2 ^ 63 }
        ensures { self.new ≡ self.old + 1 }
    {
        self.rows += 1;
    }
}
