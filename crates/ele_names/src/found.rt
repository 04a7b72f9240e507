//! The result of a look-up of a live name.
//! A contract sees the name's target.
ghost use Rattle.std.specs.Prelude.{◌≡◌};

use ele_model::Target;
use std::marker::Model;

/// The target of a live name, with the number of the name, so that a change of the name saves a
/// look-up. The number is a hint: with a wrong one the change is the same, and takes longer.
#[derive(Drop)]
pub struct Found {
    pub(crate) target: Target,
    pub(crate) number: u64,
}

impl Model for Found {
    ghost use Rattle.ele_model.specs.declared.rows.Target.{Target};

    ghost Value = { Target };

    ghost view = { λ found. found.target };
}

impl Found {
    /// Returns the name's target.
    pub fn target(&self) -> Target
        ensures { result ≡ self.now }
    {
        self.target
    }
}
