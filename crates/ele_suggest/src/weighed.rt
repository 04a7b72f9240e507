//! A policy weighed: what it keeps at a moment, and what that costs. A contract sees kept versions as the list of their numbers.
ghost use Rattle.std.specs.Prelude.{◌≡◌};
ghost use Rattle.ele_suggest.specs.Best.{costs_less};

use ele_moment::VersionNo;
use ele_policy::Policy;

/// A policy, and what it keeps at a moment.
#[derive(Drop)]
pub struct Weighed {
    pub policy: Policy,
    /// The versions that stay.
    pub numbers: Vec<VersionNo>,
    /// Their bytes together.
    pub bytes: u128,
    /// Whether they are what is asked.
    pub keeps: bool,
}

/// Whether the first costs less: fewer bytes, or as many bytes and fewer versions.
pub(crate) fn costs_less(a: &Weighed, b: &Weighed) -> bool
    ensures { result ≡ costs_less a.now b.now }
{
    a.bytes < b.bytes || (a.bytes == b.bytes && a.numbers.len() < b.numbers.len())
}
