//! The policies of files, and their kinds.
//! A contract sees both as plain data.
ghost use Rattle.std.specs.Prelude.{◌≡◌, Some};
ghost use Rattle.ele_policy.specs.Rule.{floor_of};
ghost use Rattle.ele_policy.specs.Lawful.{IsLawful};
ghost use Rattle.ele_policy.specs.Policy.{kind_of, IsPolicy};
ghost use Rattle.ele_policy.specs.PolicyText.{kind_word, policy_word};

use crate::floor::Floor;
use crate::interval::Interval;
use crate::ladder::Ladder;
use std::fmt;

/// The four kinds of policy, in the order of the sums of usage. Each is displayed as its word in
/// scripts.
#[derive(Clone, Copy, PartialEq, Eq)]
pub enum Kind {
    /// Keep the current version alone.
    One,
    /// Keep every version.
    All,
    /// Keep a version for some time after its end.
    Safe,
    /// Keep fewer of the versions the longer ago they ended.
    Landmarks,
}

/// Which ended versions of a file are due, and since when. It is displayed as its word in scripts.
#[derive(Clone, Copy, PartialEq, Eq)]
pub enum Policy {
    /// An ended version is due at once.
    One,
    /// No version is ever due.
    All,
    /// A version is due once the interval has passed since its end. While the file is live, it is
    /// due only if the file holds at least as many newer versions as the floor says.
    Safe(Interval, Floor),
    /// A version is due once a newer one is in its span, at the level of its age.
    Landmarks(Ladder),
}

impl Policy {
    /// Returns the kind of the policy.
    /// Cost: constant time.
    pub fn kind(&self) -> Kind
        ensures { result ≡ kind_of self.now }
    {
        match self {
            Policy::One => Kind::One,
            Policy::All => Kind::All,
            Policy::Safe(_, _) => Kind::Safe,
            Policy::Landmarks(_) => Kind::Landmarks,
        }
    }

    /// Returns the policy's floor: how many newer versions a live file must hold before one goes.
    /// It is 0 for all kinds but `Safe`.
    /// Cost: constant time.
    pub fn floor(&self) -> Floor
        ensures { result ≡ floor_of self.now }
    {
        match self {
            Policy::Safe(_, floor) => *floor,
            Policy::One | Policy::All | Policy::Landmarks(_) => Floor::NONE,
        }
    }

    // Brings a proof the fact that the policy's numbers are allowed.
    fn lemma_policy(&self)
        ensures { IsPolicy self.now }
    {
        match self {
            Policy::One | Policy::All => {}
            Policy::Safe(interval, floor) => {
                interval.seconds();
                floor.number();
            }
            Policy::Landmarks(ladder) => {
                ladder.pairs();
            }
        }
    }

    /// Brings a proof the facts that the policy's numbers are allowed, and that it is lawful.
    #[tactic(auto, using(crate::proofs::Waits::policies_are_lawful))]
    pub fn lemma_valid(&self)
        ensures given { IsPolicy self.now }
        ensures lawful { IsLawful self.now }
    {
        self.lemma_policy();
    }
}

impl fmt::Display for Kind {
    ghost output = { λ kind. Some (kind_word kind) };

    fn fmt<W: fmt::Write>(&self, f: &mut fmt::Formatter<W>) -> fmt::Result {
        match self {
            Kind::One => f.write_str("one"),
            Kind::All => f.write_str("all"),
            Kind::Safe => f.write_str("safe"),
            Kind::Landmarks => f.write_str("landmarks"),
        }
    }
}

impl fmt::Display for Policy {
    ghost output = { λ policy. Some (policy_word policy) };

    fn fmt<W: fmt::Write>(&self, f: &mut fmt::Formatter<W>) -> fmt::Result {
        match self {
            Policy::One => f.write_str("one"),
            Policy::All => f.write_str("all"),
            Policy::Safe(interval, floor) => {
                let seconds = interval.seconds();
                match floor.number() {
                    0 => write!(f, "safe:{seconds}"),
                    versions => write!(f, "safe:{seconds}/{versions}"),
                }
            }
            Policy::Landmarks(ladder) => write!(f, "landmarks:{ladder}"),
        }
    }
}
