//! A policy in force in a file, and what it sees of an ended version.
//! A contract sees both as plain data.
ghost use Rattle.std.specs.Prelude.{◌≡◌, ◌≤◌, ℕ, false, nat_le, IfSome, IfNone};
ghost use Rattle.ele_moment.specs.Last.{last_moment};
ghost use Rattle.ele_policy.specs.RipeCase.{rule_in, IsBeside, IsRipe, alone, ripe_by, ripe_case};
ghost use Rattle.ele_policy.specs.Ripe.{Beside, is_due_by};

use crate::policy::Policy;
use crate::ripening::ripe_beside;
use ele_moment::Moment;

/// A file's policy in force now.
#[derive(Clone, Copy, PartialEq, Eq)]
pub struct Rule {
    pub policy: Policy,
    /// How many newer versions the file must hold before one goes.
    pub newer: u64,
}

impl Policy {
    /// Returns the policy in force in a file: without a live name it has no floor.
    /// Cost: constant time.
    pub fn rule_in(self, is_live: bool) -> Rule
        ensures { result ≡ rule_in self is_live }
    {
        let newer = if is_live { self.floor().number() } else { 0 };
        Rule {
            policy: self,
            newer,
        }
    }
}

/// What the rule of a file sees of one of its ended versions.
#[derive(Clone, Copy, PartialEq, Eq)]
pub struct Case {
    pub policy: Policy,
    pub closed: Moment,
    /// When the next held version of the file closed, if there is one. That isn't before this
    /// version closed.
    pub next_closed: Option<Moment>,
    /// Whether the file holds enough newer versions.
    pub enough: bool,
}

impl Case {
    // The ripe moment if the file holds enough newer versions.
    fn ripe_with_enough(&self, ended: Moment) -> Option<Moment>
        ensures { result ≡ ripe_by self.now.policy self.now.closed (alone self.now.next_closed) ended }
    {
        match self.next_closed {
            Some(next) => ripe_beside(&self.policy, self.closed, ended, &[next], false),
            None => ripe_beside(&self.policy, self.closed, ended, &[], false),
        }
    }

    // Decides by the policy's kind: only `Safe` asks how many newer versions are held.
    fn ripe_if_enough(&self, ended: Moment) -> Option<Moment>
        ensures { result ≡ ripe_case self.now ended }
    {
        match self.policy {
            Policy::Safe(_, _) if !self.enough => None,
            _ => self.ripe_with_enough(ended),
        }
    }

    /// Returns the first moment at which the policy lets go a version of this case that ended at
    /// `ended`. Other newer versions don't change the answer. None if that would be past the last
    /// moment, or never.
    /// Cost: constant time; a ladder has at most eight pairs.
    #[tactic(auto, using(crate::proofs::Waits::is_ripe, crate::proofs::Waits::ripe_from, crate::proofs::Waits::ripe_never))]
    pub fn ripe(&self, ended: Moment) -> Option<Moment>
        ensures value { IsRipe self.now ended result }
        ensures near { result ≡ ripe_case self.now ended }
        ensures from_then { IfSome result
            (λ m. (beside : Beside) → IsBeside self.now beside
            → (at : ℕ) → is_due_by self.now.policy self.now.closed beside ended at ≡ nat_le m at) }
        ensures never { IfNone result
            ((beside : Beside) → IsBeside self.now beside → (at : ℕ) → at ≤ last_moment
            → is_due_by self.now.policy self.now.closed beside ended at ≡ false) }
    {
        self.policy.lemma_valid();
        self.ripe_if_enough(ended)
    }
}
