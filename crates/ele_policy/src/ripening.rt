//! The moment at which a version becomes due.
//! A contract sees it as seconds, and says at which moments the policy lets the version go.
ghost use Rattle.std.specs.Prelude.{◌≡◌, ◌≤◌, ℕ, false, nat_le, IfSome, IfNone};
ghost use Rattle.std.specs.Option.{option_map_or};
ghost use Rattle.ele_moment.specs.Last.{last_moment};
ghost use Rattle.ele_policy.specs.Policy.{IsPolicy};
ghost use Rattle.ele_policy.specs.Ripe.{Beside, is_due_by};
ghost use Rattle.ele_policy.specs.RipeCase.{IsBeside, IsRipe, case_of, ripe_by, ripe_case};
ghost use Rattle.ele_policy.specs.Wait.{wait, ripe_after};

use crate::policy::Policy;
use crate::rule::Case;
use ele_moment::Moment;

// How many seconds after its end the policy lets go a version that closed at that moment.
fn wait(policy: &Policy, closed: Moment, newer: &[Moment], is_live: bool) -> Option<u64>
    ensures { result
        ≡ wait policy.now closed (record { newer = newer.now; live = is_live }) }
{
    match policy {
        Policy::One => Some(0),
        Policy::All => None,
        Policy::Safe(interval, floor) => {
            if is_live && (newer.len() as u64) < floor.number() {
                return None;
            }
            Some(interval.seconds())
        }
        Policy::Landmarks(ladder) => ladder.shared_age(closed, newer),
    }
}

// The moment that many seconds after the end.
fn ripe_after(
    policy: &Policy,
    closed: Moment,
    ended: Moment,
    newer: &[Moment],
    is_live: bool,
) -> Option<Moment>
    ensures value { result
        ≡ ripe_after policy.now closed ended (record { newer = newer.now; live = is_live }) }
    ensures given { IsPolicy policy.now }
{
    policy.lemma_valid();
    ended.plus(wait(policy, closed, newer, is_live)?)
}

/// Returns the first moment at which the policy lets the version go. `closed` and `ended` are the
/// version's moments; `newer` are the closings of the newer held versions of its file, in any
/// order. None if that would be past the last moment, or never. Only `Landmarks` looks at the
/// closings, and only `Safe` at how many they are.
/// Cost: constant time; under a ladder it grows with the newer versions, for each of at most eight
/// pairs.
pub fn ripe_beside(
    policy: &Policy,
    closed: Moment,
    ended: Moment,
    newer: &[Moment],
    is_live: bool,
) -> Option<Moment>
    ensures value { result
        ≡ ripe_by policy.now closed (record { newer = newer.now; live = is_live }) ended }
    ensures due { (at : ℕ) → at ≤ last_moment
        → is_due_by policy.now closed (record { newer = newer.now; live = is_live }) ended at
        ≡ option_map_or (λ m. nat_le m at) result false }
{
    ripe_after(policy, closed, ended, newer, is_live)
}

/// Returns the first moment at which the policy lets a version go, by the version's case. The case
/// is the closing of the next held version, if there is one, and whether the floor is met. That
/// closing isn't before the version's own. Other newer versions don't change the answer, and only
/// `Safe` looks at the floor.
/// Cost: constant time; a ladder has at most eight pairs.
pub fn ripe(
    policy: &Policy,
    closed: Moment,
    ended: Moment,
    next_closed: Option<Moment>,
    floor_met: bool,
) -> Option<Moment>
    ensures value { IsRipe (case_of policy.now closed next_closed floor_met) ended result }
    ensures near { result ≡ ripe_case (case_of policy.now closed next_closed floor_met) ended }
    ensures from_then { IfSome result (λ m. (beside : Beside)
        → IsBeside (case_of policy.now closed next_closed floor_met) beside
        → (at : ℕ) → is_due_by policy.now closed beside ended at ≡ nat_le m at) }
    ensures never { IfNone result ((beside : Beside)
        → IsBeside (case_of policy.now closed next_closed floor_met) beside
        → (at : ℕ) → at ≤ last_moment → is_due_by policy.now closed beside ended at ≡ false) }
{
    Case {
        policy: *policy,
        closed,
        next_closed,
        enough: floor_met,
    }
    .ripe(ended)
}
