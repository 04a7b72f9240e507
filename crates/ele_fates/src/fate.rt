//! The fate of a version that no mark holds.
ghost use Rattle.std.specs.Prelude.{◌≡◌, Some, option_and_then};
ghost use Rattle.std.specs.Option.{option_map};
ghost use Rattle.ele_fates.specs.Fate.{IsFreeFate, newer_of};
ghost use Rattle.ele_model.specs.Cover.{ripe_past};
ghost use Rattle.ele_model.specs.Fate.{level_reached};
ghost use Rattle.ele_policy.specs.RipeCase.{closing_of};

use ele_model::{Cover, Fate, Moment, Policy, VersionInfo};
use ele_policy::{Case, Newer, cause_of};

/// Returns the next held version as a newer one of its file.
pub fn newer_of(next: &Option<VersionInfo>) -> Option<Newer>
    ensures { result ≡ option_map newer_of next.now }
{
    match next {
        Some(info) => Some(Newer {
            number: info.number,
            closed: info.closed,
        }),
        None => None,
    }
}

// When the newer version closed.
fn closing_of(next: &Option<Newer>) -> Option<Moment>
    ensures { result ≡ closing_of next.now }
{
    match next {
        Some(newer) => Some(newer.closed),
        None => None,
    }
}

// The level that a version has reached at the moment `at`, by its end. None without a ladder.
fn level_reached(policy: &Policy, ended: Moment, at: Moment) -> Option<usize>
    ensures { result ≡ level_reached (Some policy.now) (Some ended) at }
{
    match policy {
        Policy::Landmarks(ladder) => {
            Some(ladder.level(at.seconds().saturating_sub(ended.seconds())))
        }
        _ => None,
    }
}

// The ripe moment, or the end of the cover if that is later.
fn ripe_past(cover: Cover, ripe: Option<Moment>) -> Option<Moment>
    ensures { result ≡ option_and_then (ripe_past cover) ripe }
{
    cover.ripe_past(ripe?)
}

/// Returns the fate by the policy, for a version that no mark holds any longer.
#[tactic(auto, using(crate::proofs::Words::nat_tests, crate::proofs::Due::due_alone))]
pub fn free_fate(
    cover: Cover,
    case: &Case,
    next: &Option<Newer>,
    ended: Moment,
    now: Moment,
) -> Fate
    requires { case.now.next_closed ≡ closing_of next.now }
    ensures { IsFreeFate cover case.now next.now ended now result }
{
    let policy = &case.policy;
    policy.lemma_valid();
    let until = ripe_past(cover, case.ripe(ended));
    if let Some(since) = until {
        if since <= now {
            since.lemma_in_range();
            let cause = cause_of(policy, case.closed, ended, *next, since);
            return Fate::Due { since, cause };
        }
    }
    let level = level_reached(policy, ended, now);
    Fate::Kept { until, level }
}
