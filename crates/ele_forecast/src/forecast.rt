//! The forecast of one version. A contract sees it as plain data, beside the version's row and the
//! file that holds it.
ghost use Rattle.std.specs.Prelude.{◌≡◌, ◌≤◌, ℕ, ◌<◌, ◌+◌, ◌^◌, ◌++◌, ◌∷◌, List, [], Some, None, OnOk, slice_get, true, not};
ghost use Rattle.ele_lists.specs.Lists.{AllLater};
ghost use Rattle.ele_policy.specs.Cause.{IsCause};
ghost use Rattle.ele_policy.specs.Rule.{meets_floor};
ghost use Rattle.ele_policy.specs.RipeCase.{alone, case_of, ripe_by};
ghost use Rattle.ele_policy.specs.declared.cause.Newer.{Newer};
ghost use Rattle.ele_model.specs.FileView.{FileView};
ghost use Rattle.ele_model.specs.declared.rows.VersionRow.{VersionRow};
ghost use Rattle.ele_forecast.specs.Followed.{IsFollowed, StaysFor};
ghost use Rattle.ele_forecast.specs.StaysBehind.{goes};
ghost use Rattle.ele_forecast.specs.ForecastOf.{TellsOf};

use ele_moment::{Moment, NoMemory, VersionNo};
use ele_policy::{Cause, Newer, Policy, cause_of, ripe};

/// Why a version is due from a moment on, or why it never is.
#[derive(Clone, Copy, PartialEq, Eq)]
pub enum Why {
    /// It has no end.
    Current,
    /// Its policy keeps it beside these newer ones, however long ago it ended.
    Never,
    /// Its policy lets it go at an age that it reaches only after the last moment.
    AfterLast,
    /// Its policy lets it go from its ripe moment on.
    Goes(Cause),
}

/// A version of a file: when it closed and ended, and the moment from which it is due.
#[derive(Clone, Copy, PartialEq, Eq)]
pub struct Forecast {
    pub number: VersionNo,
    pub closed: Moment,
    pub ended: Option<Moment>,
    /// The first moment at which it is due, if there is one.
    pub ripe: Option<Moment>,
    pub why: Why,
}

// Why the policy lets a version go from its ripe moment on. The version ended as the next one
// closed, which has that number.
#[tactic(auto, using(crate::proofs::Followed::due_alone))]
fn cause(policy: &Policy, closed: Moment, ended: Moment, ripe: Moment, next: VersionNo) -> Cause
    requires { ripe_by policy.now closed (alone (Some ended)) ended ≡ Some ripe }
    ensures { (newer : List Newer)
        → slice_get newer 0 ≡ Some (record { number = next; closed = ended })
        → IsCause policy.now closed ended newer ripe result }
{
    policy.lemma_valid();
    let _within = ripe.seconds();
    let next = Newer {
        number: next,
        closed: ended,
    };
    cause_of(policy, closed, ended, Some(next), ripe)
}

// A forecast of these parts.
fn told(
    number: VersionNo,
    closed: Moment,
    ended: Option<Moment>,
    ripe: Option<Moment>,
    why: Why,
) -> Forecast
    ensures { result ≡ record {
      number = number;
      closed = closed;
      ended = ended;
      ripe = ripe;
      why = why;
    } }
{
    Forecast {
        number,
        closed,
        ended,
        ripe,
        why,
    }
}

/// Adds a forecast to others.
pub(crate) fn add(forecasts: &mut Vec<Forecast>, forecast: Forecast) -> Result<(), NoMemory>
    ensures { OnOk result (forecasts.new.items ≡ forecasts.old.items ++ forecast ∷ []) }
{
    // The borrow checker's proof of `push` wants a local of each type that a forecast holds.
    let _cause: Option<Cause> = None;
    let Forecast {
        number,
        closed,
        ended,
        ripe,
        why,
    } = forecast;
    forecasts.push(told(number, closed, ended, ripe, why))?;
    Ok(())
}

/// The forecast of a version without an end.
pub(crate) fn current(number: VersionNo, closed: Moment) -> Forecast
    ensures number { result.number ≡ number }
    ensures closed { result.closed ≡ closed }
    ensures ended { result.ended ≡ None }
    ensures tells { (v : FileView) (row : VersionRow) → row.closed ≡ closed → row.ended ≡ None
        → TellsOf v row result }
{
    told(number, closed, None, None, Why::Current)
}

// Whether so many newer versions meet the policy's floor, in a live file.
fn meets_floor(policy: &Policy, newer: usize) -> bool
    ensures { result ≡ meets_floor policy.now true newer }
{
    policy.floor().number() <= newer as u64
}

// Why a version without a ripe moment stays. A version that ended at the first moment reaches every
// age by the last one.
fn why_never(policy: &Policy, closed: Moment, next_closed: Moment, floor_met: bool) -> Why
    ensures { StaysFor (case_of policy.now closed (Some next_closed) floor_met) result }
{
    match ripe(policy, closed, Moment::START, Some(next_closed), floor_met) {
        Some(age) => {
            age.lemma_in_range();
            Why::AfterLast
        }
        None => Why::Never,
    }
}

/// The forecast of a version that ended as the next one closed. That one is the first of so many
/// newer ones.
pub(crate) fn followed(
    policy: &Policy,
    number: VersionNo,
    closed: Moment,
    ended: Moment,
    newer: usize,
) -> Forecast
    requires rises { closed ≤ ended }
    requires numbered { number + 1 < 2 ^ 64 }
    ensures number { result.number ≡ number }
    ensures closed { result.closed ≡ closed }
    ensures ended { result.ended ≡ Some ended }
    ensures tells { (v : FileView) (row next : VersionRow)
        → IsFollowed policy.now v row next newer → row.closed ≡ closed → next.closed ≡ ended
        → next.number ≡ number + 1 → TellsOf v row result }
{
    let floor_met = meets_floor(policy, newer);
    match ripe(policy, closed, ended, Some(ended), floor_met) {
        Some(moment) => {
            let cause = cause(policy, closed, ended, moment, number.after());
            told(number, closed, Some(ended), Some(moment), Why::Goes(cause))
        }
        None => {
            let why = why_never(policy, closed, ended, floor_met);
            told(number, closed, Some(ended), None, why)
        }
    }
}

/// Whether a version that closed then stays at the moment, with the newer ones that have closed by
/// then. It ended as the first of these closed.
pub(crate) fn stays(policy: &Policy, closed: Moment, newer: &[Moment], at: Moment) -> bool
    requires { AllLater ◌≤◌ (closed ∷ newer.now) }
    ensures { result ≡ not (goes policy.now at closed newer.now) }
{
    let now = at.seconds();
    let Some(ended) = newer.first() else {
        return true;
    };
    let floor_met = meets_floor(policy, newer.len());
    match ripe(policy, closed, *ended, Some(*ended), floor_met) {
        Some(moment) => moment.seconds() > now,
        None => true,
    }
}
