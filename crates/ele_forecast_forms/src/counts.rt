//! How many versions each policy keeps as time goes on. A contract sees it as the definitions tell it.
ghost use Rattle.std.specs.Prelude.{◌≡◌, ◌≢◌, ◌+◌, ◌*◌, ◌<◌, [], IfOk, OnErr};
ghost use Rattle.std.specs.List.{AllZip};
ghost use Rattle.ele_forecast_text.specs.Plan.{versions_of};
ghost use Rattle.ele_forecast_forms.specs.OverTime.{AreCountsAt, AreCountsEvery, IsKeptCount, count_between, count_every, is_too_long, last_change, moments_from};

use ele_forecast::Closings;
use ele_forecast_text::{Plan, last_of, versions_of};
use ele_moment::{Moment, NoMemory};
use std::alloc::Global;

/// A table over time has at most so many moments.
pub const MOST_MOMENTS: u64 = 400;

/// How many versions stay at a moment, under each of some policies.
#[derive(Drop)]
pub struct Counts {
    pub at: Moment,
    pub counts: Vec<usize>,
}

/// Whether there are more moments than a table over time has.
pub fn is_too_long(step: u64, plans: &[Plan]) -> bool
    ensures { result ≡ is_too_long step plans.now }
{
    MOST_MOMENTS < count_every(step, plans)
}

/// Returns how many versions stay under the policies of these plans at each moment from the first closing to the last
/// change, in steps of so many seconds. The plans are those of the closings. A pass over the closings counts for one
/// moment and one policy.
pub fn counts_every(
    alloc: Global,
    step: u64,
    closings: &Closings,
    plans: &[Plan],
) -> Result<Vec<Counts>, NoMemory>
    ensures ok { IfOk result (λ rows. AreCountsEvery step closings.now plans.now rows.items) }
    ensures err { OnErr result (versions_of plans.now ≢ []) }
{
    match versions_of(plans).first() {
        Some(told) => {
            let last = last_change(told.closed, plans);
            counts_between(alloc, step, told.closed, last, closings, plans)
        }
        None => Ok(Vec::new(alloc)),
    }
}

/// Returns how many versions stay under the policies of these plans at each of these moments. Without moments this takes
/// no memory. A pass over the closings counts for one moment and one policy.
pub fn counts_at_moments(
    alloc: Global,
    moments: &[Moment],
    closings: &Closings,
    plans: &[Plan],
) -> Result<Vec<Counts>, NoMemory>
    ensures ok { IfOk result (λ rows. AreCountsAt moments.now closings.now plans.now rows.items) }
    ensures err { OnErr result (moments.now ≢ []) }
{
    let mut rows = Vec::new(alloc);
    for moment in moments {
        let at = *moment;
        let counts = counts_at(alloc, at, closings, plans)?;
        rows.push(Counts { at, counts })?;
    }
    Ok(rows)
}

// How many moments there are.
fn count_every(step: u64, plans: &[Plan]) -> u64
    ensures { result ≡ count_every step plans.now }
{
    match versions_of(plans).first() {
        Some(told) => count_between(step, told.closed, last_change(told.closed, plans)),
        None => 0,
    }
}

// How many versions stay at each moment between these two.
fn counts_between(
    alloc: Global,
    step: u64,
    first: Moment,
    last: Moment,
    closings: &Closings,
    plans: &[Plan],
) -> Result<Vec<Counts>, NoMemory>
    ensures { IfOk result (λ rows. AreCountsAt
        (moments_from step first (count_between step first last)) closings.now plans.now rows.items) }
{
    let moments = moments_between(alloc, step, first, last)?;
    counts_at_moments(alloc, moments.as_slice(), closings, plans)
}

// The moments between these two, in steps of so many seconds.
fn moments_between(
    alloc: Global,
    step: u64,
    first: Moment,
    last: Moment,
) -> Result<Vec<Moment>, NoMemory>
    ensures { IfOk result
        (λ moments. moments.items ≡ moments_from step first (count_between step first last)) }
{
    let mut moments = Vec::new(alloc);
    for k in 0..count_between(step, first, last) {
        moments.push(moment_at(step, first, last, k))?;
    }
    Ok(moments)
}

// So many steps behind the first moment.
fn moment_at(step: u64, first: Moment, last: Moment, k: u64) -> Moment
    requires { k < count_between step first last }
    ensures { result ≡ first + step * k }
{
    last.lemma_in_range();
    match first.plus(step * k) {
        Some(moment) => moment,
        None => last,
    }
}

// How many moments there are between these two.
fn count_between(step: u64, first: Moment, last: Moment) -> u64
    ensures { result ≡ count_between step first last }
{
    let span = last.seconds().saturating_sub(first.seconds());
    span.checked_div(step).unwrap_or(0) + 1
}

// How many versions stay at that moment under each policy.
fn counts_at(
    alloc: Global,
    at: Moment,
    closings: &Closings,
    plans: &[Plan],
) -> Result<Vec<usize>, NoMemory>
    ensures { IfOk result (λ counts. AllZip (IsKeptCount closings.now at) plans.now counts.items) }
{
    let mut counts = Vec::new(alloc);
    for plan in plans {
        counts.push(count_at(at, closings, plan)?)?;
    }
    Ok(counts)
}

// How many versions stay at that moment under the policy of a plan.
fn count_at(at: Moment, closings: &Closings, plan: &Plan) -> Result<usize, NoMemory>
    ensures { IfOk result (IsKeptCount closings.now at plan.now) }
{
    let numbers = closings.staying(&plan.policy, at)?;
    Ok(numbers.len())
}

// The last moment at which something changes under one of the policies.
fn last_change(first: Moment, plans: &[Plan]) -> Moment
    ensures { result ≡ last_change first plans.now }
{
    let mut last = first;
    for plan in plans {
        last = last_of(last, plan.forecasts.as_slice());
    }
    last
}
