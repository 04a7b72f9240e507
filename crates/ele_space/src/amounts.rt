//! What each policy keeps as time goes on, and what its removals free. A contract sees it as the definitions tell it.
ghost use Rattle.std.specs.Prelude.{◌≡◌, ◌≢◌, [], IfOk, OnErr, map};
ghost use Rattle.std.specs.List.{AllZip};
ghost use Rattle.ele_space.specs.Amounts.{AreAmountsAt, IsAmount};

use ele_forecast::Closings;
use ele_forecast_forms::Counts;
use ele_forecast_text::{Plan, Staying, bytes_of, listed_at};
use ele_moment::{Moment, NoMemory};
use std::alloc::Global;

/// What stays at a moment, and what the removals up to then free.
#[derive(Clone, Copy, PartialEq, Eq)]
pub struct Amount {
    /// How many versions stay.
    pub count: usize,
    /// The bytes of these.
    pub bytes: u128,
    /// The bytes of the versions that are due then, which have all been removed after a pass.
    pub freed: u128,
}

/// The amounts at a moment, under each of some policies.
#[derive(Drop)]
pub struct Amounts {
    pub at: Moment,
    pub amounts: Vec<Amount>,
}

/// Returns the moments of counts, in their order. `NoMemory` if memory is refused; without counts it takes none.
pub fn moments_in(alloc: Global, rows: &[Counts]) -> Result<Vec<Moment>, NoMemory>
    ensures ok { IfOk result (λ moments. moments.items ≡ map (λ row. row.at) rows.now) }
    ensures err { OnErr result (rows.now ≢ []) }
{
    let mut moments = Vec::new(alloc);
    for row in rows {
        moments.push(row.at)?;
    }
    Ok(moments)
}

/// Returns the amounts under the policies of these plans at each of these moments, of versions of these sizes. Without
/// moments this takes no memory. A pass over the closings counts for one moment and one policy.
pub fn amounts_at(
    alloc: Global,
    moments: &[Moment],
    closings: &Closings,
    sizes: &[u64],
    plans: &[Plan],
) -> Result<Vec<Amounts>, NoMemory>
    ensures ok { IfOk result
        (λ rows. AreAmountsAt moments.now closings.now sizes.now plans.now rows.items) }
    ensures err { OnErr result (moments.now ≢ []) }
{
    let mut rows = Vec::new(alloc);
    for moment in moments {
        let at = *moment;
        let amounts = amounts_of(alloc, at, closings, sizes, plans)?;
        rows.push(Amounts { at, amounts })?;
    }
    Ok(rows)
}

// The amounts at that moment under each policy.
fn amounts_of(
    alloc: Global,
    at: Moment,
    closings: &Closings,
    sizes: &[u64],
    plans: &[Plan],
) -> Result<Vec<Amount>, NoMemory>
    ensures { IfOk result
        (λ amounts. AllZip (IsAmount closings.now sizes.now at) plans.now amounts.items) }
{
    let mut amounts = Vec::new(alloc);
    for plan in plans {
        amounts.push(amount_of(alloc, at, closings, sizes, plan)?)?;
    }
    Ok(amounts)
}

// The amount at that moment under the policy of a plan.
fn amount_of(
    alloc: Global,
    at: Moment,
    closings: &Closings,
    sizes: &[u64],
    plan: &Plan,
) -> Result<Amount, NoMemory>
    ensures { IfOk result (IsAmount closings.now sizes.now at plan.now) }
{
    let numbers = closings.staying(&plan.policy, at)?;
    let staying = Staying { at, numbers };
    let due = listed_at(alloc, false, plan.forecasts.as_slice(), &staying)?;
    let kept = staying.numbers.as_slice();
    Ok(Amount {
        count: kept.len(),
        bytes: bytes_of(sizes, kept),
        freed: bytes_of(sizes, due.as_slice()),
    })
}
