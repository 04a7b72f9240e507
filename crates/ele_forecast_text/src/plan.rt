//! Plans: the fates of a file's versions under a policy. A contract sees a plan as itself.
ghost use Rattle.std.specs.Prelude.{◌≡◌, ◌≢◌, [], IfOk, OnErr};
ghost use Rattle.ele_forecast_text.specs.Plan.{ArePlans, IsPlanOf, versions_of};

use crate::staying::{Staying, staying_at};
use ele_forecast::{Closings, Forecast};
use ele_moment::{Moment, NoMemory};
use ele_policy::Policy;
use std::alloc::Global;

/// A policy, with the word by which it was given.
#[derive(Drop)]
pub struct AskedPolicy {
    pub word: Vec<u8>,
    pub policy: Policy,
}

/// The fates of a file's versions under a policy.
#[derive(Drop)]
pub struct Plan {
    /// The word by which the policy was given.
    pub word: Vec<u8>,
    pub policy: Policy,
    /// A forecast of each version.
    pub forecasts: Vec<Forecast>,
    /// The versions that stay, for each of some moments.
    pub stayings: Vec<Staying>,
}

/// Returns the versions of plans, as the first of them has them.
pub fn versions_of(plans: &[Plan]) -> &[Forecast]
    ensures { result.now ≡ versions_of plans.now }
{
    match plans.first() {
        Some(plan) => plan.forecasts.as_slice(),
        None => &[],
    }
}

// The plan of the versions with these closings under a policy, and of the versions that stay at these moments.
fn plan_of(
    alloc: Global,
    asked: &AskedPolicy,
    closings: &Closings,
    moments: &[Moment],
) -> Result<Plan, NoMemory>
    ensures { IfOk result (IsPlanOf asked.now closings.now moments.now) }
{
    let mut word = Vec::new(alloc);
    word.extend_from_slice(asked.word.as_slice())?;
    let Ok(forecasts) = closings.forecasts(&asked.policy) else {
        return Err(NoMemory);
    };
    let Ok(stayings) = staying_at(alloc, &asked.policy, closings, moments) else {
        return Err(NoMemory);
    };
    Ok(Plan {
        word,
        policy: asked.policy,
        forecasts,
        stayings,
    })
}

/// Returns the plan of these versions under each of the policies, in their order. `NoMemory` if memory
/// is refused; without policies it takes none.
pub fn plans_of(
    alloc: Global,
    policies: &[AskedPolicy],
    closings: &Closings,
    moments: &[Moment],
) -> Result<Vec<Plan>, NoMemory>
    ensures ok { IfOk result
        (λ plans. ArePlans policies.now closings.now moments.now plans.items) }
    ensures err { OnErr result (policies.now ≢ []) }
{
    let mut plans = Vec::new(alloc);
    for asked in policies {
        plans.push(plan_of(alloc, asked, closings, moments)?)?;
    }
    Ok(plans)
}
