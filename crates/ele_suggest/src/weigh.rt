//! Weighs policies: which versions each keeps at a moment, and whether they are what is asked. A contract sees versions as plain
//! data, and kept ones as the list of their numbers.
ghost use Rattle.std.specs.Prelude.{IfOk};
ghost use Rattle.ele_suggest.specs.Suggested.{AreWeighed, IsWeighed};

use crate::asked::{Asked, bytes_of, keeps_asked};
use crate::version::Version;
use crate::weighed::Weighed;
use ele_forecast::Closings;
use ele_moment::{Moment, NoMemory};
use ele_policy::Policy;
use std::alloc::Global;

/// What each of the policies keeps at the moment, in their order.
pub(crate) fn weigh_all(
    alloc: Global,
    asked: &Asked,
    closings: &Closings,
    versions: &[Version],
    policies: &[Policy],
    at: Moment,
) -> Result<Vec<Weighed>, NoMemory>
    ensures { IfOk result (λ weighed. AreWeighed asked.now closings.now versions.now at policies.now weighed.items) }
{
    let mut weighed = Vec::new(alloc);
    for policy in policies {
        weighed.push(weigh(asked, closings, versions, policy, at)?)?;
    }
    Ok(weighed)
}

// What the policy keeps at the moment.
fn weigh(
    asked: &Asked,
    closings: &Closings,
    versions: &[Version],
    policy: &Policy,
    at: Moment,
) -> Result<Weighed, NoMemory>
    ensures { IfOk result (IsWeighed asked.now closings.now versions.now at policy.now) }
{
    let numbers = closings.staying(policy, at)?;
    let bytes = bytes_of(versions, numbers.as_slice());
    let keeps = keeps_asked(asked, at, versions, numbers.as_slice());
    Ok(Weighed {
        policy: *policy,
        numbers,
        bytes,
        keeps,
    })
}
