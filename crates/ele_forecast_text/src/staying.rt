//! Finds the versions that stay at some moments. A contract sees them as their numbers.
ghost use Rattle.std.specs.Prelude.{◌≢◌, [], IfOk, OnErr};
ghost use Rattle.ele_forecast_text.specs.Table.{AreStayings};

use ele_forecast::Closings;
use ele_moment::{Moment, NoMemory, VersionNo};
use ele_policy::Policy;
use std::alloc::Global;

/// The versions that stay at a moment.
#[derive(Drop)]
pub struct Staying {
    pub at: Moment,
    pub numbers: Vec<VersionNo>,
}

/// Returns the versions that stay, for each of the moments. `NoMemory` if memory is refused; without
/// moments it takes none.
pub fn staying_at(
    alloc: Global,
    policy: &Policy,
    closings: &Closings,
    moments: &[Moment],
) -> Result<Vec<Staying>, NoMemory>
    ensures ok { IfOk result
        (λ stayings. AreStayings policy.now closings.now moments.now stayings.items) }
    ensures err { OnErr result (moments.now ≢ []) }
{
    let mut stayings = Vec::new(alloc);
    for at in moments {
        let numbers = closings.staying(policy, *at)?;
        stayings.push(Staying { at: *at, numbers })?;
    }
    Ok(stayings)
}
