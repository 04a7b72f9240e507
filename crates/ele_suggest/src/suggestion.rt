//! Suggests a policy. A contract sees versions and policies as plain data, and what a policy keeps as its forecast tells it.
ghost use Rattle.std.specs.Prelude.{◌≡◌, IfOk};
ghost use Rattle.std.specs.Option.{option_copied};
ghost use Rattle.ele_suggest.specs.Suggested.{IsSuggestion, best_weighed};

use crate::asked::Asked;
use crate::best::best_of;
use crate::version::Version;
use crate::weigh::weigh_all;
use crate::weighed::Weighed;
use ele_forecast::Closings;
use ele_moment::{Moment, NoMemory};
use ele_policy::Policy;
use std::alloc::Global;

/// What each of some policies keeps, and which is the best.
#[derive(Drop)]
pub struct Suggestion {
    /// What each policy keeps, in the order in which they were given.
    pub weighed: Vec<Weighed>,
    /// The place of the policy that keeps what is asked and costs least, if one keeps it.
    pub best: Option<usize>,
}

impl Suggestion {
    /// Returns the best policy and what it keeps, if one of the policies keeps what is asked.
    pub fn best_weighed(&self) -> Option<&Weighed>
        ensures { option_copied result ≡ best_weighed self.now }
    {
        match self.best {
            Some(place) => self.weighed.get(place),
            None => None,
        }
    }
}

/// Returns what each of the policies keeps at the moment of a file with these closings, and which of those that keep what is
/// asked is the best: the one that keeps the fewest bytes, then the fewest versions, then the first. The versions are those
/// of `versions_of`. `NoMemory` if memory is refused.
/// Cost: for each policy what `Closings::staying` takes, and for each span one pass over the versions, if the kept ones of a
/// period are near each other.
pub fn suggest(
    alloc: Global,
    asked: &Asked,
    closings: &Closings,
    versions: &[Version],
    policies: &[Policy],
    at: Moment,
) -> Result<Suggestion, NoMemory>
    ensures { IfOk result (IsSuggestion asked.now closings.now versions.now policies.now at) }
{
    let weighed = weigh_all(alloc, asked, closings, versions, policies, at)?;
    let best = best_of(weighed.as_slice());
    Ok(Suggestion { weighed, best })
}
