//! Suggests a policy for a list. A contract sees closings, versions and policies as lists.
ghost use Rattle.std.specs.Prelude.{◌≡◌, IfOk};
ghost use Rattle.ele_suggest.specs.Listed.{IsSuggestedFor, last_closing, moment_of, second_after};

use crate::asked::Asked;
use crate::candidates::candidates_for;
use crate::suggestion::{Suggestion, suggest};
use crate::versions::versions_of;
use ele_forecast::Closings;
use ele_moment::{Moment, NoMemory};
use ele_policy::Policy;
use ele_tool_words::Offset;
use std::alloc::Global;

/// Returns what each of the candidates keeps of the versions of these closings, and the best of them. `clock` is the list's
/// clock, and `sizes` has the bytes of each version. Without a moment they are judged a second after the last closing, by
/// when each policy has let go of what it lets go at once. `NoMemory` if memory is refused.
/// Cost: that of `suggest`.
pub fn suggest_for(
    alloc: Global,
    asked: &Asked,
    closings: &Closings,
    clock: Offset,
    sizes: &[u64],
    at: Option<Moment>,
) -> Result<Suggestion, NoMemory>
    ensures { IfOk result (IsSuggestedFor asked.now clock sizes.now closings.now at) }
{
    let versions = versions_of(alloc, closings, clock, sizes)?;
    let policies = candidates_for(alloc, asked.spans.as_slice())?;
    let at = moment_of(at, closings);
    suggest(
        alloc,
        asked,
        closings,
        versions.as_slice(),
        policies.as_slice(),
        at,
    )
}

// The moment, or a second after the last closing if there is none.
fn moment_of(at: Option<Moment>, closings: &Closings) -> Moment
    ensures { result ≡ moment_of at closings.now }
{
    match at {
        Some(at) => at,
        None => second_after(last_closing(closings)),
    }
}

// A second later, or the last moment. By then each policy has let go of what it lets go at once.
fn second_after(moment: Moment) -> Moment
    ensures { result ≡ second_after moment }
{
    moment.lemma_in_range();
    moment.plus(1).unwrap_or(moment)
}

// The last closing, or the first moment if there is none.
fn last_closing(closings: &Closings) -> Moment
    ensures { result ≡ last_closing closings.now }
{
    if closings.len() == 0 {
        return Moment::START;
    }
    closings.forecast(&Policy::All, closings.len() - 1).closed
}
