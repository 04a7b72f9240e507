//! The versions of a file's closings. A contract sees closings and versions as lists.
ghost use Rattle.std.specs.Prelude.{◌≡◌, ◌+◌, ◌<◌, Some, IfOk, length, slice_get};
ghost use Rattle.ele_suggest.specs.Versions.{AreVersions, IsRow};

use crate::version::{Version, version_of};
use ele_forecast::Closings;
use ele_moment::NoMemory;
use ele_policy::Policy;
use ele_tool_words::Offset;
use std::alloc::Global;

/// Returns the versions of these closings, by a clock with that offset. A version without a size has 0 bytes. A clock
/// behind UTC shows the start of 1970 until it has passed, and a month past the year 9999 is that year's last. `NoMemory`
/// if memory is refused.
/// Cost: constant time for each closing.
pub fn versions_of(
    alloc: Global,
    closings: &Closings,
    clock: Offset,
    sizes: &[u64],
) -> Result<Vec<Version>, NoMemory>
    ensures { IfOk result (λ versions. AreVersions clock sizes.now closings.now versions.items) }
{
    closings.lemma_sorted();
    let mut versions = Vec::new(alloc);
    for place in 0..closings.len() {
        versions.push(version_at(closings, clock, sizes, place))?;
    }
    Ok(versions)
}

// The version of the closing at that place.
fn version_at(closings: &Closings, clock: Offset, sizes: &[u64], place: usize) -> Version
    requires { place < length closings.now }
    ensures number { result.number ≡ place + 1 }
    ensures closed { slice_get closings.now place ≡ Some result.closed }
    ensures row { IsRow clock sizes.now result }
{
    let forecast = closings.forecast(&Policy::All, place);
    version_of(forecast.number, forecast.closed, clock, sizes)
}
