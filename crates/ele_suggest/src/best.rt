//! The best of weighed policies: which of those that keep what is asked costs least. A contract sees them as a list.
ghost use Rattle.std.specs.Prelude.{◌≡◌, ◌+◌, ◌<◌, IfSome, length, slice_get, take, true};
ghost use Rattle.ele_suggest.specs.Best.{IsBest, IsBestOf};

use crate::weighed::{Weighed, costs_less};

/// The place of the best of those that keep what is asked, if one does.
pub(crate) fn best_of(weighed: &[Weighed]) -> Option<usize>
    ensures { IsBestOf weighed.now result }
{
    let mut best = None;
    for place in 0..weighed.len() {
        best = better(weighed, best, place);
    }
    best
}

// The place of the best of those up to the place, where the best before it is known.
fn better(weighed: &[Weighed], best: Option<usize>, place: usize) -> Option<usize>
    requires inside { place < length weighed.now }
    requires before { IsBestOf (take place weighed.now) best }
    ensures { IsBestOf (take (place + 1) weighed.now) result }
{
    let keeps = weighed[place].keeps;
    if !keeps {
        return best;
    }
    match best {
        Some(old) => Some(cheaper(weighed, old, place)),
        None => Some(place),
    }
}

// The better of two places, of which the first is the best of those before the second.
fn cheaper(weighed: &[Weighed], old: usize, place: usize) -> usize
    requires inside { place < length weighed.now }
    requires before { IsBest (take place weighed.now) old }
    requires keeps { IfSome (slice_get weighed.now place) (λ one. one.keeps ≡ true) }
    ensures { IsBest (take (place + 1) weighed.now) result }
{
    if costs_less(&weighed[place], &weighed[old]) {
        place
    } else {
        old
    }
}
