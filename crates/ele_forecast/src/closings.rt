//! The moments at which a file closed. A contract sees them as a list in rising order.
ghost use Rattle.std.specs.Prelude.{◌≡◌, ◌≤◌, ◌<◌, ◌+◌, ◌-◌, ◌++◌, ◌∷◌, ◌^◌, ◌↔◌, [], ℕ, false, IsTrue, ◌≢◌, OnOk, OnErr, IfOk, IfErr, IfSome, IsSome, Some, None, length, slice_get};
ghost use Rattle.std.specs.List.{AllByRecursion};
ghost use Rattle.ele_lists.specs.Lists.{AllLater};
ghost use Rattle.ele_model.specs.FileView.{FileView};
ghost use Rattle.ele_forecast.specs.FileOf.{IsFileOf};
ghost use Rattle.ele_forecast.specs.Stays.{AreKept, come_by};
ghost use Rattle.ele_forecast.specs.ForecastOf.{AreForecasts, IsForecastOf};

use crate::forecast::{Forecast, add, current, followed, stays};
use ele_moment::{Moment, NoMemory, VersionNo};
use ele_policy::Policy;
use std::alloc::Global;
use std::marker::Model;
use thiserror::Error;

/// Why a closing wasn't added.
#[derive(Clone, Copy, Debug, PartialEq, Eq, Error)]
pub enum NotClosed {
    /// It is before the last closing.
    #[error("before the closing ahead of it")]
    OutOfOrder,
    /// Memory for it was refused.
    #[error("out of memory")]
    NoMemory,
}

/// The moments at which a file closed, in order: version 1 closed at the first. Several may be one
/// moment.
#[derive(Drop)]
pub struct Closings {
    moments: Vec<Moment>,
}

impl Model for Closings {
    ghost use Rattle.std.specs.Prelude.{List, ℕ, ◌≤◌};
    ghost use Rattle.ele_lists.specs.Lists.{AllLater};

    ghost Value = { List ℕ };

    ghost view = { λ closings. closings.moments.items };

    ghost invariant = { λ closings. AllLater ◌≤◌ closings.moments.items };
}

impl Closings {
    /// Makes an empty list. It takes no memory.
    pub fn new(alloc: Global) -> Closings
        ensures { result ≡ [] }
    {
        Closings {
            moments: Vec::new(alloc),
        }
    }

    /// Adds a closing. An error leaves the list as it was:
    /// - OutOfOrder: the closing is before the last one.
    /// - NoMemory: memory for it was refused.
    pub fn push(&mut self, closed: Moment) -> Result<(), NotClosed>
        ensures ok { OnOk result (self.new ≡ self.old ++ closed ∷ []) }
        ensures rises { OnOk result (AllByRecursion (λ other. other ≤ closed) self.old) }
        ensures err { OnErr result (self.new ≡ self.old) }
        ensures falls { IfErr result (λ why. why ≡ NotClosed.OutOfOrder
            → IfSome (slice_get self.old (length self.old - 1)) (λ last. closed < last)) }
        ensures memory { IfErr result (λ why. why ≡ NotClosed.NoMemory
            → AllByRecursion (λ other. other ≤ closed) self.old) }
    {
        if self.is_before_last(closed) {
            return Err(NotClosed::OutOfOrder);
        }
        match self.moments.push(closed) {
            Ok(()) => Ok(()),
            Err(_) => Err(NotClosed::NoMemory),
        }
    }

    // Whether the moment is before the last closing.
    fn is_before_last(&self, moment: Moment) -> bool
        ensures before { IsTrue result
            → IfSome (slice_get self.now (length self.now - 1)) (λ last. moment < last) }
        ensures behind { result ≡ false → AllByRecursion (λ closed. closed ≤ moment) self.now }
    {
        match self.moments.last() {
            Some(last) => moment.seconds() < last.seconds(),
            None => false,
        }
    }

    /// Returns the number of closings.
    pub fn len(&self) -> usize
        ensures { result ≡ length self.now }
    {
        self.moments.len()
    }

    /// Returns the forecast of the version that the closing at this place made; the first place is
    /// 0.
    pub fn forecast(&self, policy: &Policy, place: usize) -> Forecast
        requires { place < length self.now }
        ensures number { result.number ≡ place + 1 }
        ensures closed { Some result.closed ≡ slice_get self.now place }
        ensures ended { result.ended ≡ slice_get self.now (place + 1) }
        ensures tells { (v : FileView) → IsFileOf policy.now self.now v → IsForecastOf v result }
    {
        self.lemma_sorted();
        let number = VersionNo(place as u64 + 1);
        let closed = self.at(place);
        match self.next(place) {
            Some(ended) => followed(policy, number, closed, ended, self.len() - place - 1),
            None => current(number, closed),
        }
    }

    /// Returns the forecast of each version, in order. Without closings this takes no memory.
    pub fn forecasts(&self, policy: &Policy) -> Result<Vec<Forecast>, NoMemory>
        ensures ok { IfOk result
            (λ forecasts. AreForecasts policy.now self.now forecasts.items) }
        ensures err { OnErr result (self.now ≢ []) }
    {
        let mut forecasts = Vec::new(*self.moments.allocator());
        forecasts.reserve_exact(self.len())?;
        for place in 0..self.len() {
            add(&mut forecasts, self.forecast(policy, place))?;
        }
        Ok(forecasts)
    }

    /// Brings a proof the facts that the closings are in order, and that 64 bits can number them
    /// and one more.
    pub fn lemma_sorted(&self)
        ensures rises { AllLater ◌≤◌ self.now }
        ensures few { length self.now + 1 < 2 ^ 64 }
    {
        self.moments.len();
    }

    /// Returns the numbers of the versions that stay at the moment: they have closed by then and
    /// are not due. A finished pass at that moment leaves them, whatever was cleaned before.
    pub fn staying(&self, policy: &Policy, at: Moment) -> Result<Vec<VersionNo>, NoMemory>
        ensures { IfOk result (λ numbers. AreKept policy.now self.now at numbers.items) }
    {
        let mut numbers = Vec::new(*self.moments.allocator());
        let come = self.come_by(at);
        for place in 0..come.len() {
            if stays(policy, come[place], &come[place + 1..], at) {
                numbers.push(VersionNo(place as u64 + 1))?;
            }
        }
        Ok(numbers)
    }

    // The closings up to the moment, which are the first ones.
    fn come_by(&self, at: Moment) -> &[Moment]
        ensures come { result.now ≡ come_by at self.now }
        ensures rise { AllLater ◌≤◌ result.now }
    {
        self.lemma_sorted();
        &self.moments[..self.count_by(at)]
    }

    // How many closings are up to the moment.
    fn count_by(&self, at: Moment) -> usize
        ensures { result ≡ length (come_by at self.now) }
    {
        let now = at.seconds();
        self.moments
            .iter()
            .filter(|closed| closed.seconds() <= now)
            .count()
    }

    // The closing at that place.
    fn at(&self, place: usize) -> Moment
        requires { place < length self.now }
        ensures { slice_get self.now place ≡ Some result }
    {
        self.moments[place]
    }

    // The closing after the one at that place, if there is one.
    fn next(&self, place: usize) -> Option<Moment>
        requires { place < length self.now }
        ensures { result ≡ slice_get self.now (place + 1) }
    {
        self.moments.get(place + 1).copied()
    }
}
