//! How long marks hold a version. A contract sees plain data.
ghost use Rattle.std.specs.Prelude.{◌≡◌};
ghost use Rattle.ele_model.specs.Cover.{cover_until, lasts, longer, ripe_past};

use ele_moment::Moment;

/// How long the marks that cover a version hold it.
#[derive(Clone, Copy, PartialEq, Eq)]
pub enum Cover {
    /// Not at all: no mark covers it.
    Free,
    /// Until that moment, the latest end of these marks, which may have passed.
    Until(Moment),
    /// Forever: one of these marks has no end.
    Always,
}

impl Cover {
    /// Returns how long a mark with that end, or without one, holds what it covers.
    /// Cost: constant time.
    pub fn until(end: Option<Moment>) -> Cover
        ensures { result ≡ cover_until end }
    {
        match end {
            Some(end) => Cover::Until(end),
            None => Cover::Always,
        }
    }

    /// Returns the longer of both.
    /// Cost: constant time.
    pub fn longer(self, other: Cover) -> Cover
        ensures { result ≡ longer self other }
    {
        match self {
            Cover::Free => other,
            Cover::Until(end) => match other {
                Cover::Free => Cover::Until(end),
                Cover::Until(other) => Cover::Until(end.max(other)),
                Cover::Always => Cover::Always,
            },
            Cover::Always => Cover::Always,
        }
    }

    /// Returns whether the marks still hold at the moment.
    /// Cost: constant time.
    pub fn lasts(self, at: Moment) -> bool
        ensures { result ≡ lasts self at }
    {
        match self {
            Cover::Free => false,
            Cover::Until(end) => at < end,
            Cover::Always => true,
        }
    }

    /// Returns when a version ripens if its policy lets it go from `ripe` on: then, or at the end
    /// of the cover if that is later. None for a cover without an end.
    /// Cost: constant time.
    pub fn ripe_past(self, ripe: Moment) -> Option<Moment>
        ensures { result ≡ ripe_past self ripe }
    {
        match self {
            Cover::Free => Some(ripe),
            Cover::Until(end) => {
                let later = end.max(ripe);
                later.lemma_in_range();
                Some(later)
            }
            Cover::Always => None,
        }
    }
}
