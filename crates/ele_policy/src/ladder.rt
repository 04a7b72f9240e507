//! Ladders: the older the versions, the fewer of them a file keeps.
//! A contract sees a ladder as the list of its pairs of an age and a width.
ghost use Rattle.std.specs.Prelude.{◌≡◌, ◌↔◌, ◌+◌, ◌<◌, ◌≤◌, ◌&&◌, ◌∷◌, [], IsOk, IfOk, Some, find, length, nat_eq, position};
ghost use Rattle.std.specs.Option.{option_map};
ghost use Rattle.std.specs.Cmp.{partial_equiv_from_equiv, and_equiv, on_equiv, nat_eq_equiv};
ghost use Rattle.std.specs.Cmp.Lexicographic.{pointwise, lists_equiv};
ghost use Rattle.ele_policy.specs.Ladder.{IsLadder, climbs, ground, is_above, level_of, rung_at, shares, span_of};
ghost use Rattle.ele_policy.specs.PolicyText.{ladder_word};
ghost use Rattle.ele_policy.specs.Wait.{has_newer};

use crate::interval::BadLadder;
use ele_moment::Moment;
use std::fmt;
use std::marker::Model;

/// One to eight pairs of an age and a width, in seconds. The ages rise from at least 1, each width
/// is at least 1 and divides the next, and no number exceeds 253402300799. From an age on, the
/// ladder keeps one version of each span of that pair's width. It is stored inline, so it takes no
/// memory of its own, and is displayed as its pairs, `A/W,A/W`.
#[derive(Clone, Copy)]
pub struct Ladder {
    rungs: [(u64, u64); Ladder::MOST_PAIRS],
    count: usize,
}

impl Model for Ladder {
    ghost use Rattle.std.specs.Prelude.{List, ℕ};

    ghost Value = { List (ℕ × ℕ) };

    ghost use Rattle.ele_policy.specs.Places.{rungs_of, fields_of, IsFilled, fields_of-rungs_of};

    ghost view = { rungs_of };

    ghost invariant = { IsFilled };

    ghost inverse = { fields_of };

    ghost inverse_ok = { fields_of-rungs_of };
}

// Whether the second rung may follow the first one.
fn is_above(low: (u64, u64), high: (u64, u64)) -> bool
    requires { 0 < low.1 }
    ensures { result ≡ is_above low high }
{
    let (low_age, low_width) = low;
    let (age, width) = high;
    low_age < age
        && age <= Ladder::LAST
        && 0 < width
        && width <= Ladder::LAST
        && width.is_multiple_of(low_width)
}

// Whether each rung may follow the one before it, and the first is a valid lowest one.
fn climbs(rungs: &[(u64, u64)]) -> bool
    ensures { result ≡ climbs ground rungs.now }
{
    let mut low = (0, 1);
    for rung in rungs {
        if !is_above(low, *rung) {
            return false;
        }
        low = *rung;
    }
    true
}

// The number of the rung's span that has the moment; no ladder has a width of 0.
fn span_of(rung: &(u64, u64), moment: Moment) -> u64
    ensures { result ≡ span_of rung.now moment }
{
    moment.seconds().checked_div(rung.1).unwrap_or(0)
}

// Whether both moments are in one span of the rung.
fn shares(rung: &(u64, u64), a: Moment, b: Moment) -> bool
    ensures { result ≡ shares a b rung.now }
{
    span_of(rung, a) == span_of(rung, b)
}

// Whether one of the newer closings is in the span of the closing.
fn has_newer(rung: &(u64, u64), closed: Moment, newer: &[Moment]) -> bool
    ensures { result ≡ has_newer closed newer.now rung.now }
{
    newer.iter().any(|other| shares(rung, closed, *other))
}

// The place of the lowest rung that has both moments in one span.
fn place_shared(rungs: &[(u64, u64)], a: Moment, b: Moment) -> Option<usize>
    ensures { result ≡ position (shares a b) rungs.now }
{
    rungs.iter().position(|rung| shares(rung, a, b))
}

impl Ladder {
    // The number of rungs of the longest ladder.
    const MOST_PAIRS: usize = 8;

    const LAST: u64 = 253402300799;

    /// Returns the ladder of these pairs of an age and a width, in seconds. `BadLadder` if they are
    /// no ladder.
    /// Cost: constant time; it looks at no more than eight pairs.
    pub fn new(pairs: &[(u64, u64)]) -> Result<Ladder, BadLadder>
        ensures valid { IsOk result ↔ IsLadder pairs.now }
        ensures value { IfOk result (λ ladder. ladder ≡ pairs.now) }
    {
        if pairs.is_empty() || pairs.len() > Ladder::MOST_PAIRS || !climbs(pairs) {
            return Err(BadLadder);
        }
        let mut rungs = [(0, 0); Ladder::MOST_PAIRS];
        rungs[..pairs.len()].copy_from_slice(pairs);
        Ok(Ladder {
            rungs,
            count: pairs.len(),
        })
    }

    /// Returns the standard ladder: one version an hour from a day on, one a day from a week on,
    /// and one a week from 30 days on.
    /// Cost: constant time.
    pub fn standard() -> Ladder
        ensures { result ≡ (86400, 3600) ∷ (604800, 86400) ∷ (2592000, 604800) ∷ [] }
    {
        let mut rungs = [(0, 0); Ladder::MOST_PAIRS];
        rungs[0] = (86400, 3600);
        rungs[1] = (604800, 86400);
        rungs[2] = (2592000, 604800);
        Ladder { rungs, count: 3 }
    }

    /// Returns the pairs of an age and a width, in seconds, lowest first.
    /// Cost: constant time.
    pub fn pairs(&self) -> &[(u64, u64)]
        ensures value { result.now ≡ self.now }
        ensures ladder { IsLadder self.now }
    {
        &self.rungs[..self.count]
    }

    /// Returns the level of an age in seconds: how many ages of the ladder it has reached.
    /// Cost: constant time; a ladder has at most eight pairs.
    pub fn level(&self, age: u64) -> usize
        ensures { result ≡ level_of self.now age }
    {
        self.pairs().iter().filter(|rung| rung.0 <= age).count()
    }

    /// Returns the number of the span of that level in which a version closed; the first level is
    /// 1.
    /// Cost: constant time.
    pub fn span(&self, level: usize, closed: Moment) -> u64
        requires first { 1 ≤ level }
        requires last { level ≤ length self.now }
        ensures { Some result ≡ option_map (λ rung. span_of rung closed) (rung_at self.now level) }
    {
        span_of(&self.pairs()[level - 1], closed)
    }

    /// Returns the lowest level, from 1 on, that has both moments in one span. None if no level
    /// has.
    /// Cost: constant time; a ladder has at most eight pairs.
    pub fn shared_level(&self, a: Moment, b: Moment) -> Option<usize>
        ensures { result ≡ option_map (λ place. place + 1) (position (shares a b) self.now) }
    {
        let place = place_shared(self.pairs(), a, b)?;
        Some(place + 1)
    }

    /// Returns the age of the lowest rung that has the closing and some newer closing in one span.
    pub(crate) fn shared_age(&self, closed: Moment, newer: &[Moment]) -> Option<u64>
        ensures { result
            ≡ option_map (λ rung. rung.0) (find (has_newer closed newer.now) self.now) }
    {
        let rung = self
            .pairs()
            .iter()
            .find(|rung| has_newer(rung, closed, newer))?;
        Some(rung.0)
    }
}

impl fmt::Display for Ladder {
    ghost output = { λ ladder. Some (ladder_word ladder) };

    fn fmt<W: fmt::Write>(&self, f: &mut fmt::Formatter<W>) -> fmt::Result {
        let Some(((age, width), rest)) = self.pairs().split_first() else {
            return Ok(());
        };
        write!(f, "{age}/{width}")?;
        for (age, width) in rest {
            write!(f, ",{age}/{width}")?;
        }
        Ok(())
    }
}

impl PartialEq for Ladder {
    ghost eq = { pointwise (λ x y. nat_eq x.0 y.0 && nat_eq x.1 y.1) };

    ghost laws = { partial_equiv_from_equiv (lists_equiv
        (and_equiv (on_equiv (λ t. t.0) nat_eq_equiv) (on_equiv (λ t. t.1) nat_eq_equiv))) };

    fn eq(&self, other: &Ladder) -> bool {
        self.pairs() == other.pairs()
    }
}

impl Eq for Ladder {
    ghost laws = { lists_equiv (and_equiv (on_equiv (λ t. t.0) nat_eq_equiv) (on_equiv (λ t. t.1) nat_eq_equiv)) };
}
