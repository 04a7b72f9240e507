//! The kinds of step on the word, and what a seat learns from each.
use crate::ledger::View;
use atomic_table::{Join, Play, Split};
use ele_history::History;
use ele_model::Step;

/// A load.
pub struct Look;

impl<C: Step> Play<Option<History<C>>, View> for Look {
    ghost use Rattle.ele_shared_history.specs.Steps.{Looks};

    ghost then = { Looks };
}

/// An exchange of an even word for the next odd one.
pub struct Take;

impl<C: Step> Play<Option<History<C>>, View> for Take {
    ghost use Rattle.ele_shared_history.specs.Steps.{Takes};

    ghost then = { Takes };
}

/// An addition of one, by the call that has the turn, with its event in the history.
pub struct Publish;

impl<C: Step> Play<Option<History<C>>, View> for Publish {
    ghost use Rattle.ele_shared_history.specs.Steps.{Publishes};

    ghost then = { Publishes };
}

/// A subtraction of one, by the call that has the turn, with the history as it was.
pub struct GiveBack;

impl<C: Step> Play<Option<History<C>>, View> for GiveBack {
    ghost use Rattle.ele_shared_history.specs.Steps.{GivesBack};

    ghost then = { GivesBack };
}

/// A load, which gives a new seat its number.
pub struct Register;

impl<C: Step> Play<Option<History<C>>, View> for Register {
    ghost use Rattle.ele_shared_history.specs.Steps.{Registers};

    ghost then = { Registers };
}

/// A load after a join.
pub struct Meet;

impl<C: Step> Play<Option<History<C>>, View> for Meet {
    ghost use Rattle.ele_shared_history.specs.Steps.{Meets};

    ghost then = { Meets };
}

/// A new seat has seen what the old one has, and has no number yet.
pub struct Fork;

impl Split<View> for Fork {
    ghost use Rattle.ele_shared_history.specs.Rule.{newcomer};

    ghost left = { λ v. v };

    ghost right = { newcomer };
}

/// One seat has the numbers of both.
pub struct Unite;

impl Join<View> for Unite {
    ghost use Rattle.ele_shared_history.specs.Rule.{spent_view, united};

    ghost both = { united };

    ghost spent = { spent_view };
}
