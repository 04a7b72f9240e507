//! A thread's own handle on a shared history.
use crate::ledger::Place;
use ele_model::Step;
use std::marker::Model;

/// A thread's own handle on a shared history, for its calls. It takes no memory. A contract sees
/// its numbers, what it has seen of the shared history, and its own calls.
#[derive(Drop)]
pub struct Seat<C: Step> {
    pub(crate) place: Place<C>,
}

impl<C: Step> Model for Seat<C> {
    ghost use Rattle.ele_shared_history.specs.Knowledge.{Knowledge};
    ghost use Rattle.ele_shared_history.specs.Told.{knowledge};
    ghost use Rattle.ele_shared_history.specs.Steps.{IsIdle};

    ghost Value = { Knowledge };

    ghost view = { λ s. knowledge s.place.table_id s.place.me.0 };

    ghost invariant = { λ s. IsIdle s.place.me };
}
