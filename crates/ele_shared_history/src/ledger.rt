//! The table that holds the shared history, its rule, and what its seats know.
use atomic_table::TableRule;
use ele_history::History;
use ele_model::{Entry, Flat, Step};
use std::alloc::Global;
use std::collections::LinkedList;
use std::marker::Model;
use std::snapshot::Snapshot;

/// An entry of the shared history, with the number of the seat that made it. Only contracts use it.
pub struct Call {
    pub by: u64,
    pub entry: Entry,
}

/// A history as plain data. Only contracts use it.
pub struct Opening {
    base: Flat,
    folded: u64,
    entries: LinkedList<Entry>,
}

impl Model for Opening {
    ghost use Rattle.ele_history.specs.Past.{Past};

    ghost Value = { Past };

    ghost view = { λ o. record { base = o.base; folded = o.folded; entries = o.entries } };
}

/// Some numbers, and the calls made under them. Only contracts use it.
pub struct Part {
    pub numbers: LinkedList<u64>,
    pub own: LinkedList<Call>,
}

/// What a seat knows. Only contracts use it.
pub struct View {
    /// The history at the start.
    pub opening: Opening,
    /// A prefix of the shared history.
    pub seen: LinkedList<Call>,
    /// Another prefix, which a seat that was joined to this one had seen.
    pub told: LinkedList<Call>,
    pub numbers: LinkedList<u64>,
    /// The calls made under these numbers.
    pub own: LinkedList<Call>,
    /// The seat's own numbers, and the numbers of seats made before it.
    pub known: LinkedList<u64>,
    /// Whether the seat has no number yet.
    pub fresh: bool,
    /// Whether the seat has the turn.
    pub holds: bool,
    /// Whether the seat was joined to another.
    pub spent: bool,
    /// The numbers and calls of the two seats that were joined last.
    pub left: Part,
    pub right: Part,
}

/// The rule: the word and the slot are those of one shared history.
pub struct OneHistory;

impl<C: Step> TableRule<Option<History<C>>, View, Snapshot<History<C>>> for OneHistory {
    ghost use Rattle.ele_shared_history.specs.Rule.{Kept, first_view};

    ghost holds = { λ key. Kept key.value };

    ghost first = { λ key. first_view key.value };
}

/// The part of the table that all threads share.
pub type Ledger<C> = atomic_table::Shared<
    Option<History<C>>,
    View,
    Snapshot<History<C>>,
    OneHistory,
>;

/// One word and one slot. The word is twice the number of published events, plus one while a call
/// has the turn. The slot holds the history while no call has the turn.
pub type Table<C> = atomic_table::Table<
    Option<History<C>>,
    View,
    Snapshot<History<C>>,
    OneHistory,
    Global,
>;

/// A seat's place at the table.
pub type Place<C> = atomic_table::Seat<Option<History<C>>, View>;
