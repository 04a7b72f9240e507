//! The bytes that the file of a journal gets.
//! A contract sees what keeps the world as the state of a store.
ghost use Rattle.std.specs.Prelude.{◌≡◌, IfErr, IfOk, OnErr, OnOk, is_some, true};
ghost use Rattle.ele_journal.specs.Journal.{start};
ghost use Rattle.ele_keeper.specs.Journals.{IsNotGiven, compacted_state, pended_state, pending_text};
ghost use Rattle.ele_keeper.specs.Kept.{journaled_state};
ghost use Rattle.ele_runs.specs.Kept.{world_in};

use crate::journaled::JournaledKeeper;
use std::alloc::Global;
use thiserror::Error;

/// Why a journal wasn't begun, or gave no bytes. The store is as it was.
#[derive(Clone, Copy, Debug, PartialEq, Eq, Error)]
pub enum JournalError {
    /// The store has no journal.
    #[error("the store has no journal")]
    NoJournal,
    /// The store has a journal already.
    #[error("the store has a journal")]
    HasJournal,
    /// Memory was refused.
    #[error("out of memory")]
    NoMemory,
}

/// Returns the bytes that the change under way adds to the file, as one change: none if no event is
/// under way.
///
/// `NoJournal` if there is none, `NoMemory` if memory is refused. Each error leaves all as it was.
/// Cost: grows with the bytes, which it copies.
#[tactic(auto, using(crate::proofs::Giving::none_given, crate::proofs::Giving::some_given, crate::proofs::Journaling::journal_with))]
pub fn pending_of(alloc: Global, keeper: &mut JournaledKeeper) -> Result<Vec<u8>, JournalError>
    ensures bytes { IfOk result (λ bytes. bytes.items ≡ pending_text (journaled_state keeper.old)) }
    ensures after { OnOk result (journaled_state keeper.new ≡ pended_state (journaled_state keeper.old)) }
    ensures journal { OnOk result (is_some keeper.old.journal ≡ true) }
    ensures err { IfErr result (IsNotGiven (journaled_state keeper.old)) }
    ensures unchanged { OnErr result (journaled_state keeper.new ≡ journaled_state keeper.old) }
{
    let Some(journal) = &mut keeper.journal else {
        return Err(JournalError::NoJournal);
    };
    match journal.pending() {
        Ok(Some(bytes)) => Ok(bytes),
        Ok(None) => Ok(Vec::new(alloc)),
        Err(_) => Err(JournalError::NoMemory),
    }
}

/// Returns the bytes of a new file: a checkpoint of the world as it is, with what the change under way
/// did.
///
/// `NoJournal` if there is none, `NoMemory` if memory is refused. Each error leaves all as it was.
/// Cost: that of a copy of all rows and bytes, and of their checkpoint.
#[tactic(auto, using(crate::proofs::Journaling::journal_with, crate::proofs::Journaling::world_with))]
pub fn compact_of(keeper: &mut JournaledKeeper) -> Result<Vec<u8>, JournalError>
    ensures bytes { IfOk result (λ bytes. bytes.items ≡ start (world_in (journaled_state keeper.old))) }
    ensures after { OnOk result (journaled_state keeper.new ≡ compacted_state (journaled_state keeper.old)) }
    ensures journal { OnOk result (is_some keeper.old.journal ≡ true) }
    ensures err { IfErr result (IsNotGiven (journaled_state keeper.old)) }
    ensures unchanged { OnErr result (journaled_state keeper.new ≡ journaled_state keeper.old) }
{
    let Some(journal) = &mut keeper.journal else {
        return Err(JournalError::NoJournal);
    };
    let Ok(flat) = keeper.bare.core().flat() else {
        return Err(JournalError::NoMemory);
    };
    match journal.compact(&flat) {
        Ok(bytes) => Ok(bytes),
        Err(_) => Err(JournalError::NoMemory),
    }
}
