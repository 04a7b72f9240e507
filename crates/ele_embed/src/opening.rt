//! Stores that are made of the bytes of their files.
//! A contract sees the bytes as a base and changes.
ghost use Rattle.std.specs.Prelude.{◌≡◌, ◌<◌, ◌≤◌, ◌++◌, List, ℕ, None, IfErr, IfOk, MatchResult, OnOk, is_some, length, false};
ghost use Rattle.ele_embed.specs.Embedding.{Journaled, Plain, Recorded, journal_in, opened};
ghost use Rattle.ele_keeper.specs.Kept.{state_of};
ghost use Rattle.ele_embed.specs.Replays.{IsCutFile, IsNotOpened, IsOpenedStore, IsNotBegunIn, IsStopped, IsWhole, after_changes, begun_state, unread};
ghost use Rattle.ele_history.specs.Past.{begun_from};
ghost use Rattle.ele_journal.specs.Journal.{IsBase, journal, start};
ghost use Rattle.ele_journaled.specs.Keeps.{AreGiven};
ghost use Rattle.ele_journaled.specs.JournalState.{idle};
ghost use Rattle.ele_model.specs.Start.{IsStart};
ghost use Rattle.ele_model.specs.World.{World};
ghost use Rattle.ele_model.specs.declared.event.Event.{Event};

use crate::Store;
use ele_core::{Core, FlatFault};
use ele_history::History;
use ele_journal::{Fault, RecoverError, Recovered, recover};
use ele_journaled::Journal;
use ele_keeper::{Keeper, replay};
use ele_model::{Flat, FromFlat, Stop};
use ele_well_formed::fault_of;
use std::alloc::Global;
use thiserror::Error;

/// Why no store was made of the bytes of a file.
#[derive(Clone, Copy, Debug, Error)]
pub enum OpenJournalError {
    /// The bytes end before the checkpoint does.
    #[error("the checkpoint is cut off")]
    Cut,
    /// The bytes don't begin as a journal does.
    #[error("not a journal")]
    Head,
    /// The bytes of the checkpoint are none. The place is counted from its first byte.
    #[error("the checkpoint is damaged: {0}")]
    Damaged(ele_checkpoint::Fault),
    /// No run may begin in the rows of the checkpoint, and this is their first fault.
    #[error("the checkpoint is of no world: {0}")]
    Fault(FlatFault),
    /// Memory was refused, or the limits of the checkpoint allow a history fewer entries.
    #[error("stop {0}")]
    Stop(Stop),
}

/// A store, and what the bytes of its file were.
#[derive(Drop)]
pub struct OpenedStore {
    pub store: Store,
    /// How many bytes keep the store. Those after them are to be cut off before others are added.
    pub whole: usize,
    /// What follows these bytes, if anything does.
    pub fault: Option<Fault>,
}

impl Store {
    /// Makes the store that the bytes of a file keep, up to the first change that is cut off or
    /// damaged, with its journal. With a history, that begins at the checkpoint, with one folded entry,
    /// and the events of the changes are its entries.
    ///
    /// `Cut` if the bytes end before the checkpoint does, `Head` if they don't begin as a journal,
    /// `Damaged` if the checkpoint is, and `Fault` if no run may begin in its rows. `Stop` for memory,
    /// or with `HistoryFull` if the limits allow fewer entries. Each error leaves nothing.
    /// Cost: that of reading the checkpoint and of a store of its rows, and of answering each event of
    /// the changes.
    #[tactic(auto, using(crate::proofs::Openings::why_unread, crate::proofs::Openings::stopped_unread, crate::proofs::Openings::stopped_cut, crate::proofs::Openings::short_unread, crate::proofs::Openings::why_not_begun, crate::proofs::Openings::stopped_begun, crate::proofs::Openings::is_opened_store, crate::proofs::Openings::is_whole, crate::proofs::Openings::is_cut_file))]
    pub fn open_journal(
        alloc: Global,
        bytes: &[u8],
        has_history: bool,
    ) -> Result<OpenedStore, OpenJournalError>
        // The first bytes are the file of the store.
        ensures found { IfOk result
            (λ opened. IsOpenedStore bytes.now has_history opened.store opened.whole opened.fault) }
        // Else the error says what is wrong with the bytes.
        ensures why { IfErr result (IsNotOpened bytes.now has_history) }
        // Of a whole journal it is the store of that file.
        ensures all { (base : World) (changes : List (List Event)) → IsStart base
            → AreGiven base changes → bytes.now ≡ journal base changes → MatchResult result
            (λ opened. IsWhole base changes has_history opened.store opened.whole opened.fault)
            (IsStopped has_history) }
        // Of a journal that was cut after its checkpoint it is the store of the changes that are
        // whole, and no more.
        ensures cut { (base : World) (changes : List (List Event)) (more : List ℕ) → IsStart base
            → AreGiven base changes → bytes.now ++ more ≡ journal base changes
            → length (start base) ≤ length bytes.now → MatchResult result
            (λ opened. IsCutFile base changes (length bytes.now) has_history opened.store
            opened.whole opened.fault)
            (IsStopped has_history) }
        // Of a journal that was cut before, there is none.
        ensures short { (base : World) (more : List ℕ) → IsBase base
            → bytes.now ++ more ≡ start base → length bytes.now < length (start base)
            → MatchResult result (λ opened. ⊥) (λ error. error ≡ OpenJournalError.Cut) }
    {
        let found = match recover(alloc, bytes) {
            Ok(found) => found,
            Err(error) => return Err(unread(error)),
        };
        let (whole, fault) = (found.whole, found.fault);
        match store_of(alloc, found, has_history) {
            Ok(store) => Ok(OpenedStore {
                store,
                whole,
                fault,
            }),
            Err(error) => Err(error),
        }
    }
}

// The error of bytes that nothing is recovered from.
fn unread(error: RecoverError) -> OpenJournalError
    ensures { result ≡ unread error }
{
    match error {
        RecoverError::NoMemory => OpenJournalError::Stop(Stop::NoMemory),
        RecoverError::Cut => OpenJournalError::Cut,
        RecoverError::Head => OpenJournalError::Head,
        RecoverError::Checkpoint(fault) => OpenJournalError::Damaged(fault),
    }
}

// The store of a base and of changes, with its journal.
#[tactic(auto, using(ele_keeper::proofs::Journaling::journal_with))]
fn store_of(alloc: Global, found: Recovered, has_history: bool) -> Result<Store, OpenJournalError>
    ensures store { IfOk result (λ store. store ≡ opened (Journaled
        (after_changes (begun_state has_history found.flat) found.changes) (idle found.check))) }
    ensures begins { OnOk result (IsStart found.flat) }
    ensures err { IfErr result (IsNotBegunIn found.flat has_history) }
{
    let Recovered {
        flat,
        changes,
        whole: _,
        check,
        fault: _,
    } = found;
    let mut keeper = keeper_of(alloc, flat, has_history)?;
    match replay(alloc, &mut keeper, changes.as_slice()) {
        Ok(()) => {}
        Err(stop) => return Err(OpenJournalError::Stop(stop)),
    }
    match Store::opened(alloc, keeper) {
        Ok(store) => Ok(with_journal(store, Journal::new(alloc, check))),
        Err(_) => Err(OpenJournalError::Stop(Stop::NoMemory)),
    }
}

// The store with the journal, if it has none.
#[tactic(auto, using(ele_keeper::proofs::Journaling::journal_with))]
fn with_journal(store: Store, journal: Journal) -> Store
    requires { is_some (journal_in store.state) ≡ false }
    ensures { result ≡ record store { state = Journaled store.state journal } }
{
    let mut store = store;
    store.keeper.journal = Some(journal);
    store
}

// What keeps the rows, if a run may begin in them, in a history or without one.
fn keeper_of(alloc: Global, flat: Flat, has_history: bool) -> Result<Keeper, OpenJournalError>
    ensures ok { IfOk result (λ keeper. state_of keeper ≡ begun_state has_history flat) }
    ensures begins { OnOk result (IsStart flat) }
    ensures err { IfErr result (IsNotBegunIn flat has_history) }
{
    match fault_of(&flat) {
        Ok(None) => {}
        Ok(Some(fault)) => return Err(OpenJournalError::Fault(fault)),
        Err(_) => return Err(OpenJournalError::Stop(Stop::NoMemory)),
    }
    let made = if has_history {
        recorded_keeper(alloc, flat)
    } else {
        plain_keeper(alloc, &flat)
    };
    match made {
        Ok(keeper) => Ok(keeper),
        Err(stop) => Err(OpenJournalError::Stop(stop)),
    }
}

// A core of these rows.
fn plain_keeper(alloc: Global, flat: &Flat) -> Result<Keeper, Stop>
    requires { IsStart flat.now }
    ensures ok { IfOk result (λ keeper. state_of keeper ≡ Plain flat.entry.now None) }
    ensures err { IfErr result (λ stop. stop ≡ Stop.NoMemory) }
{
    match <Core as FromFlat>::from_flat(alloc, flat) {
        Ok(core) => Ok(Keeper::Plain(core, None)),
        Err(_) => Err(Stop::NoMemory),
    }
}

// A history that begins in these rows.
fn recorded_keeper(alloc: Global, flat: Flat) -> Result<Keeper, Stop>
    requires { IsStart flat }
    ensures { IfOk result (λ keeper. state_of keeper ≡ Recorded (begun_from flat 1)) }
{
    match History::from_flat(alloc, flat, 1) {
        Ok(history) => Ok(Keeper::Recorded(history)),
        Err(stop) => Err(stop),
    }
}
