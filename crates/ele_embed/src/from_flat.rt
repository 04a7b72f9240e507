//! Stores that are made of rows. A contract sees the rows as a world.
ghost use Rattle.std.specs.Prelude.{◌≡◌, ◌≢◌, ◌<◌, None, IfErr, IfOk, OnOk};
ghost use Rattle.ele_embed.specs.Embedding.{Plain, Recorded, opened};
ghost use Rattle.ele_keeper.specs.Kept.{state_of};
ghost use Rattle.ele_history.specs.Past.{begun_from, counted_from};
ghost use Rattle.ele_model.specs.Start.{IsStart};
ghost use Rattle.ele_model.specs.declared.refusal.Stop.TheVariants.{HistoryFull, NoMemory};
ghost use Rattle.ele_well_formed.specs.Fault.{HasFault};

use crate::Store;
use ele_core::{Core, FlatFault, FromFlatError};
use ele_history::History;
use ele_keeper::Keeper;
use ele_model::{Flat, Stop};
use ele_well_formed::fault_of;
use std::alloc::Global;
use thiserror::Error;

/// Why no store was made of rows.
#[derive(Clone, Copy, Debug, PartialEq, Eq, Error)]
pub enum OpenError {
    /// The rows are no world, and this is their first fault.
    #[error("{0}")]
    Fault(FlatFault),
    /// Memory was refused, or the limits allow fewer entries than there were.
    #[error("stop {0}")]
    Stop(Stop),
}

impl Store {
    /// Makes a store without a history whose world these rows are.
    ///
    /// `Fault` if a run may not begin in them. `Stop` only for memory. Each error leaves nothing.
    pub fn plain_from_flat(alloc: Global, flat: &Flat) -> Result<Store, OpenError>
        ensures ok { IfOk result (λ store. store ≡ opened (Plain flat.entry.now None)) }
        ensures start { OnOk result (IsStart flat.entry.now) }
        ensures fault { IfErr result (λ error. (fault : FlatFault)
            → error ≡ OpenError.Fault fault → HasFault flat.entry.now fault) }
        ensures no_run { IfErr result (λ error. (fault : FlatFault)
            → error ≡ OpenError.Fault fault → IsStart flat.entry.now → ⊥) }
        ensures room { IfErr result (λ error. error ≢ OpenError.Stop HistoryFull) }
    {
        match Core::from_flat(alloc, flat) {
            Ok(core) => begun(alloc, Keeper::Plain(core, None)),
            Err(FromFlatError::Fault(fault)) => Err(OpenError::Fault(fault)),
            Err(FromFlatError::NoMemory) => Err(OpenError::Stop(Stop::NoMemory)),
        }
    }

    /// Makes a store whose world these rows are, with a history that begins in them. `folded` says
    /// how many entries led to them; fewer than one count as one.
    ///
    /// `Fault` if a run may not begin in them. `Stop` for memory, or with `HistoryFull` if the limits
    /// allow fewer entries than these. Each error leaves nothing.
    pub fn recorded_from_flat(alloc: Global, flat: Flat, folded: u64) -> Result<Store, OpenError>
        ensures ok { IfOk result (λ store. store ≡ opened (Recorded (begun_from flat folded))) }
        ensures start { OnOk result (IsStart flat) }
        ensures fault { IfErr result (λ error. (fault : FlatFault)
            → error ≡ OpenError.Fault fault → HasFault flat fault) }
        ensures no_run { IfErr result (λ error. (fault : FlatFault)
            → error ≡ OpenError.Fault fault → IsStart flat → ⊥) }
        ensures room { IfErr result (λ error. error ≡ OpenError.Stop HistoryFull
            → flat.limits.events < counted_from folded) }
    {
        match fault_of(&flat) {
            Ok(None) => {}
            Ok(Some(fault)) => return Err(OpenError::Fault(fault)),
            Err(_) => return Err(OpenError::Stop(Stop::NoMemory)),
        }
        match History::from_flat(alloc, flat, folded) {
            Ok(history) => begun(alloc, Keeper::Recorded(history)),
            Err(stop) => Err(OpenError::Stop(stop)),
        }
    }
}

// A store that has answered nothing.
fn begun(alloc: Global, keeper: Keeper) -> Result<Store, OpenError>
    ensures ok { IfOk result (λ store. store ≡ opened (state_of keeper)) }
    ensures err { IfErr result (λ error. error ≡ OpenError.Stop NoMemory) }
{
    match Store::opened(alloc, keeper) {
        Ok(store) => Ok(store),
        Err(_) => Err(OpenError::Stop(Stop::NoMemory)),
    }
}
