//! A core made of rows. A contract sees both as a flat world.
ghost use Rattle.std.specs.Prelude.{◌≡◌, IfErr, IfOk, OnOk};
ghost use Rattle.ele_model.specs.Start.{IsStart};
ghost use Rattle.ele_well_formed.specs.Fault.{HasFault};

use crate::Core;
use ele_model::{Flat, FromFlat, NoMemory};
use ele_state::State;
use ele_well_formed::{FlatFault, fault_of};
use std::alloc::Global;
use thiserror::Error;

/// Why no core was made of rows.
#[derive(Clone, Copy, Debug, PartialEq, Eq, Error)]
pub enum FromFlatError {
    /// The rows are no world, and this is their first fault.
    #[error("{0}")]
    Fault(FlatFault),
    /// Memory is refused.
    #[error("memory is refused")]
    NoMemory,
}

impl Core {
    /// Makes the core whose world these rows are, with the queue, the indexes and the sums made from
    /// them. Slots that one version wrote in one file are one block again.
    ///
    /// `Fault` if a run may not begin in them, with the first fault in the order of `FlatFault`.
    /// `NoMemory` if memory is refused. Each error leaves nothing.
    /// Cost: grows with the rows and cells times the logarithm of their number, and with the bytes.
    pub fn from_flat(alloc: Global, flat: &Flat) -> Result<Core, FromFlatError>
        ensures ok { IfOk result (λ core. core ≡ record { world = flat.entry.now; rows_read = 0 }) }
        ensures start { OnOk result (IsStart flat.entry.now) }
        ensures fault { IfErr result (λ error. (fault : FlatFault)
            → error ≡ FromFlatError.Fault fault → HasFault flat.entry.now fault) }
        ensures no_run { IfErr result (λ error. (fault : FlatFault)
            → error ≡ FromFlatError.Fault fault → IsStart flat.entry.now → ⊥) }
    {
        match fault_of(flat) {
            Ok(None) => {}
            Ok(Some(fault)) => return Err(FromFlatError::Fault(fault)),
            Err(_) => return Err(FromFlatError::NoMemory),
        }
        match State::from_flat(alloc, flat) {
            Ok(state) => Ok(Core { state }),
            Err(_) => Err(FromFlatError::NoMemory),
        }
    }
}

impl FromFlat for Core {
    fn from_flat(alloc: Global, flat: &Flat) -> Result<Core, NoMemory> {
        let state = State::from_flat(alloc, flat)?;
        Ok(Core { state })
    }
}
