//! Stores as bytes, and stores that are made of them. A contract sees the bytes of a world.
ghost use Rattle.std.specs.Prelude.{◌≡◌, ◌≤◌, true, false, IfErr, IfOk, OnErr, OnOk, vec_capacity};
ghost use Rattle.ele_checkpoint.specs.Checkpoint.{checkpoint};
ghost use Rattle.ele_checkpoint.specs.Fits.{IsFlat};
ghost use Rattle.ele_embed.specs.Checkpoints.{IsNotPutBack, PutsBack, begun_plain, begun_recorded, taken_out};
ghost use Rattle.ele_model.specs.World.{World};
ghost use Rattle.ele_output.specs.Outlet.{room};

use crate::Store;
use crate::from_flat::OpenError;
use ele_checkpoint::{Fault, ReadError, read, write};
use ele_core::{Core, FlatFault};
use ele_model::{Flat, NoMemory, Stop};
use ele_output::ROOM;
use std::alloc::Global;
use thiserror::Error;

/// Why no store was made of the bytes of a checkpoint.
#[derive(Clone, Copy, Debug, PartialEq, Eq, Error)]
pub enum CheckpointError {
    /// The bytes are no checkpoint, and this is their first fault.
    #[error("{0}")]
    Damaged(Fault),
    /// No run may begin in the rows of the checkpoint, and this is their first fault.
    #[error("{0}")]
    Fault(FlatFault),
    /// Memory was refused, or the limits of the checkpoint allow no entry of a history.
    #[error("stop {0}")]
    Stop(Stop),
}

impl Store {
    /// Makes the text the checkpoint of the store's world: the bytes that `plain_from_checkpoint` and
    /// `recorded_from_checkpoint` take. The world, the history and the last answer stay.
    ///
    /// `NoMemory` if memory is refused. Then the text stays too.
    /// Cost: grows with the rows and with the bytes of all versions and drafts; takes memory for a copy
    /// of them and for the text.
    pub fn checkpoint(&mut self) -> Result<(), NoMemory>
        ensures made { OnOk result (self.new ≡ taken_out self.old) }
        ensures none { OnErr result (self.new ≡ self.old) }
    {
        self.answer = bytes_of(self.alloc, self.keeper.core())?;
        Ok(())
    }

    /// Makes a store without a history whose world has these bytes as its checkpoint. Open handles and
    /// drafts are as they were.
    ///
    /// `Damaged` if the bytes are no checkpoint, `Fault` if a run may not begin in its world, `Stop` only
    /// for memory. Each error leaves nothing.
    /// Cost: grows with the rows and cells times the logarithm of their number, and with the bytes.
    #[tactic(auto, using(crate::proofs::Begins::puts_back, crate::proofs::Begins::have_none, crate::proofs::Begins::stopped))]
    pub fn plain_from_checkpoint(alloc: Global, bytes: &[u8]) -> Result<Store, CheckpointError>
        ensures ok { IfOk result (PutsBack bytes.now begun_plain) }
        ensures err { IfErr result (IsNotPutBack bytes.now false) }
    {
        let flat = flat_of(alloc, bytes)?;
        match Store::plain_from_flat(alloc, &flat) {
            Ok(store) => Ok(store),
            Err(OpenError::Fault(fault)) => Err(CheckpointError::Fault(fault)),
            Err(OpenError::Stop(stop)) => Err(CheckpointError::Stop(stop)),
        }
    }

    /// Makes a store whose world has these bytes as its checkpoint, with a history that begins there, with
    /// one folded entry. Open handles and drafts are as they were.
    ///
    /// `Damaged` if the bytes are no checkpoint, `Fault` if a run may not begin in its world. `Stop` for
    /// memory, or with `HistoryFull` if the world's limits allow no entry. Each error leaves nothing.
    /// Cost: that of `plain_from_checkpoint`; the rows stay as the history's base.
    #[tactic(auto, using(crate::proofs::Begins::puts_back, crate::proofs::Begins::have_none, crate::proofs::Begins::stopped))]
    pub fn recorded_from_checkpoint(alloc: Global, bytes: &[u8]) -> Result<Store, CheckpointError>
        ensures ok { IfOk result (PutsBack bytes.now begun_recorded) }
        ensures err { IfErr result (IsNotPutBack bytes.now true) }
    {
        let flat = flat_of(alloc, bytes)?;
        match Store::recorded_from_flat(alloc, flat, 1) {
            Ok(store) => Ok(store),
            Err(OpenError::Fault(fault)) => Err(CheckpointError::Fault(fault)),
            Err(OpenError::Stop(stop)) => Err(CheckpointError::Stop(stop)),
        }
    }
}

// The checkpoint of the core's world, in a list that has room for a short text.
fn bytes_of(alloc: Global, core: &Core) -> Result<Vec<u8>, NoMemory>
    ensures bytes { IfOk result (λ bytes. bytes.items ≡ checkpoint core.now.world) }
    ensures room { IfOk result (λ bytes. room ≤ vec_capacity bytes) }
{
    let flat = core.flat()?;
    let mut bytes = write(alloc, &flat)?;
    bytes.reserve(ROOM.saturating_sub(bytes.len()))?;
    Ok(bytes)
}

// The world of a checkpoint, whether a run may begin in it or not.
fn flat_of(alloc: Global, bytes: &[u8]) -> Result<Flat, CheckpointError>
    ensures found { IfOk result (λ flat. bytes.now ≡ checkpoint flat) }
    ensures only { IfOk result (λ flat. (w : World) → IsFlat w → bytes.now ≡ checkpoint w → flat ≡ w) }
    ensures plain { IfErr result (IsNotPutBack bytes.now false) }
    ensures recorded { IfErr result (IsNotPutBack bytes.now true) }
{
    match read(alloc, bytes) {
        Ok(flat) => Ok(flat),
        Err(ReadError::Fault(fault)) => Err(CheckpointError::Damaged(fault)),
        Err(ReadError::NoMemory) => Err(CheckpointError::Stop(Stop::NoMemory)),
    }
}
