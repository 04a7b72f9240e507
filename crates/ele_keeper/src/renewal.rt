//! Worlds that get fresh numbers. A contract sees the world before and after.
ghost use Rattle.std.specs.Prelude.{◌≡◌, ◌≢◌, ◌<◌, None, IfErr, IfOk, OnOk};
ghost use Rattle.ele_history.specs.Past.{begun_from};
ghost use Rattle.ele_keeper.specs.Kept.{state_of};
ghost use Rattle.ele_keeper.specs.Renewal.{IsNotRenewed, renewed_state};
ghost use Rattle.ele_model.specs.Start.{IsStart};
ghost use Rattle.ele_model.specs.declared.refusal.Stop.TheVariants as stops;
ghost use Rattle.ele_renewal.specs.Renewed.{IsClosed, renewed};
ghost use Rattle.ele_runs.specs.Kept.{Plain, Recorded, world_in};

use crate::keeper::Keeper;
use ele_core::Core;
use ele_history::History;
use ele_model::{Flat, FromFlat, NoMemory, Stop};
use ele_renewal::{RenewError, renew};
use ele_world::laws;
use std::alloc::Global;
use thiserror::Error;

/// Why a store wasn't renewed. The store is as it was.
#[derive(Clone, Copy, Debug, PartialEq, Eq, Error)]
pub enum RenewalError {
    /// The store has a journal, whose file has the old numbers. Renew a store that is made of its
    /// checkpoint, and begin a journal of that one.
    #[error("the store has a journal")]
    HasJournal,
    /// A handle is open. Close all handles first.
    #[error("a handle is open")]
    Open,
    /// Memory was refused, or the limits allow no entry of a history.
    #[error("stop {0}")]
    Stop(Stop),
}

/// Returns all rows of the core. A run may begin in them.
///
/// `NoMemory` if memory is refused.
/// Cost: grows with all rows and bytes, which it copies.
pub fn rows_of(core: &Core) -> Result<Flat, NoMemory>
    ensures rows { IfOk result (λ flat. flat ≡ core.now.world) }
    ensures start { IsStart core.now.world }
{
    // For the proof: events led to the world, so a run may go on in it.
    let _reached = core.now();
    laws::start_stays();
    core.flat()
}

// All rows of the core with fresh numbers.
fn fresh_rows(alloc: Global, core: &Core) -> Result<Flat, RenewalError>
    ensures rows { IfOk result (λ fresh. fresh ≡ renewed core.now.world) }
    ensures start { OnOk result (IsStart (renewed core.now.world)) }
    ensures closed { OnOk result (IsClosed core.now.world) }
    ensures open { IfErr result (λ error. error ≡ RenewalError.Open
        → IsClosed core.now.world → ⊥) }
    ensures room { IfErr result (λ error. error ≢ RenewalError.Stop stops.HistoryFull) }
    ensures bare { IfErr result (λ error. error ≢ RenewalError.HasJournal) }
{
    // For the proof: a run may begin in the renewed world.
    ele_renewal::laws::renewed_is_start();
    let Ok(flat) = rows_of(core) else {
        return Err(RenewalError::Stop(Stop::NoMemory));
    };
    match renew(alloc, &flat) {
        Ok(fresh) => Ok(fresh),
        Err(RenewError::Open) => Err(RenewalError::Open),
        Err(RenewError::NoMemory) => Err(RenewalError::Stop(Stop::NoMemory)),
    }
}

/// Returns what keeps the renewed world, in a history that begins there or without one.
///
/// `Open` if a handle is open. `Stop` for memory, or with `HistoryFull` if the limits allow a history no
/// entry.
/// Cost: grows with the rows and cells times the logarithm of their number, and with the bytes.
#[tactic(auto, using(crate::proofs::Renewals::not_fresh, crate::proofs::Renewals::not_plain, crate::proofs::Renewals::not_recorded))]
pub fn renewed(alloc: Global, keeper: &Keeper) -> Result<Keeper, RenewalError>
    ensures ok { IfOk result (λ fresh. state_of fresh ≡ renewed_state (state_of keeper.now)) }
    ensures closed { OnOk result (IsClosed (world_in (state_of keeper.now))) }
    ensures err { IfErr result (IsNotRenewed (state_of keeper.now)) }
{
    let flat = match fresh_rows(alloc, keeper.core()) {
        Ok(flat) => flat,
        Err(error) => return Err(error),
    };
    match keeper {
        Keeper::Plain(..) => plain_keeper(alloc, &flat),
        Keeper::Recorded(_) => recorded_keeper(alloc, flat),
    }
}

// A core of these rows.
fn plain_keeper(alloc: Global, flat: &Flat) -> Result<Keeper, RenewalError>
    requires { IsStart flat.now }
    ensures ok { IfOk result (λ keeper. state_of keeper ≡ Plain flat.entry.now None) }
    ensures err { IfErr result (λ error. error ≡ RenewalError.Stop stops.NoMemory) }
{
    match <Core as FromFlat>::from_flat(alloc, flat) {
        Ok(core) => Ok(Keeper::Plain(core, None)),
        Err(_) => Err(RenewalError::Stop(Stop::NoMemory)),
    }
}

// A history that begins in these rows.
fn recorded_keeper(alloc: Global, flat: Flat) -> Result<Keeper, RenewalError>
    requires { IsStart flat }
    ensures ok { IfOk result (λ keeper. state_of keeper ≡ Recorded (begun_from flat 1)) }
    ensures err { IfErr result (λ error. error ≢ RenewalError.Open) }
    ensures bare { IfErr result (λ error. error ≢ RenewalError.HasJournal) }
    ensures room { IfErr result (λ error. error ≡ RenewalError.Stop stops.HistoryFull
        → flat.limits.events < 1) }
{
    match History::from_flat(alloc, flat, 1) {
        Ok(history) => Ok(Keeper::Recorded(history)),
        Err(stop) => Err(RenewalError::Stop(stop)),
    }
}
