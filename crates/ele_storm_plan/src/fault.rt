//! Why a storm ends early.
//! A contract sees the variant, its number and its name.
ghost use Rattle.std.specs.Prelude.{◌≡◌};
ghost use Rattle.ele_storm_plan.specs.Fault.{fault_of_stop, name_of, number_of};
ghost use Rattle.ele_storm_plan.specs.declared.fault.AuditFault.TheVariants as audited;
ghost use Rattle.ele_storm_plan.specs.declared.fault.StormFault.TheVariants as storm;

use ele_model::{NoMemory, Stop};
use thiserror::Error;

/// Why a storm, or one of its workers, ended early. The history keeps the events that were run.
#[derive(Clone, Copy, Debug, PartialEq, Eq, Error)]
pub enum StormFault {
    /// Memory was refused.
    #[error("no memory")]
    NoMemory,
    /// The history has as many events as its limits allow.
    #[error("the history is full")]
    HistoryFull,
    /// No thread could be made.
    #[error("no thread")]
    NoThread,
    /// A worker saw no other worker arrive.
    #[error("a worker was alone")]
    Alone,
}

impl From<NoMemory> for StormFault {
    ghost from_gives = { λ _ fault. fault ≡ storm.NoMemory };

    fn from(_refused: NoMemory) -> StormFault {
        StormFault::NoMemory
    }
}

impl From<Stop> for StormFault {
    ghost from_gives = { λ stop fault. fault ≡ fault_of_stop stop };

    fn from(stop: Stop) -> StormFault {
        match stop {
            Stop::NoMemory => StormFault::NoMemory,
            Stop::HistoryFull => StormFault::HistoryFull,
        }
    }
}

/// Why an audited storm ended early. Its text is its number and its name, as `40 Alone`.
#[derive(Clone, Copy, Debug, PartialEq, Eq, Error)]
#[error("{} {}", self.number(), self.name())]
pub enum AuditFault {
    /// The storm ended early.
    Storm(StormFault),
    /// A call took the turn and never gave it back.
    TurnHeld,
}

impl AuditFault {
    /// Returns the fault's number.
    pub fn number(self) -> u8
        ensures { result ≡ number_of self }
    {
        match self {
            AuditFault::Storm(StormFault::NoMemory) => 1,
            AuditFault::Storm(StormFault::HistoryFull) => 2,
            AuditFault::TurnHeld => 38,
            AuditFault::Storm(StormFault::NoThread) => 39,
            AuditFault::Storm(StormFault::Alone) => 40,
        }
    }

    /// Returns the fault's name.
    pub fn name(self) -> &'static str
        ensures { result.now ≡ name_of self }
    {
        match self {
            AuditFault::Storm(StormFault::NoMemory) => "NoMemory",
            AuditFault::Storm(StormFault::HistoryFull) => "HistoryFull",
            AuditFault::TurnHeld => "TurnHeld",
            AuditFault::Storm(StormFault::NoThread) => "NoThread",
            AuditFault::Storm(StormFault::Alone) => "Alone",
        }
    }
}

impl From<NoMemory> for AuditFault {
    ghost from_gives = { λ _ fault. fault ≡ audited.Storm storm.NoMemory };

    fn from(_refused: NoMemory) -> AuditFault {
        AuditFault::Storm(StormFault::NoMemory)
    }
}

impl From<StormFault> for AuditFault {
    ghost from_gives = { λ of fault. fault ≡ audited.Storm of };

    fn from(fault: StormFault) -> AuditFault {
        AuditFault::Storm(fault)
    }
}
