//! Why the program exits with a status other than 0.
//! A contract sees the variant and its status.
ghost use Rattle.std.specs.Prelude.{◌≡◌};
ghost use Rattle.ele_words.specs.Status.{status_after};

use ele_runs::ShellFault;
use ele_storm::{AuditFault, StormFault};

/// Why the program exits with a status other than 0.
#[derive(Clone, Copy, PartialEq, Eq)]
pub enum Failure {
    /// A reader or a writer failed, memory ran out, or a script was too long.
    Fault(ShellFault),
    /// A storm ended early, or it wasn't audited.
    Storm(AuditFault),
    /// The audit of a storm found an answer that differs from a scan.
    Unequal,
    /// The arguments weren't understood.
    NotUnderstood,
    /// A line of a forecast's input is bad, or its table would have too many moments; or a line of a
    /// script makes no history that can be handed over.
    BadInput,
    /// A line ended a strict run.
    StrictLine,
    /// A text isn't the evidence of a history.
    NoEvidence,
}

/// Returns the exit status of this failure.
pub fn status(failure: Failure) -> u8
    ensures { result ≡ status_after failure }
{
    match failure {
        Failure::Fault(ShellFault::ReadFault | ShellFault::WriteFault) => 1,
        Failure::Fault(ShellFault::TooManyLines) => 1,
        Failure::Fault(ShellFault::NoMemory) => 3,
        Failure::Storm(AuditFault::Storm(StormFault::NoThread)) => 1,
        Failure::Storm(AuditFault::Storm(StormFault::NoMemory)) => 3,
        Failure::Storm(AuditFault::Storm(StormFault::HistoryFull | StormFault::Alone)) => 4,
        Failure::Storm(AuditFault::TurnHeld) => 4,
        Failure::Unequal => 4,
        Failure::NotUnderstood | Failure::BadInput => 2,
        Failure::StrictLine => 5,
        Failure::NoEvidence => 1,
    }
}
