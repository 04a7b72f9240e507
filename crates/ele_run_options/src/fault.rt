//! The faults that end a run before the end of its input.
//! A contract sees the variant, its number and its name.
ghost use Rattle.std.specs.Prelude.{◌≡◌};
ghost use Rattle.ele_run_options.specs.Fault.{number_of, name_of};
ghost use Rattle.ele_run_options.specs.declared.fault.ShellFault.TheVariants as shell;

use ele_moment::NoMemory;
use ele_output::WriteFault;
use thiserror::Error;

/// A fault that ended a run early. Its text is its number and its name, for example `34 ReadFault`.
#[derive(Clone, Copy, Debug, PartialEq, Eq, Error)]
#[error("{} {}", self.number(), self.name())]
pub enum ShellFault {
    /// The reader failed.
    ReadFault,
    /// The writer failed, or took no byte.
    WriteFault,
    /// The script has more than 1,000,000 lines or 8,589,934,592 bytes.
    TooManyLines,
    /// Memory for the start of the run was refused.
    NoMemory,
}

impl ShellFault {
    /// Returns the fault's number.
    pub fn number(self) -> u8
        ensures { result ≡ number_of self }
    {
        match self {
            ShellFault::NoMemory => 1,
            ShellFault::ReadFault => 34,
            ShellFault::WriteFault => 35,
            ShellFault::TooManyLines => 36,
        }
    }

    /// Returns the fault's name.
    pub fn name(self) -> &'static str
        ensures { result.now ≡ name_of self }
    {
        match self {
            ShellFault::NoMemory => "NoMemory",
            ShellFault::ReadFault => "ReadFault",
            ShellFault::WriteFault => "WriteFault",
            ShellFault::TooManyLines => "TooManyLines",
        }
    }
}

impl From<NoMemory> for ShellFault {
    ghost from_gives = { λ _ fault. fault ≡ shell.NoMemory };

    fn from(_refused: NoMemory) -> ShellFault {
        ShellFault::NoMemory
    }
}

impl From<WriteFault> for ShellFault {
    ghost from_gives = { λ _ fault. fault ≡ shell.WriteFault };

    fn from(_failed: WriteFault) -> ShellFault {
        ShellFault::WriteFault
    }
}
