//! What is wrong with a line. A contract sees each fault as itself.
ghost use Rattle.std.specs.Prelude.{◌≡◌};
ghost use Rattle.ele_printer.specs.LineFault.{fault_number, fault_name, fault_of_path, fault_of_path_at};
ghost use Rattle.ele_printer.specs.declared.fault.LineFault.TheVariants.{BadName, BadLadder, NoMemory};

use ele_path::{PathAtFault, PathFault};
use std::alloc::AllocError;
use thiserror::Error;

/// Why a line is not a command: the first fault of the line, or no memory to read it.
#[derive(Clone, Copy, Debug, PartialEq, Eq, Error)]
pub enum LineFault {
    /// A word is not a valid name.
    #[error("not a name")]
    BadName,
    /// A word is not a valid path: it has no slash at its start, an empty name, or more than 32
    /// names.
    #[error("not a path")]
    BadPath,
    /// A word is not a valid moment.
    #[error("not a moment")]
    BadMoment,
    /// The numbers of a policy are not those of a valid ladder or interval.
    #[error("not a ladder")]
    BadLadder,
    /// A bad byte, space, command or number of words, or a bad word with no other fault.
    #[error("not a command")]
    Syntax,
    /// The line has more than 8,192 bytes.
    #[error("line too long")]
    LineTooLong,
    /// There was no memory to read the line, which may be good or bad.
    #[error("no memory")]
    NoMemory,
}

impl LineFault {
    /// Returns the number that is printed for the fault.
    pub fn number(self) -> u8
        ensures { result ≡ fault_number self }
    {
        match self {
            LineFault::BadName => 28,
            LineFault::BadPath => 29,
            LineFault::BadMoment => 30,
            LineFault::BadLadder => 31,
            LineFault::Syntax => 32,
            LineFault::LineTooLong => 33,
            LineFault::NoMemory => 1,
        }
    }

    /// Returns the name that is printed for the fault.
    pub fn name(self) -> &'static str
        ensures { result.now ≡ fault_name self }
    {
        match self {
            LineFault::BadName => "BadName",
            LineFault::BadPath => "BadPath",
            LineFault::BadMoment => "BadMoment",
            LineFault::BadLadder => "BadLadder",
            LineFault::Syntax => "Syntax",
            LineFault::LineTooLong => "LineTooLong",
            LineFault::NoMemory => "NoMemory",
        }
    }
}

impl From<AllocError> for LineFault {
    ghost from_gives = { λ _ fault. fault ≡ NoMemory };

    fn from(_refused: AllocError) -> LineFault {
        LineFault::NoMemory
    }
}

impl From<ele_moment::NoMemory> for LineFault {
    ghost from_gives = { λ _ fault. fault ≡ NoMemory };

    fn from(_refused: ele_moment::NoMemory) -> LineFault {
        LineFault::NoMemory
    }
}

impl From<ele_moment::BadName> for LineFault {
    ghost from_gives = { λ _ fault. fault ≡ BadName };

    fn from(_refused: ele_moment::BadName) -> LineFault {
        LineFault::BadName
    }
}

impl From<ele_policy::BadLadder> for LineFault {
    ghost from_gives = { λ _ fault. fault ≡ BadLadder };

    fn from(_refused: ele_policy::BadLadder) -> LineFault {
        LineFault::BadLadder
    }
}

impl From<PathFault> for LineFault {
    ghost from_gives = { λ path fault. fault ≡ fault_of_path path };

    fn from(fault: PathFault) -> LineFault {
        match fault {
            PathFault::BadName => LineFault::BadName,
            PathFault::BadPath => LineFault::BadPath,
            PathFault::BadMoment => LineFault::BadMoment,
            PathFault::NoMemory => LineFault::NoMemory,
        }
    }
}

impl From<PathAtFault> for LineFault {
    ghost from_gives = { λ timed fault. fault ≡ fault_of_path_at timed };

    fn from(fault: PathAtFault) -> LineFault {
        match fault {
            PathAtFault::Path(fault) => LineFault::from(fault),
            PathAtFault::Numbered => LineFault::Syntax,
        }
    }
}
