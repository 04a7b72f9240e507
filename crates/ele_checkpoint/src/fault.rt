//! What is wrong with bytes that are no checkpoint, and at which byte.
//! A contract sees plain data.
ghost use Rattle.std.specs.Prelude.{◌≡◌, length};
ghost use Rattle.ele_checkpoint.specs.Reading.{mistake};
ghost use Rattle.ele_checkpoint.specs.declared.fault.Stop.TheVariants.{Memory};
ghost use Rattle.ele_checkpoint.specs.declared.fault.Stop.TheVariants as stop;

use ele_moment::NoMemory;
use std::alloc::{AllocError, AllocFailed};
use thiserror::Error;

/// What is wrong with the bytes of a checkpoint.
#[derive(Clone, Copy, Debug, PartialEq, Eq, Error)]
pub enum Flaw {
    /// The bytes end within a value.
    #[error("the bytes end too early")]
    Short,
    /// A number has more bytes than it needs.
    #[error("a number is longer than it needs to be")]
    Padded,
    /// A number doesn't fit in 64 bits.
    #[error("a number is too large")]
    TooLarge,
    /// A byte that selects one of several forms selects none.
    #[error("a byte selects nothing")]
    Choice,
    /// A number of seconds is past the last moment.
    #[error("not a moment")]
    Moment,
    /// Bytes are not a name.
    #[error("not a name")]
    Name,
    /// Numbers are not those of a policy.
    #[error("not a policy")]
    Policy,
    /// A limit is above its largest.
    #[error("not limits")]
    Limits,
    /// A row keeps a cell of a row that has no cell in that slot, or keeps more cells than it has.
    #[error("a cell is kept that isn't there")]
    Kept,
    /// A row repeats the bytes of a cell that it could keep.
    #[error("a cell is repeated")]
    Repeated,
    /// Bytes follow the last value.
    #[error("bytes follow the last value")]
    Trailing,
    /// The bytes don't begin as a checkpoint does.
    #[error("not a checkpoint")]
    Magic,
    /// The form of the checkpoint has another version.
    #[error("a checkpoint of another version")]
    Version,
    /// The length at the end isn't that of the bytes.
    #[error("the length is wrong")]
    Length,
    /// The check sum at the end isn't that of the bytes.
    #[error("the check sum is wrong")]
    Sum,
}

/// The first flaw of bytes that are no checkpoint, and its place, in bytes from the start.
#[derive(Clone, Copy, Debug, PartialEq, Eq, Error)]
#[error("byte {place}: {flaw}")]
pub struct Fault {
    pub place: usize,
    pub flaw: Flaw,
}

/// Why a checkpoint wasn't read. Nothing is left of it.
#[derive(Clone, Copy, Debug, PartialEq, Eq, Error)]
pub enum ReadError {
    /// Memory for the rows was refused; the bytes may be a checkpoint.
    #[error("out of memory")]
    NoMemory,
    /// The bytes are no checkpoint.
    #[error("{0}")]
    Fault(Fault),
}

/// A flaw, and how many bytes there were from its place on.
#[derive(Clone, Copy)]
pub struct Mistake {
    pub left: usize,
    pub flaw: Flaw,
}

/// Why a value wasn't read.
#[derive(Clone, Copy)]
pub enum Stop {
    Memory,
    At(Mistake),
}

/// A flaw at the first of these bytes.
pub fn wrong(rest: &[u8], flaw: Flaw) -> Stop
    ensures { result ≡ stop.At (mistake (length rest.now) flaw) }
{
    Stop::At(Mistake {
        left: rest.len(),
        flaw,
    })
}

impl From<AllocError> for Stop {
    ghost from_gives = { λ _ made. made ≡ Memory };

    fn from(_refused: AllocError) -> Stop {
        Stop::Memory
    }
}

impl From<NoMemory> for Stop {
    ghost from_gives = { λ _ made. made ≡ Memory };

    fn from(_refused: NoMemory) -> Stop {
        Stop::Memory
    }
}

impl<T: Drop> From<AllocFailed<T>> for Stop {
    ghost from_gives = { λ _ made. made ≡ Memory };

    fn from(_refused: AllocFailed<T>) -> Stop {
        Stop::Memory
    }
}
