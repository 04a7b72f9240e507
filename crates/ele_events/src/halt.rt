//! Why an event failed.
//! A contract sees the variants.
ghost use Rattle.std.specs.Prelude.{◌≡◌, OnOk, IfErr, OnErr, Some, true, false};
ghost use Rattle.ele_events.specs.HaltText.{halt_text};

use ele_model::{NoMemory, Refusal, Stop};
use std::error::Error;
use std::fmt;

/// Why an event failed. The world is as it was. It is displayed as scripts print it after `no` or
/// `stop`: `8 Exists`, `1 NoMemory`.
#[derive(Clone, Copy, Debug, PartialEq, Eq)]
pub enum Halt {
    /// The world refuses the event.
    Refused(Refusal),
    /// Memory was refused. The world itself wouldn't refuse the event.
    NoMemory,
}

impl From<Refusal> for Halt {
    ghost use Rattle.std.specs.Prelude.{◌≡◌};
    ghost use Rattle.ele_events.specs.declared.halt.Halt.TheVariants as halt;

    ghost from_gives = { λ refusal made. made ≡ halt.Refused refusal };

    fn from(refusal: Refusal) -> Halt {
        Halt::Refused(refusal)
    }
}

impl From<NoMemory> for Halt {
    ghost use Rattle.std.specs.Prelude.{◌≡◌};
    ghost use Rattle.ele_events.specs.declared.halt.Halt.TheVariants as halt;

    ghost from_gives = { λ _ made. made ≡ halt.NoMemory };

    fn from(_refused: NoMemory) -> Halt {
        Halt::NoMemory
    }
}

impl fmt::Display for Halt {
    ghost output = { λ halt. Some (halt_text halt) };

    fn fmt<W: fmt::Write>(&self, f: &mut fmt::Formatter<W>) -> fmt::Result {
        match self {
            Halt::Refused(refusal) => write!(f, "{refusal}"),
            Halt::NoMemory => {
                let stop = Stop::NoMemory;
                write!(f, "{stop}")
            }
        }
    }
}

impl Error for Halt {}

// Refuses if the test holds.
pub(crate) fn refuse_if(test: bool, refusal: Refusal) -> Result<(), Refusal>
    ensures passes { OnOk result (test ≡ false) }
    ensures refused { IfErr result (λ why. why ≡ refusal) }
    ensures holds { OnErr result (test ≡ true) }
{
    if test { Err(refusal) } else { Ok(()) }
}

/// Returns the value, or passes the refusal to the caller. It stands for `?`, which isn't proved of
/// an error that may hold a number.
macro_rules! check {
    ($found:expr) => {
        match $found {
            Ok(found) => found,
            Err(refusal) => return Err(refusal.into()),
        }
    };
}

pub(crate) use check;
