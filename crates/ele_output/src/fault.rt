//! The fault of a writer. A contract sees the fault as itself.
ghost use Rattle.std.specs.Prelude.{◌≡◌};
ghost use Rattle.ele_output.specs.WriteFault.{write_fault_number, write_fault_name};

use thiserror::Error;

/// A writer refused some bytes. It took a prefix of the bytes that it got.
#[derive(Clone, Copy, Debug, PartialEq, Eq, Error)]
#[error("the output can't be written")]
pub struct WriteFault;

impl WriteFault {
    /// Returns its number.
    pub fn number(self) -> u8
        ensures { result ≡ write_fault_number }
    {
        35
    }

    /// Returns its name.
    pub fn name(self) -> &'static str
        ensures { result.now ≡ write_fault_name }
    {
        "WriteFault"
    }
}
