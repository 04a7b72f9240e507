//! Reads the input in pieces.
//! A contract sees the bytes that are taken from the reader.
ghost use Rattle.std.specs.Prelude.{◌<◌, ◌≤◌, length};
ghost use Rattle.ele_runs.specs.Taken.{TakesPiece};

use ele_run_options::ShellFault;
use std::io::{ErrorKind, Read};

/// Reads at most `most` bytes into the start of the piece. Returns their number, which is 0 only at the
/// end of the input. An interrupted read is repeated. `ReadFault` if the reader fails.
pub(crate) fn read_piece<R: Read>(
    reader: &mut R,
    piece: &mut [u8],
    most: usize,
) -> Result<usize, ShellFault>
    requires some { 0 < most }
    requires room { most ≤ length piece.old }
    ensures { TakesPiece (R.remaining reader.old) (R.remaining reader.new) most piece.new result }
{
    'tries: for _ in 0..u64::MAX {
        match reader.read(&mut piece[..most]) {
            Ok(count) => return Ok(count),
            Err(e) => {
                if e.kind() != ErrorKind::Interrupted {
                    return Err(ShellFault::ReadFault);
                }
            }
        }
    }
    Err(ShellFault::ReadFault)
}
