//! Reads typed lines. A contract sees the bytes that are taken from the reader.
ghost use Rattle.std.specs.Prelude.{◌≡◌, ◌<◌, [], length};
ghost use Rattle.ele_dialog.specs.Input.{ReadsLine, TakesByte, TakesPiece};

use ele_run_options::ShellFault;
use std::io::{ErrorKind, Read};

/// Reads a line into an empty buffer, without its line feed. Returns whether it has one: only a last
/// line may have none. Reads no byte behind the line, so that it can be answered before the next one
/// is there. `ReadFault` if the reader fails, and `NoMemory` if memory for a byte is refused; bytes of
/// one line are read then.
pub(crate) fn read_line<R: Read>(reader: &mut R, line: &mut Vec<u8>) -> Result<bool, ShellFault>
    requires { line.old.items ≡ [] }
    ensures { ReadsLine (R.remaining reader.old) (R.remaining reader.new) line.new.items result }
{
    'bytes: for _ in 0..u64::MAX {
        let Some(byte) = read_byte(reader)? else {
            return Ok(false);
        };
        if byte == b'\n' {
            return Ok(true);
        }
        if line.push(byte).is_err() {
            return Err(ShellFault::NoMemory);
        }
    }
    Err(ShellFault::ReadFault)
}

// Reads a byte. None at the end of the input.
fn read_byte<R: Read>(reader: &mut R) -> Result<Option<u8>, ShellFault>
    ensures { TakesByte (R.remaining reader.old) (R.remaining reader.new) result }
{
    let mut piece = [0; 1];
    let count = read_piece(reader, &mut piece)?;
    if count == 0 {
        return Ok(None);
    }
    Ok(Some(piece[0]))
}

// Reads bytes into the start of the piece. Returns their number, which is 0 only at the end of the
// input. An interrupted read is repeated.
fn read_piece<R: Read>(reader: &mut R, piece: &mut [u8]) -> Result<usize, ShellFault>
    requires { 0 < length piece.old }
    ensures { TakesPiece (R.remaining reader.old) (R.remaining reader.new) piece.new result }
{
    'tries: for _ in 0..u64::MAX {
        match reader.read(piece) {
            Ok(count) => return Ok(count),
            Err(e) => {
                if e.kind() != ErrorKind::Interrupted {
                    return Err(ShellFault::ReadFault);
                }
            }
        }
    }
    Err(ShellFault::ReadFault)
}
