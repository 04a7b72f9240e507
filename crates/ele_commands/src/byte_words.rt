//! Prints bytes in hexadecimal digits. A contract sees a printer as its outlet.
ghost use Rattle.std.specs.Prelude.{◌≤◌, ◌∷◌, length};
ghost use Rattle.ele_commands.specs.EventText.{bytes_word};
ghost use Rattle.ele_output.specs.Prints.{Prints};
ghost use Rattle.hex.specs.Hex.{encode_lower};

use ele_output::Printer;
use std::io::Write;

/// The number of bytes that are printed at a time.
const PIECE: usize = 256;

/// Prints a space and two digits for each byte, or a space and `-` for no bytes.
#[inline(never)]
pub(crate) fn put_byte_word<W: Write>(bytes: &[u8], printer: &mut Printer<'_, W>)
    ensures { Prints W.contents printer.old printer.new (32 ∷ bytes_word bytes.now) }
{
    if bytes.is_empty() {
        printer.put(b" -");
    } else {
        printer.put(b" ");
        put_hexadecimal(bytes, printer);
    }
}

// Prints two digits for each byte.
fn put_hexadecimal<W: Write>(bytes: &[u8], printer: &mut Printer<'_, W>)
    ensures { Prints W.contents printer.old printer.new (encode_lower bytes.now) }
{
    let mut rest = bytes;
    'pieces: while !rest.is_empty() {
        let (piece, behind) = rest.split_at(rest.len().min(PIECE));
        put_piece(piece, printer);
        rest = behind;
    }
}

// Prints two digits for each of at most `PIECE` bytes.
fn put_piece<W: Write>(piece: &[u8], printer: &mut Printer<'_, W>)
    requires { length piece.now ≤ PIECE }
    ensures { Prints W.contents printer.old printer.new (encode_lower piece.now) }
{
    let mut digits = [0; 2 * PIECE];
    let digits = &mut digits[..2 * piece.len()];
    match hex::encode_to_slice(piece, digits) {
        Ok(()) => printer.put(digits),
        Err(_) => unreachable!(),
    }
}
