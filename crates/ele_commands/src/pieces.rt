//! Prints the pieces of a word, with a comma between each two. A contract sees a piece as itself, and
//! a printer as its outlet.
ghost use Rattle.std.specs.Prelude.{◌++◌, ◌∷◌, [], List, ℕ, map, decimal};
ghost use Rattle.std.specs.List.{join_with_byte};
ghost use Rattle.std.specs.Option.{option_map_or};
ghost use Rattle.ele_commands.specs.Pieces.{pieces_or_dash};
ghost use Rattle.ele_model.specs.FateText.{mark_word};
ghost use Rattle.ele_output.specs.Prints.{Prints};
ghost use Rattle.ele_policy.specs.PolicyText.{pair_word};

use ele_model::MarkRow;
use ele_moment::{FileId, Moment};
use ele_output::{Printer, put_number, put_with_number};
use std::io::Write;

/// A piece of a word, which is printed between commas.
pub trait Piece {
    ghost piece_text: { Self → List ℕ };

    /// Prints `before` and then the piece.
    fn put_piece<W: Write>(&self, before: &[u8], printer: &mut Printer<'_, W>)
        ensures { Prints W.contents printer.old printer.new (before.now ++ piece_text self.now) };
}

impl Piece for FileId {
    ghost piece_text = { decimal };

    fn put_piece<W: Write>(&self, before: &[u8], printer: &mut Printer<'_, W>) {
        put_with_number(before, self.0, printer);
    }
}

impl Piece for (u64, u64) {
    ghost piece_text = { pair_word };

    fn put_piece<W: Write>(&self, before: &[u8], printer: &mut Printer<'_, W>) {
        printer.put(before);
        put_number(self.0, printer);
        printer.put(b"/");
        put_number(self.1, printer);
    }
}

impl Piece for MarkRow {
    ghost piece_text = { mark_word };

    fn put_piece<W: Write>(&self, before: &[u8], printer: &mut Printer<'_, W>) {
        put_with_number(before, self.at.seconds(), printer);
        put_end(&self.until, printer);
    }
}

// Prints a slash and the end of a mark, if it has one.
fn put_end<W: Write>(until: &Option<Moment>, printer: &mut Printer<'_, W>)
    ensures { Prints W.contents printer.old printer.new
        (option_map_or (λ end. 47 ∷ decimal end) until.now []) }
{
    match until {
        Some(end) => put_with_number(b"/", end.seconds(), printer),
        None => printer.put(b""),
    }
}

/// Prints pieces with a comma between each two.
pub(crate) fn put_pieces<T: Piece, W: Write>(pieces: &[T], printer: &mut Printer<'_, W>)
    ensures { Prints W.contents printer.old printer.new
        (join_with_byte 44 (map T.piece_text pieces.now)) }
{
    let Some((first, rest)) = pieces.split_first() else {
        return;
    };
    first.put_piece(b"", printer);
    for piece in rest {
        piece.put_piece(b",", printer);
    }
}

/// Prints a space and the pieces with commas between them, or a space and `-` for none.
pub fn put_pieces_or_dash<T: Piece, W: Write>(pieces: &[T], printer: &mut Printer<'_, W>)
    ensures { Prints W.contents printer.old printer.new
        (32 ∷ pieces_or_dash T.piece_text pieces.now) }
{
    if pieces.is_empty() {
        printer.put(b" -");
    } else {
        printer.put(b" ");
        put_pieces(pieces, printer);
    }
}
