//! Prints the mark that held a version. A contract sees a printer as its outlet.
ghost use Rattle.std.specs.Prelude.{◌∷◌, [], codes};
ghost use Rattle.ele_audit.specs.HoldText.{hold_words, spaced};
ghost use Rattle.ele_model.specs.FateText.{mark_word};
ghost use Rattle.ele_output.specs.Prints.{Prints};

use ele_commands::Piece;
use ele_holds::Hold;
use ele_model::MarkRow;
use ele_output::{Printer, put_words};
use std::io::Write;

/// Prints a space before each word of the mark that held a version, if one did.
pub fn put_hold<W: Write>(hold: &Option<Hold>, printer: &mut Printer<'_, W>)
    ensures { Prints W.contents printer.old printer.new (spaced (hold_words hold.now)) }
{
    match hold {
        Some(hold) => put_held(hold.group.bytes(), &hold.mark, printer),
        None => {}
    }
}

// Prints the same of a mark of a group.
fn put_held<W: Write>(group: &[u8], mark: &MarkRow, printer: &mut Printer<'_, W>)
    ensures { Prints W.contents printer.old printer.new
        (spaced (codes "held" ∷ group.now ∷ mark_word mark.now ∷ [])) }
{
    put_words(b" held", &[group], printer);
    mark.put_piece(b" ", printer);
}
