//! A run whose lines are typed and whose answers are read at a terminal. It goes to one writer, and a
//! fault to the other. A contract sees what was read, what both writers hold then, and the status.
ghost use Rattle.ele_history.specs.Past.{fresh};
ghost use Rattle.ele_output.specs.Prints.{outlet};
ghost use Rattle.ele_words.specs.Typing.{TypingEnds};

use crate::program::tell;
use ele_dialog::run_dialog;
use ele_model::{Explain, FromFlat, Limits};
use ele_output::Printer;
use std::alloc::Global;
use std::io::{Read, Write};

/// Answers the lines that the reader gives, as [ele_dialog] does: with headings above rows, the dates of
/// moments behind each line, the reason of a bad line before its answer, and help for `help`. Reports a
/// fault to `errors`, also that memory is refused, when the lines before are answered. Returns the exit
/// status.
pub fn run_typed<C: Explain + FromFlat, R: Read, W: Write, E: Write>(
    alloc: Global,
    limits: Limits,
    reader: &mut R,
    writer: &mut W,
    errors: &mut Printer<'_, E>,
) -> u8
    ensures { TypingEnds (fresh limits) (R.remaining reader.old) (R.remaining reader.new)
        (W.contents writer.old) (W.contents writer.new)
        (outlet E.contents errors.old) (outlet E.contents errors.new) result }
{
    let ended = run_dialog::<C, R, W>(alloc, limits, reader, writer);
    tell(ended.err(), errors)
}
