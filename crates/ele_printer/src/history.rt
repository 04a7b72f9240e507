//! Prints histories. A contract sees a history as the number of folded entries and the list of stored
//! ones, and a printer as its outlet.
ghost use Rattle.ele_printer.specs.HistoryText.{entry_line, history_text, trimmed_text};
ghost use Rattle.ele_output.specs.Prints.{Prints};

use crate::row::{Row, put_lines};
use ele_commands::Word::Number;
use ele_commands::{put_event_line, put_line_of};
use ele_model::Entry;
use ele_output::Printer;
use std::io::Write;

/// Prints a history: the number of entries that were folded and of those that are stored, and the
/// event of each stored entry.
pub fn put_history<W: Write>(folded: u64, entries: &[Entry], printer: &mut Printer<'_, W>)
    ensures { Prints W.contents printer.old printer.new (history_text folded entries.now) }
{
    let words = [Number(folded), Number(entries.len() as u64)];
    put_line_of(b"ok history", &words, printer);
    put_lines(entries, printer);
}

/// Prints the reply to a trim: the number of entries that it folded.
pub fn put_trimmed<W: Write>(count: u64, printer: &mut Printer<'_, W>)
    ensures { Prints W.contents printer.old printer.new (trimmed_text count) }
{
    put_line_of(b"ok trimmed", &[Number(count)], printer);
}

impl Row for Entry {
    ghost row_line = { entry_line };

    fn put_row<W: Write>(&self, printer: &mut Printer<'_, W>) {
        printer.put(b"- ");
        put_event_line(&self.event, printer);
    }
}
