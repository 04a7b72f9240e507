//! Prints groups. A contract sees a group as itself, and a printer as its outlet.
ghost use Rattle.ele_printer.specs.Printed.{group_line};

use crate::row::Row;
use ele_commands::put_pieces_or_dash;
use ele_model::GroupRow;
use ele_output::{Printer, put_words};
use std::io::Write;

impl Row for GroupRow {
    ghost row_line = { group_line };

    fn put_row<W: Write>(&self, printer: &mut Printer<'_, W>) {
        put_words(b"-", &[self.name.bytes(), b"members"], printer);
        put_pieces_or_dash(self.members.as_slice(), printer);
        printer.put(b" marks");
        put_pieces_or_dash(self.marks.as_slice(), printer);
        printer.put(b"\n");
    }
}
