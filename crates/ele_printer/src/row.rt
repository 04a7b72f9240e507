//! Lists of rows: a line with the number of rows, and a line for each row. A contract sees a row as
//! itself, and a printer as its outlet.
ghost use Rattle.std.specs.Prelude.{◌∷◌, [], ◌++◌, List, ℕ, length, decimal};
ghost use Rattle.std.specs.List.{flat_map};
ghost use Rattle.ele_output.specs.Prints.{Prints};
ghost use Rattle.ele_output.specs.Line.{line_text};

use ele_commands::Word::Number;
use ele_commands::put_line_of;
use ele_output::Printer;
use std::io::Write;

/// A row, which is printed as one line.
pub(crate) trait Row {
    ghost row_line: { Self → List ℕ };

    /// Prints the line of the row.
    fn put_row<W: Write>(&self, printer: &mut Printer<'_, W>)
        ensures { Prints W.contents printer.old printer.new (row_line self.now) };
}

/// Prints a line of a first word and the number of rows, and then the line of each row.
pub(crate) fn put_rows<T: Row, W: Write>(first: &[u8], rows: &[T], printer: &mut Printer<'_, W>)
    ensures { Prints W.contents printer.old printer.new
        (line_text (first.now ∷ decimal (length rows.now) ∷ []) ++ flat_map T.row_line rows.now) }
{
    put_line_of(first, &[Number(rows.len() as u64)], printer);
    put_lines(rows, printer);
}

/// Prints the line of each row.
pub(crate) fn put_lines<T: Row, W: Write>(rows: &[T], printer: &mut Printer<'_, W>)
    ensures { Prints W.contents printer.old printer.new (flat_map T.row_line rows.now) }
{
    for row in rows {
        row.put_row(printer);
    }
}
