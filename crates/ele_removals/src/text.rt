//! Prints removed versions with their names. A contract sees a printer as its outlet.
ghost use Rattle.std.specs.Prelude.{◌≡◌, ◌∷◌, ◌++◌, codes, decimal};
ghost use Rattle.std.specs.List.{flat_map};
ghost use Rattle.ele_audit.specs.AuditText.{path_or_dash};
ghost use Rattle.ele_output.specs.Prints.{Prints};
ghost use Rattle.ele_printer.specs.Printed.{end_word};
ghost use Rattle.ele_removals.specs.RemovalText.{name_death, name_path, removal_line, removals_text};

use crate::removal::Removal;
use ele_audit::{NameStory, put_fate_or_dash, put_hold, put_path, put_since};
use ele_commands::Word::Number;
use ele_commands::put_line_of;
use ele_output::{Printer, put_with_number};
use std::io::Write;

/// Prints how many entries were folded, how many versions were removed since, and a line for each.
pub fn put_removals<W: Write>(folded: u64, rows: &[Removal], printer: &mut Printer<'_, W>)
    ensures { Prints W.contents printer.old printer.new (removals_text folded rows.now) }
{
    let words = [Number(folded), Number(rows.len() as u64)];
    put_line_of(b"ok removals", &words, printer);
    put_lines(rows, printer);
}

// Prints the line of each removed version.
fn put_lines<W: Write>(rows: &[Removal], printer: &mut Printer<'_, W>)
    ensures { Prints W.contents printer.old printer.new (flat_map removal_line rows.now) }
{
    for row in rows {
        put_removal(row, printer);
    }
}

// Prints the line of a removed version.
fn put_removal<W: Write>(row: &Removal, printer: &mut Printer<'_, W>)
    ensures { Prints W.contents printer.old printer.new (removal_line row.now) }
{
    printer.put(b"-");
    put_since(&row.version.removed, printer);
    put_with_number(b" ", file_number(row), printer);
    put_with_number(b" ", version_number(row), printer);
    put_name(&row.name, printer);
    put_hold(&row.version.hold, printer);
    put_fate_or_dash(&row.version.fate, printer);
}

// The number of the file.
fn file_number(row: &Removal) -> u64
    ensures { result ≡ row.now.file }
{
    row.file.0
}

// The number of the version.
fn version_number(row: &Removal) -> u64
    ensures { result ≡ row.now.version.number }
{
    row.version.number.0
}

/// Prints a space and the path of a name, and a space and its end, with `-` for none.
pub(crate) fn put_name<W: Write>(name: &Option<NameStory>, printer: &mut Printer<'_, W>)
    ensures { Prints W.contents printer.old printer.new
        ((32 ∷ path_or_dash (name_path name.now)) ++ (32 ∷ end_word (name_death name.now))) }
{
    match name {
        Some(name) => {
            put_path(&name.path, printer);
            put_since(&name.death, printer);
        }
        None => printer.put(b" - -"),
    }
}
