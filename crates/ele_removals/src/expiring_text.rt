//! Prints versions that will be due with their names. A contract sees a printer as its outlet.
ghost use Rattle.std.specs.Prelude.{◌≡◌, ◌∷◌, ◌++◌, [], codes, decimal, length};
ghost use Rattle.std.specs.List.{flat_map};
ghost use Rattle.ele_output.specs.Line.{line_text};
ghost use Rattle.ele_output.specs.Prints.{Prints};
ghost use Rattle.ele_removals.specs.ExpiringText.{expiring_text, expiry_line};

use crate::expiry::{Expiries, Expiry};
use crate::text::put_name;
use ele_commands::Word::Number;
use ele_commands::put_line_of;
use ele_model::Refusal;
use ele_output::{Printer, put_with_number};
use ele_printer::put_why;
use std::io::Write;

/// Prints how many versions will be due, and a line for each; or the refusal in their place.
pub fn put_expiring<W: Write>(told: &Result<Expiries, Refusal>, printer: &mut Printer<'_, W>)
    ensures { Prints W.contents printer.old printer.new (expiring_text told.now) }
{
    match told {
        Ok(found) => put_all(found.rows.as_slice(), printer),
        Err(refusal) => put_why(&Err(*refusal), printer),
    }
}

// Prints how many versions will be due, and a line for each.
fn put_all<W: Write>(rows: &[Expiry], printer: &mut Printer<'_, W>)
    ensures { Prints W.contents printer.old printer.new
        (line_text (codes "ok expiring" ∷ decimal (length rows.now) ∷ []) ++ flat_map expiry_line rows.now) }
{
    put_line_of(b"ok expiring", &[Number(rows.len() as u64)], printer);
    put_lines(rows, printer);
}

// Prints the line of each version.
fn put_lines<W: Write>(rows: &[Expiry], printer: &mut Printer<'_, W>)
    ensures { Prints W.contents printer.old printer.new (flat_map expiry_line rows.now) }
{
    for row in rows {
        put_expiry(row, printer);
    }
}

// Prints the line of a version.
fn put_expiry<W: Write>(row: &Expiry, printer: &mut Printer<'_, W>)
    ensures { Prints W.contents printer.old printer.new (expiry_line row.now) }
{
    printer.put(b"-");
    put_with_number(b" ", ripe_seconds(row), printer);
    put_with_number(b" ", file_number(row), printer);
    put_with_number(b" ", version_number(row), printer);
    put_name(&row.name, printer);
    printer.put(b"\n");
}

// The first moment at which the version is due, in seconds.
fn ripe_seconds(row: &Expiry) -> u64
    ensures { result ≡ row.now.key.ripe }
{
    row.key.ripe.seconds()
}

// The number of its file.
fn file_number(row: &Expiry) -> u64
    ensures { result ≡ row.now.key.file }
{
    row.key.file.0
}

// The number of the version.
fn version_number(row: &Expiry) -> u64
    ensures { result ≡ row.now.key.number }
{
    row.key.number.0
}
