//! Amounts over time, as a table and as CSV. A contract sees their text, and a printer as its outlet.
ghost use Rattle.std.specs.Prelude.{◌≡◌, ◌∷◌, decimal};
ghost use Rattle.std.specs.List.{flat_map};
ghost use Rattle.ele_output.specs.Prints.{Prints};
ghost use Rattle.ele_space.specs.AmountsText.{amount_text, amounts_csv, amounts_line, amounts_text, bytes_text, csv_columns, size_columns, table_columns};

use crate::amounts::{Amount, Amounts};
use ele_forecast_text::{Plan, stamp_of};
use ele_output::Printer;
use itoa::Buffer;
use std::io::Write;

/// Puts a table with a line for each moment. For each policy it has how many versions stay, their bytes, and the bytes
/// that are freed.
pub fn put_amounts<W: Write>(plans: &[Plan], rows: &[Amounts], printer: &mut Printer<'_, W>)
    ensures { Prints W.contents printer.old printer.new (amounts_text plans.now rows.now) }
{
    printer.put(b"at");
    for plan in plans {
        put_table_columns(plan.word.as_slice(), printer);
    }
    printer.put(b"\n");
    put_rows(b' ', true, rows, printer);
}

// Puts the headings of the policy of that word.
fn put_table_columns<W: Write>(word: &[u8], printer: &mut Printer<'_, W>)
    ensures { Prints W.contents printer.old printer.new (table_columns word.now) }
{
    printer.put(b" ");
    printer.put(word);
    printer.put(b" bytes freed");
}

/// Puts the same as CSV, without bytes if versions have no sizes.
pub fn put_amounts_csv<W: Write>(
    sizes: bool,
    plans: &[Plan],
    rows: &[Amounts],
    printer: &mut Printer<'_, W>,
)
    ensures { Prints W.contents printer.old printer.new (amounts_csv sizes plans.now rows.now) }
{
    printer.put(b"at");
    for plan in plans {
        put_csv_columns(sizes, plan.word.as_slice(), printer);
    }
    printer.put(b"\n");
    put_rows(b',', sizes, rows, printer);
}

// Puts the headings of the policy of that word.
fn put_csv_columns<W: Write>(sizes: bool, word: &[u8], printer: &mut Printer<'_, W>)
    ensures { Prints W.contents printer.old printer.new (csv_columns sizes word.now) }
{
    printer.put(b",\"kept ");
    printer.put(word);
    put_size_columns(sizes, word, printer);
    printer.put(b"\"");
}

// Puts the headings of the bytes under the policy of that word, if versions have sizes.
fn put_size_columns<W: Write>(sizes: bool, word: &[u8], printer: &mut Printer<'_, W>)
    ensures { Prints W.contents printer.old printer.new (size_columns sizes word.now) }
{
    if sizes {
        printer.put(b"\",\"bytes ");
        printer.put(word);
        printer.put(b"\",\"freed ");
        printer.put(word);
    }
}

// Puts the line of each moment, with that byte before each number.
fn put_rows<W: Write>(mark: u8, sizes: bool, rows: &[Amounts], printer: &mut Printer<'_, W>)
    ensures { Prints W.contents printer.old printer.new
        (flat_map (amounts_line mark sizes) rows.now) }
{
    for row in rows {
        put_row(mark, sizes, row, printer);
    }
}

// Puts the line of a moment.
fn put_row<W: Write>(mark: u8, sizes: bool, row: &Amounts, printer: &mut Printer<'_, W>)
    ensures { Prints W.contents printer.old printer.new (amounts_line mark sizes row.now) }
{
    let amounts = row.amounts.as_slice();
    printer.put(&stamp_of(row.at));
    for amount in amounts {
        put_amount(mark, sizes, amount, printer);
    }
    printer.put(b"\n");
}

// Puts an amount.
fn put_amount<W: Write>(mark: u8, sizes: bool, amount: &Amount, printer: &mut Printer<'_, W>)
    ensures { Prints W.contents printer.old printer.new (amount_text mark sizes amount.now) }
{
    put_digits(mark, amount.count as u128, printer);
    put_bytes(mark, sizes, amount, printer);
}

// Puts the bytes of an amount, if versions have sizes.
fn put_bytes<W: Write>(mark: u8, sizes: bool, amount: &Amount, printer: &mut Printer<'_, W>)
    ensures { Prints W.contents printer.old printer.new (bytes_text mark sizes amount.now) }
{
    if sizes {
        put_digits(mark, amount.bytes, printer);
        put_digits(mark, amount.freed, printer);
    }
}

// Puts a byte and a number.
fn put_digits<W: Write>(mark: u8, number: u128, printer: &mut Printer<'_, W>)
    ensures { Prints W.contents printer.old printer.new (mark ∷ decimal number) }
{
    let mut digits = Buffer::new();
    printer.put_byte(mark);
    printer.put(digits.format(number).as_bytes());
}
