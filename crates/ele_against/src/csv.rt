//! What is kept here and there, as CSV. A contract sees its text, and a printer as its outlet.
ghost use Rattle.std.specs.Prelude.{◌∷◌, ◌++◌, codes, decimal};
ghost use Rattle.ele_output.specs.Prints.{Prints};
ghost use Rattle.ele_forecast_text.specs.Details.{size_of};
ghost use Rattle.ele_forecast_text.specs.Labels.{name_of};
ghost use Rattle.ele_forecast_forms.specs.Csv.{doubled, quoted, version_fields};
ghost use Rattle.ele_forecast_forms.specs.Parts.{part_if};
ghost use Rattle.ele_against.specs.ComparedCsv.{compared_csv, heading_text, row_text, rows_text};

use crate::compared::Compared;
use ele_forecast_text::{Details, name_of, size_of};
use ele_moment::VersionNo;
use ele_output::{Printer, put_number, put_with_number};
use itoa::Buffer;
use std::io::Write;

/// Puts the heading of the rows.
pub fn put_compared_heading<W: Write>(details: &Details, printer: &mut Printer<'_, W>)
    ensures { Prints W.contents printer.old printer.new (heading_text details.now) }
{
    printer.put(b"by,kept,version");
    put_if(details.columns.labels, b",label", printer);
    put_if(details.columns.sizes, b",bytes", printer);
    printer.put(b"\n");
}

// Puts a part, if there is that column.
fn put_if<W: Write>(has_column: bool, part: &[u8], printer: &mut Printer<'_, W>)
    ensures { Prints W.contents printer.old printer.new (part_if has_column part.now) }
{
    if has_column {
        printer.put(part);
    }
}

/// Puts a row for each version that is kept by both, only here, or only there. `word` is the policy or the rule by which
/// versions are kept here; it has no quotation mark.
pub fn put_compared_csv<W: Write>(
    details: &Details,
    word: &[u8],
    compared: &Compared,
    printer: &mut Printer<'_, W>,
)
    ensures { Prints W.contents printer.old printer.new
        (compared_csv details.now word.now compared.now) }
{
    put_rows(
        details,
        word,
        b"both",
        compared.both.numbers.as_slice(),
        printer,
    );
    put_rows(
        details,
        word,
        b"only-here",
        compared.here.numbers.as_slice(),
        printer,
    );
    put_rows(
        details,
        word,
        b"only-there",
        compared.there.numbers.as_slice(),
        printer,
    );
}

// Puts the rows of a group.
fn put_rows<W: Write>(
    details: &Details,
    word: &[u8],
    group: &[u8],
    numbers: &[VersionNo],
    printer: &mut Printer<'_, W>,
)
    ensures { Prints W.contents printer.old printer.new
        (rows_text details.now word.now group.now numbers.now) }
{
    for number in numbers {
        put_row(details, word, group, *number, printer);
    }
}

// Puts the row of a version.
fn put_row<W: Write>(
    details: &Details,
    word: &[u8],
    group: &[u8],
    number: VersionNo,
    printer: &mut Printer<'_, W>,
)
    ensures { Prints W.contents printer.old printer.new
        (row_text details.now word.now group.now number) }
{
    printer.put(b"\"");
    printer.put(word);
    printer.put(b"\",");
    printer.put(group);
    printer.put(b",");
    put_version(details, number, printer);
    printer.put(b"\n");
}

// Puts the number of a version, its label and its size.
fn put_version<W: Write>(details: &Details, number: VersionNo, printer: &mut Printer<'_, W>)
    ensures { Prints W.contents printer.old printer.new (version_fields details.now number) }
{
    put_number(number.0, printer);
    put_label(details, number, printer);
    put_size(details, number, printer);
}

// Puts the label of a version, if versions have labels.
fn put_label<W: Write>(details: &Details, number: VersionNo, printer: &mut Printer<'_, W>)
    ensures { Prints W.contents printer.old printer.new (part_if details.now.columns.labels
        (44 ∷ quoted (name_of details.now.labels.items number))) }
{
    if details.columns.labels {
        let mut digits = Buffer::new();
        put_quoted(
            name_of(details.labels.as_slice(), number, &mut digits),
            printer,
        );
    }
}

// Puts the size of a version, if versions have sizes.
fn put_size<W: Write>(details: &Details, number: VersionNo, printer: &mut Printer<'_, W>)
    ensures { Prints W.contents printer.old printer.new (part_if details.now.columns.sizes
        (44 ∷ decimal (size_of details.now.sizes.items number))) }
{
    if details.columns.sizes {
        let size = size_of(details.sizes.as_slice(), number);
        put_with_number(b",", size, printer);
    }
}

// Puts a comma, and a field within quotation marks.
fn put_quoted<W: Write>(text: &[u8], printer: &mut Printer<'_, W>)
    ensures { Prints W.contents printer.old printer.new (44 ∷ quoted text.now) }
{
    printer.put(b",\"");
    for byte in text {
        put_byte(*byte, printer);
    }
    printer.put(b"\"");
}

// Puts a byte, twice if it is a quotation mark.
fn put_byte<W: Write>(byte: u8, printer: &mut Printer<'_, W>)
    ensures { Prints W.contents printer.old printer.new (doubled byte) }
{
    match byte {
        b'"' => printer.put(b"\"\""),
        _ => printer.put_byte(byte),
    }
}
