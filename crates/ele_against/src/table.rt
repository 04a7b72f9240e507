//! What is kept here and there, as lines of a table. A contract sees their text, and a printer as its outlet.
ghost use Rattle.std.specs.Prelude.{codes};
ghost use Rattle.ele_output.specs.Prints.{Prints};
ghost use Rattle.ele_against.specs.ComparedTable.{bytes_part, compared_text, group_end, group_line, group_start, numbers_end, sum_text, unknown_text};

use crate::compared::Compared;
use ele_forecast_text::{Details, Staying, bytes_of, stamp_of};
use ele_moment::VersionNo;
use ele_output::{Printer, put_with_number, put_word};
use itoa::Buffer;
use std::io::Write;

/// Puts three lines: which versions are kept by both, only here, and only there, how many they are and, if versions have
/// sizes, their bytes. `word` is the policy or the rule by which they are kept here.
pub fn put_compared<W: Write>(
    details: &Details,
    word: &[u8],
    compared: &Compared,
    printer: &mut Printer<'_, W>,
)
    ensures { Prints W.contents printer.old printer.new
        (compared_text details.now word.now compared.now) }
{
    put_group(details, word, b"both", &compared.both, printer);
    put_group(details, word, b"only-here", &compared.here, printer);
    put_group(details, word, b"only-there", &compared.there, printer);
}

/// Puts the lines of the other labels that no version has, and how many they are.
pub fn put_unknown<W: Write>(lines: &[u64], printer: &mut Printer<'_, W>)
    ensures { Prints W.contents printer.old printer.new (unknown_text lines.now) }
{
    put_with_number(b"no-version ", lines.len() as u64, printer);
    put_lines(lines, printer);
}

// Puts the line of a group.
fn put_group<W: Write>(
    details: &Details,
    word: &[u8],
    group: &[u8],
    staying: &Staying,
    printer: &mut Printer<'_, W>,
)
    ensures { Prints W.contents printer.old printer.new
        (group_line details.now word.now group.now staying.now) }
{
    put_start(word, group, staying, printer);
    put_end(details, staying.numbers.as_slice(), printer);
}

// Puts the start of the line.
fn put_start<W: Write>(word: &[u8], group: &[u8], staying: &Staying, printer: &mut Printer<'_, W>)
    ensures { Prints W.contents printer.old printer.new (group_start word.now group.now staying.now) }
{
    printer.put(b"at ");
    printer.put(&stamp_of(staying.at));
    put_word(word, printer);
    put_word(group, printer);
}

// Puts how many versions they are, their bytes, and their numbers.
fn put_end<W: Write>(details: &Details, numbers: &[VersionNo], printer: &mut Printer<'_, W>)
    ensures { Prints W.contents printer.old printer.new (group_end details.now numbers.now) }
{
    put_with_number(b" ", numbers.len() as u64, printer);
    put_bytes(details, numbers, printer);
    put_numbers(numbers, printer);
}

/// Puts the bytes of the versions with these numbers, if versions have sizes.
pub fn put_bytes<W: Write>(details: &Details, numbers: &[VersionNo], printer: &mut Printer<'_, W>)
    ensures { Prints W.contents printer.old printer.new (bytes_part details.now numbers.now) }
{
    if details.columns.sizes {
        put_sum(details.sizes.as_slice(), numbers, printer);
    }
}

// Puts the bytes of versions.
fn put_sum<W: Write>(sizes: &[u64], numbers: &[VersionNo], printer: &mut Printer<'_, W>)
    ensures { Prints W.contents printer.old printer.new (sum_text sizes.now numbers.now) }
{
    let mut digits = Buffer::new();
    let bytes = bytes_of(sizes, numbers);
    printer.put(b" with ");
    printer.put(digits.format(bytes).as_bytes());
    printer.put(b" bytes");
}

// Puts the numbers of versions, and the end of the line.
fn put_numbers<W: Write>(numbers: &[VersionNo], printer: &mut Printer<'_, W>)
    ensures { Prints W.contents printer.old printer.new (numbers_end numbers.now) }
{
    printer.put(b":");
    for number in numbers {
        put_with_number(b" ", number.0, printer);
    }
    printer.put(b"\n");
}

// Puts the numbers of lines, and the end of the line.
fn put_lines<W: Write>(lines: &[u64], printer: &mut Printer<'_, W>)
    ensures { Prints W.contents printer.old printer.new (numbers_end lines.now) }
{
    printer.put(b":");
    for line in lines {
        put_with_number(b" ", *line, printer);
    }
    printer.put(b"\n");
}
