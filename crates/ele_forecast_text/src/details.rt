//! What the input says of versions besides their moments. A contract sees it as plain data, and a
//! printer as its outlet.
ghost use Rattle.std.specs.Prelude.{◌≡◌, ◌∷◌, [], codes, decimal};
ghost use Rattle.ele_output.specs.Prints.{Prints};
ghost use Rattle.ele_forecast_text.specs.Details.{bytes_of, detail_headings, detail_words, size_of, total_words, words_if};
ghost use Rattle.ele_forecast_text.specs.Labels.{name_of};
ghost use Rattle.ele_forecast_text.specs.Why.{spaced};

use crate::label::{Label, name_of};
use ele_moment::VersionNo;
use ele_output::{Printer, put_word, put_words};
use itoa::Buffer;
use std::io::Write;

/// Which columns the lines of the input have besides their moments.
#[derive(Clone, Copy, PartialEq, Eq)]
pub struct Columns {
    pub labels: bool,
    pub sizes: bool,
}

/// What the input says of versions besides their moments. A column that it lacks has no elements.
#[derive(Drop)]
pub struct Details {
    pub columns: Columns,
    /// The label of each version.
    pub labels: Vec<Label>,
    /// The bytes of each version.
    pub sizes: Vec<u64>,
}

/// The size of the version of that number, or 0 if there is none.
pub fn size_of(sizes: &[u64], number: VersionNo) -> u64
    ensures { result ≡ size_of sizes.now number }
{
    match sizes.get(number.before().0 as usize) {
        Some(size) => *size,
        None => 0,
    }
}

/// The bytes of the versions of these numbers together.
pub fn bytes_of(sizes: &[u64], numbers: &[VersionNo]) -> u128
    ensures { result ≡ bytes_of sizes.now numbers.now }
{
    let mut bytes = 0;
    for number in numbers {
        bytes += size_of(sizes, *number) as u128;
    }
    bytes
}

/// Puts a space and each heading of the columns.
pub fn put_headings<W: Write>(details: &Details, printer: &mut Printer<'_, W>)
    ensures { Prints W.contents printer.old printer.new (spaced (detail_headings details.now)) }
{
    put_word_if(details.columns.labels, b"label", printer);
    put_word_if(details.columns.sizes, b"bytes", printer);
}

// Puts a space and a word, if there is that column.
fn put_word_if<W: Write>(has_column: bool, word: &[u8], printer: &mut Printer<'_, W>)
    ensures { Prints W.contents printer.old printer.new
        (spaced (words_if has_column (word.now ∷ []))) }
{
    if has_column {
        put_word(word, printer);
    }
}

/// Puts a space and each detail of the version of that number.
pub fn put_details<W: Write>(details: &Details, number: VersionNo, printer: &mut Printer<'_, W>)
    ensures { Prints W.contents printer.old printer.new (spaced (detail_words details.now number)) }
{
    let mut name_digits = Buffer::new();
    let mut size_digits = Buffer::new();
    let name = name_of(details.labels.as_slice(), number, &mut name_digits);
    let size = size_of(details.sizes.as_slice(), number);
    put_word_if(details.columns.labels, name, printer);
    put_word_if(
        details.columns.sizes,
        size_digits.format(size).as_bytes(),
        printer,
    );
}

/// Puts a space and each word of how many bytes the versions of these numbers have together, if
/// versions have sizes.
pub(crate) fn put_total<W: Write>(
    details: &Details,
    numbers: &[VersionNo],
    printer: &mut Printer<'_, W>,
)
    ensures { Prints W.contents printer.old printer.new
        (spaced (total_words details.now numbers.now)) }
{
    if details.columns.sizes {
        let mut digits = Buffer::new();
        let bytes = bytes_of(details.sizes.as_slice(), numbers);
        put_words(
            b" with",
            &[digits.format(bytes).as_bytes(), b"bytes"],
            printer,
        );
    }
}
