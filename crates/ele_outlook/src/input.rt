//! Reads an input with a line for each closing. A contract sees the input as its bytes.
ghost use Rattle.std.specs.Prelude.{◌≡◌, ◌≤◌, ◌<◌, ◌+◌, ℕ, List, None, OnOk, IfErr, IfOk, [], decimal, drop, length, map, take};
ghost use Rattle.std.specs.Io.KnownBytes.{Consumes, IsAtEnd};
ghost use Rattle.memchr.specs.Find.{IsFirstByte, is_byte};
ghost use Rattle.ele_lists.specs.Lists.{AllLater};
ghost use Rattle.ele_outlook.specs.Reading.{AddsDetails, AddsFields, AddsLine, AddsWord, GivesUp, HaveRead, ReadsLines};
ghost use Rattle.ele_outlook.specs.Parts.{texts_of};
ghost use Rattle.ele_outlook.specs.Told.{AreDetails};

use crate::fault::{BadLine, ForecastFault};
use crate::fields::fields_of;
use crate::options::LineForm;
use crate::row::{add_row, row_of};
use ele_forecast::{Closings, NotClosed};
use ele_forecast_text::{Details, Label};
use ele_peer_rules::Row;
use memchr::memchr;
use std::alloc::Global;
use std::io::{ErrorKind, Read};

/// The most bytes that are read at a time.
const PIECE: usize = 8192;

/// Reads all bytes of the reader. An interrupted read is repeated. `ReadFault` if the reader fails,
/// `NoMemory` if memory is refused; then some of the bytes were read.
pub(crate) fn read_input<R: Read>(alloc: Global, reader: &mut R) -> Result<Vec<u8>, ForecastFault>
    ensures ok { IfOk result (λ input. Consumes (R.remaining reader.old) (R.remaining reader.new)
        input.items) }
    ensures end { OnOk result (IsAtEnd (R.remaining reader.new)) }
    ensures err { IfErr result (GivesUp (R.remaining reader.old) (R.remaining reader.new)) }
{
    let mut input = Vec::new(alloc);
    let mut piece = [0; PIECE];
    'pieces: for _ in 0..u64::MAX {
        match reader.read(&mut piece) {
            Ok(0) => return Ok(input),
            Ok(count) => {
                if input.extend_from_slice(&piece[..count]).is_err() {
                    return Err(ForecastFault::NoMemory);
                }
            }
            Err(error) => {
                if error.kind() != ErrorKind::Interrupted {
                    return Err(ForecastFault::ReadFault);
                }
            }
        }
    }
    Err(ForecastFault::ReadFault)
}

/// What was read of lines: the row of each and its closing, and their labels and sizes.
#[derive(Drop)]
pub(crate) struct ReadLines {
    pub(crate) rows: Vec<Row>,
    pub(crate) closings: Closings,
    pub(crate) details: Details,
}

/// Reads the rows from the lines of an input, and the labels and sizes of the lines. `BadInput` with the first
/// bad line, `NoMemory` if memory is refused.
pub(crate) fn read_lines(
    alloc: Global,
    form: LineForm,
    input: &[u8],
) -> Result<ReadLines, ForecastFault>
    ensures { ReadsLines form input.now result }
{
    let mut read = no_lines(alloc, form);
    let mut rest = input;
    'lines: while let Some(at) = line_end(rest) {
        let (line, behind) = cut_line(rest, at);
        add_line(alloc, form, line, &mut read)?;
        rest = behind;
    }
    add_last(alloc, form, rest, read)
}

// Returns what is read of no line.
fn no_lines(alloc: Global, form: LineForm) -> ReadLines
    ensures rows { result.rows.items ≡ [] }
    ensures closings { result.closings ≡ [] }
    ensures details { AreDetails form.columns [] [] result.details }
{
    ReadLines {
        rows: Vec::new(alloc),
        closings: Closings::new(alloc),
        details: Details {
            columns: form.columns,
            labels: Vec::new(alloc),
            sizes: Vec::new(alloc),
        },
    }
}

// Adds what the last line says, which has no line feed. Without bytes there is no such line.
fn add_last(
    alloc: Global,
    form: LineForm,
    rest: &[u8],
    mut read: ReadLines,
) -> Result<ReadLines, ForecastFault>
    requires { IsFirstByte (is_byte 10) rest.now None }
    ensures { (input : List ℕ) → HaveRead form input rest.now read → ReadsLines form input result }
{
    if rest.is_empty() {
        read.closings.lemma_sorted();
        return Ok(read);
    }
    add_line(alloc, form, rest, &mut read)?;
    read.closings.lemma_sorted();
    Ok(read)
}

/// Returns the place of the first line feed.
pub(crate) fn line_end(bytes: &[u8]) -> Option<usize>
    ensures { IsFirstByte (is_byte 10) bytes.now result }
{
    memchr(b'\n', bytes)
}

/// Returns the line that ends at the place, and the bytes after its line feed.
pub(crate) fn cut_line(rest: &[u8], at: usize) -> (&[u8], &[u8])
    requires { at < length rest.now }
    ensures line { result.0.now ≡ take at rest.now }
    ensures behind { result.1.now ≡ drop (at + 1) rest.now }
{
    let (line, behind) = rest.split_at(at);
    (line, behind.split_at(1).1)
}

// Adds what the next line says. `BadInput` if the line is bad, `NoMemory` if memory is refused.
fn add_line(
    alloc: Global,
    form: LineForm,
    line: &[u8],
    read: &mut ReadLines,
) -> Result<(), ForecastFault>
    ensures { AddsLine form line.now read.old read.new result }
{
    let number = number_of_next(&read.closings);
    let (size, label) = match fields_of(form, line) {
        Ok(fields) => fields,
        Err(why) => return Err(ForecastFault::BadInput(number, why)),
    };
    let row = match row_of(form, line) {
        Ok(row) => row,
        Err(why) => return Err(ForecastFault::BadInput(number, why)),
    };
    match read.closings.push(row.moment) {
        Ok(()) => add_fields(alloc, row, size, label, read),
        Err(NotClosed::OutOfOrder) => Err(ForecastFault::BadInput(number, BadLine::OutOfOrder)),
        Err(NotClosed::NoMemory) => Err(ForecastFault::NoMemory),
    }
}

// Adds the row of a line, and its size and label, if lines have these.
fn add_fields(
    alloc: Global,
    row: Row,
    size: u64,
    label: &[u8],
    read: &mut ReadLines,
) -> Result<(), ForecastFault>
    ensures { AddsFields row size label.now read.old read.new result }
{
    add_row(row, &mut read.rows)?;
    add_details(alloc, size, label, &mut read.details)
}

// Adds the label and the size of a line, if lines have these.
fn add_details(
    alloc: Global,
    size: u64,
    label: &[u8],
    details: &mut Details,
) -> Result<(), ForecastFault>
    ensures { AddsDetails size label.now details.old details.new result }
{
    add_label(alloc, details.columns.labels, label, &mut details.labels)?;
    add_size(details.columns.sizes, size, &mut details.sizes)
}

// Adds a label, if lines have labels.
fn add_label(
    alloc: Global,
    has_labels: bool,
    label: &[u8],
    labels: &mut Vec<Label>,
) -> Result<(), ForecastFault>
    ensures { AddsWord has_labels label.now (texts_of labels.old.items) (texts_of labels.new.items) result }
{
    if !has_labels {
        return Ok(());
    }
    let mut text = Vec::new(alloc);
    if text.extend_from_slice(label).is_err() {
        return Err(ForecastFault::NoMemory);
    }
    match labels.push(Label { text }) {
        Ok(()) => Ok(()),
        Err(_) => Err(ForecastFault::NoMemory),
    }
}

// Adds a size, if lines have sizes.
fn add_size(has_sizes: bool, size: u64, sizes: &mut Vec<u64>) -> Result<(), ForecastFault>
    ensures { AddsWord has_sizes (decimal size) (map decimal sizes.old.items) (map decimal sizes.new.items) result }
{
    if !has_sizes {
        return Ok(());
    }
    match sizes.push(size) {
        Ok(()) => Ok(()),
        Err(_) => Err(ForecastFault::NoMemory),
    }
}

// Returns the number of the line after those of these closings.
fn number_of_next(closings: &Closings) -> u64
    ensures number { result ≡ length closings.now + 1 }
    ensures rises { AllLater ◌≤◌ closings.now }
{
    closings.lemma_sorted();
    closings.len() as u64 + 1
}
