//! What a drawing is made of. A contract sees a mark as plain data, and what is put of it as its
//! text.
ghost use Rattle.std.specs.Prelude.{◌≡◌, ◌<◌, ◌≤◌, ◌∷◌, ◌++◌, [], codes, decimal};
ghost use Rattle.std.specs.List.{flat_map};
ghost use Rattle.ele_output.specs.Prints.{Prints};
ghost use Rattle.ele_svg_marks.specs.Mark.{bytes_text, fill_word, stroke_text, mark_text, opening, rect_text, side_word, stroke_words, label_text, unit_name, unit_size};

use ele_forecast_text::{put_length, stamp_of};
use ele_moment::{Moment, VersionNo};
use ele_output::{Printer, put_number};
use itoa::Buffer;
use std::io::Write;

/// A place: so many pixels from the left, and from above.
pub type Place = (u64, u64);

/// The colour of a rectangle.
#[derive(Clone, Copy)]
pub enum Fill {
    Paper,
    Current,
    Kept,
    Due,
    Stays,
    Hatched,
}

/// How a line is drawn.
#[derive(Clone, Copy)]
pub enum Stroke {
    Grid,
    Thin,
    Dotted,
    Dashed,
    /// A bar of a strip.
    Bar,
    /// Those of the curves of policies.
    First,
    Second,
    Third,
    Fourth,
}

/// Where a text stands: it ends at its place, has it in its middle, or begins there.
#[derive(Clone, Copy)]
pub enum Side {
    Before,
    Around,
    Behind,
}

/// What a text says.
#[derive(Clone, Copy)]
pub enum Words {
    Number(VersionNo),
    DueBy(VersionNo),
    Due,
    Kept,
    Current,
    Narrow,
    Closings,
    /// What the bars of strips mean.
    Bars,
    /// What the axis of a curve counts.
    VersionsAxis,
    BytesAxis,
    /// No version closed later.
    NoNewer,
    Count(u64),
    Bytes(u64),
    /// How many versions stay at a moment.
    Stay(u64),
    Seconds(Moment),
    Stamp(Moment),
    Date(Moment),
    Month(Moment),
    Year(Moment),
    /// An age of a ladder, and a width.
    Level(u64, u64),
}

/// A rectangle, a line, or a text of that size.
#[derive(Clone, Copy)]
pub enum Mark {
    Rect {
        x: u64,
        y: u64,
        width: u64,
        height: u64,
        color: Fill,
    },
    Line {
        from: Place,
        to: Place,
        stroke: Stroke,
    },
    Text {
        x: u64,
        y: u64,
        size: u64,
        side: Side,
        words: Words,
    },
}

impl Stroke {
    /// How it is told.
    pub fn words(self) -> &'static [u8]
        ensures { result.now ≡ stroke_words self }
    {
        match self {
            Stroke::Grid => b"#bbb' stroke-width='0.5",
            Stroke::Thin => b"#000' stroke-width='0.6",
            Stroke::Dotted => b"#000' stroke-width='0.6' stroke-dasharray='1.5 2.5",
            Stroke::Dashed => b"#000' stroke-width='1.2' stroke-dasharray='6 3",
            Stroke::Bar => b"#3f7fbf' stroke-width='3",
            Stroke::First => b"#14375a' stroke-width='1.8",
            Stroke::Second => b"#d35400' stroke-width='1.8' stroke-dasharray='9 3",
            Stroke::Third => b"#3f7fbf' stroke-width='1.8' stroke-dasharray='4 2",
            Stroke::Fourth => b"#7d3c98' stroke-width='1.8' stroke-dasharray='1.5 2",
        }
    }
}

impl Side {
    // How it is told.
    fn word(self) -> &'static [u8]
        ensures { result.now ≡ side_word self }
    {
        match self {
            Side::Before => b"end",
            Side::Around => b"middle",
            Side::Behind => b"start",
        }
    }
}

impl Fill {
    // How it is told.
    fn word(self) -> &'static [u8]
        ensures { result.now ≡ fill_word self }
    {
        match self {
            Fill::Paper => b"#fff",
            Fill::Current => b"#14375a",
            Fill::Kept => b"#3f7fbf",
            Fill::Due => b"#f5b041",
            Fill::Stays => b"#000",
            Fill::Hatched => b"url(#hatch)",
        }
    }
}

/// Puts parts one behind another.
pub fn put_parts<W: Write>(parts: &[&[u8]], printer: &mut Printer<'_, W>)
    ensures { Prints W.contents printer.old printer.new (flat_map (λ part. part.now) parts.now) }
{
    for part in parts {
        printer.put(part);
    }
}

/// Puts marks one behind another.
pub fn put_marks<W: Write>(marks: &[Mark], printer: &mut Printer<'_, W>)
    ensures { Prints W.contents printer.old printer.new (flat_map mark_text marks.now) }
{
    for mark in marks {
        put_mark(mark, printer);
    }
}

// Puts a mark.
fn put_mark<W: Write>(mark: &Mark, printer: &mut Printer<'_, W>)
    ensures { Prints W.contents printer.old printer.new (mark_text mark.now) }
{
    match mark {
        Mark::Rect {
            x,
            y,
            width,
            height,
            color,
        } => put_rect((*x, *y), (*width, *height), *color, printer),
        Mark::Line { from, to, stroke } => put_stroke(*from, *to, *stroke, printer),
        Mark::Text {
            x,
            y,
            size,
            side,
            words,
        } => put_text((*x, *y), *size, *side, words, printer),
    }
}

// Puts a rectangle.
fn put_rect<W: Write>(at: Place, size: (u64, u64), color: Fill, printer: &mut Printer<'_, W>)
    ensures { Prints W.contents printer.old printer.new
        (rect_text at.0 at.1 size.0 size.1 color) }
{
    let mut x = Buffer::new();
    let mut y = Buffer::new();
    let mut width = Buffer::new();
    let mut height = Buffer::new();
    put_parts(
        &[
            b"<rect x='",
            x.format(at.0).as_bytes(),
            b"' y='",
            y.format(at.1).as_bytes(),
            b"' width='",
            width.format(size.0).as_bytes(),
            b"' height='",
            height.format(size.1).as_bytes(),
            b"' fill='",
            color.word(),
            b"' stroke='#000' stroke-width='0.6'/>\n",
        ],
        printer,
    );
}

// Puts a line.
fn put_stroke<W: Write>(from: Place, to: Place, stroke: Stroke, printer: &mut Printer<'_, W>)
    ensures { Prints W.contents printer.old printer.new (stroke_text from to stroke) }
{
    let mut x1 = Buffer::new();
    let mut y1 = Buffer::new();
    let mut x2 = Buffer::new();
    let mut y2 = Buffer::new();
    put_parts(
        &[
            b"<line x1='",
            x1.format(from.0).as_bytes(),
            b"' y1='",
            y1.format(from.1).as_bytes(),
            b"' x2='",
            x2.format(to.0).as_bytes(),
            b"' y2='",
            y2.format(to.1).as_bytes(),
            b"' stroke='",
            stroke.words(),
            b"'/>\n",
        ],
        printer,
    );
}

// Puts a text.
fn put_text<W: Write>(at: Place, size: u64, side: Side, words: &Words, printer: &mut Printer<'_, W>)
    ensures { Prints W.contents printer.old printer.new
        (opening at.0 at.1 size side ++ (label_text words.now ++ codes "</text>\n")) }
{
    let mut x = Buffer::new();
    let mut y = Buffer::new();
    let mut digits = Buffer::new();
    put_parts(
        &[
            b"<text x='",
            x.format(at.0).as_bytes(),
            b"' y='",
            y.format(at.1).as_bytes(),
            b"' font-size='",
            digits.format(size).as_bytes(),
            b"' text-anchor='",
            side.word(),
            b"'>",
        ],
        printer,
    );
    put_said(words, printer);
    printer.put(b"</text>\n");
}

// Puts what a text says.
fn put_said<W: Write>(words: &Words, printer: &mut Printer<'_, W>)
    ensures { Prints W.contents printer.old printer.new (label_text words.now) }
{
    match words {
        Words::Number(number) => put_numbered(b"v", *number, printer),
        Words::DueBy(number) => put_numbered(b"due by v", *number, printer),
        Words::Due => printer.put(b"due"),
        Words::Kept => printer.put(b"kept"),
        Words::Current => printer.put(b"current"),
        Words::Narrow => printer.put(b"spans too narrow to draw"),
        Words::Closings => printer.put(b"all versions, by closing"),
        Words::Bars => printer.put(b"bars: how many versions closed then that a level lets stay"),
        Words::VersionsAxis => printer.put(b"versions that stay"),
        Words::BytesAxis => printer.put(b"bytes that stay"),
        Words::NoNewer => printer.put(b"no newer version"),
        Words::Count(count) => put_number(*count, printer),
        Words::Bytes(bytes) => put_bytes(*bytes, printer),
        Words::Stay(count) => {
            put_number(*count, printer);
            printer.put(b" stay");
        }
        Words::Seconds(moment) => put_number(moment.seconds(), printer),
        Words::Stamp(moment) => printer.put(&stamp_of(*moment)),
        Words::Date(moment) => printer.put(&stamp_of(*moment)[..10]),
        Words::Month(moment) => printer.put(&stamp_of(*moment)[..7]),
        Words::Year(moment) => printer.put(&stamp_of(*moment)[..4]),
        Words::Level(age, width) => {
            put_length(b"age", *age, printer);
            put_length(b", span", *width, printer);
        }
    }
}

// Puts bytes in the largest unit of which they are a multiple.
fn put_bytes<W: Write>(bytes: u64, printer: &mut Printer<'_, W>)
    ensures { Prints W.contents printer.old printer.new (bytes_text bytes) }
{
    let (size, name) = byte_unit(bytes);
    put_number(bytes / size, printer);
    printer.put(name);
}

// The largest unit of which the bytes are a multiple, and its name.
fn byte_unit(bytes: u64) -> (u64, &'static [u8])
    ensures size { result.0 ≡ unit_size bytes }
    ensures name { result.1.now ≡ unit_name bytes }
    ensures some { 0 < result.0 }
{
    if bytes % 1_000 > 0 || bytes == 0 {
        (1, b" B")
    } else if bytes % 1_000_000 > 0 {
        (1_000, b" kB")
    } else if bytes % 1_000_000_000 > 0 {
        (1_000_000, b" MB")
    } else if bytes % 1_000_000_000_000 > 0 {
        (1_000_000_000, b" GB")
    } else {
        (1_000_000_000_000, b" TB")
    }
}

// Puts a word and the number of a version.
fn put_numbered<W: Write>(word: &[u8], number: VersionNo, printer: &mut Printer<'_, W>)
    ensures { Prints W.contents printer.old printer.new
        (flat_map (λ part. part) (word.now ∷ decimal number ∷ [])) }
{
    let mut digits = Buffer::new();
    put_parts(&[word, digits.format(number.0).as_bytes()], printer);
}
