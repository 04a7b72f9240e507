//! Who keeps the versions of a list, as a drawing. A contract sees its text, and a printer as its outlet.
ghost use Rattle.std.specs.Prelude.{◌≡◌, ◌<◌, ◌≤◌, ◌-◌, length, slice_get};
ghost use Rattle.std.specs.List.{flat_map};
ghost use Rattle.ele_output.specs.Prints.{Prints};
ghost use Rattle.ele_svg.specs.ComparedDrawing.{all_drawn, closed_in, compared_body, compared_drawing, group_bars, group_count, group_drawn, group_most, groups_drawn};
ghost use Rattle.ele_svg.specs.ComparedKey.{compared_heading, compared_marks, compared_page, group_keeper, group_marks, group_stroke, group_top, group_words, later_of};
ghost use Rattle.ele_svg_marks.specs.Mark.{mark_text};
ghost use Rattle.ele_svg_marks.specs.declared.mark.Fill.TheVariants as fill;
ghost use Rattle.ele_svg_marks.specs.declared.mark.Mark.TheVariants.{Rect};

use crate::rows::put_foot;
use crate::strip::{COLUMNS, bar_height, column_of, larger, put_bar, put_bars};
use ele_against::{Compared, put_bytes};
use ele_forecast::Forecast;
use ele_forecast_text::{Details, first_of, later};
use ele_moment::{Moment, VersionNo};
use ele_output::{Printer, put_with_number};
use ele_svg_marks::{Fill, Mark, Page, Side, Stroke, Words, put_escaped, put_head, put_marks};
use std::io::Write;

/// The versions of a list by who keeps them.
#[derive(Clone, Copy)]
pub(crate) enum Group {
    Both,
    Here,
    There,
}

impl Group {
    // How far from above its strip and what is written above it begin.
    fn top(self) -> u64
        ensures value { result ≡ group_top self }
        ensures small { result ≤ 162 }
    {
        match self {
            Group::Both => 90,
            Group::Here => 126,
            Group::There => 162,
        }
    }

    // How its bars are drawn.
    fn stroke(self) -> Stroke
        ensures { result ≡ group_stroke self }
    {
        match self {
            Group::Both => Stroke::First,
            Group::Here => Stroke::Third,
            Group::There => Stroke::Second,
        }
    }

    // Who keeps its versions.
    fn keeper(self) -> &'static [u8]
        ensures { result.now ≡ group_keeper self }
    {
        match self {
            Group::Both => b"by both",
            Group::Here => b"only here",
            Group::There => b"only there",
        }
    }
}

/// Puts a drawing of who keeps which versions: a strip of all versions, one of those that are kept by both, one of those that
/// are kept only here, and one of those that are kept only there. A bar counts the versions that closed in its column, and the
/// fullest bar fills its strip. Beside each group is how many they are and, if versions have sizes, their bytes. `word` is the
/// policy or the rule by which versions are kept here, in UTF-8 as the title is. Takes no memory.
/// Cost: 374 passes over the versions, and 374 over the groups.
pub fn put_compared_drawing<W: Write>(
    title: &[u8],
    word: &[u8],
    details: &Details,
    forecasts: &[Forecast],
    compared: &Compared,
    printer: &mut Printer<'_, W>,
)
    ensures { Prints W.contents printer.old printer.new
        (compared_drawing title.now word.now details.now forecasts.now compared.now) }
{
    let page = compared_page(forecasts, compared.both.at);
    put_head(&page, title, printer);
    put_compared_heading(word, forecasts.len(), compared.unknown.as_slice(), printer);
    put_foot(&page, printer);
    put_compared_body(&page, details, forecasts, compared, printer);
    printer.put(b"</svg>\n");
}

// The page of a drawing that compares what is kept at that moment.
fn compared_page(forecasts: &[Forecast], at: Moment) -> Page
    ensures { result ≡ compared_page forecasts.now at }
{
    Page {
        first: first_of(forecasts),
        last: last_closing(forecasts, at),
        top: 66,
        foot: 202,
        row: 0,
        labels: 1,
    }
}

// A moment, or the last closing if that is later.
fn last_closing(forecasts: &[Forecast], at: Moment) -> Moment
    ensures { result ≡ later_of at (slice_get forecasts.now (length forecasts.now - 1)) }
{
    match forecasts.last() {
        Some(forecast) => later(at, forecast.closed),
        None => at,
    }
}

// Puts how many versions there are, by what they are kept here, and how many other labels no version has.
fn put_compared_heading<W: Write>(
    word: &[u8],
    count: usize,
    unknown: &[u64],
    printer: &mut Printer<'_, W>,
)
    ensures { Prints W.contents printer.old printer.new
        (compared_heading word.now count (length unknown.now)) }
{
    put_with_number(
        b"<text x='20' y='37' font-size='11'>",
        count as u64,
        printer,
    );
    printer.put(b" versions, kept here by ");
    put_escaped(word, printer);
    printer.put(b", and there by another tool</text>\n");
    put_with_number(
        b"<text x='20' y='53' font-size='10'>bars: how many versions closed then; labels there that no version has: ",
        unknown.len() as u64,
        printer,
    );
    printer.put(b"</text>\n");
}

// Puts the strips, and the moment at which versions are kept here.
fn put_compared_body<W: Write>(
    page: &Page,
    details: &Details,
    forecasts: &[Forecast],
    compared: &Compared,
    printer: &mut Printer<'_, W>,
)
    ensures { Prints W.contents printer.old printer.new
        (compared_body page.now details.now forecasts.now compared.now) }
{
    put_all(page, forecasts, printer);
    put_groups(page, details, forecasts, compared, printer);
    put_marks(&compared_marks(page, compared.both.at), printer);
}

// Puts the strip of all versions.
fn put_all<W: Write>(page: &Page, forecasts: &[Forecast], printer: &mut Printer<'_, W>)
    ensures { Prints W.contents printer.old printer.new (all_drawn page.now forecasts.now) }
{
    put_marks(
        &[
            Mark::Text {
                x: 140,
                y: 77,
                size: 8,
                side: Side::Before,
                words: Words::Closings,
            },
            strip_at(66),
        ],
        printer,
    );
    put_bars(page, 66, 0, forecasts, printer);
}

// The frame of a strip.
fn strip_at(top: u64) -> Mark
    ensures { result ≡ Rect 150 top 746 16 fill.Paper }
{
    Mark::Rect {
        x: 150,
        y: top,
        width: 746,
        height: 16,
        color: Fill::Paper,
    }
}

// Puts the strips of those that both keep, of those that are kept only here, and of those that are kept only there.
fn put_groups<W: Write>(
    page: &Page,
    details: &Details,
    forecasts: &[Forecast],
    compared: &Compared,
    printer: &mut Printer<'_, W>,
)
    ensures { Prints W.contents printer.old printer.new
        (groups_drawn page.now details.now forecasts.now compared.now) }
{
    let both = compared.both.numbers.as_slice();
    let here = compared.here.numbers.as_slice();
    let there = compared.there.numbers.as_slice();
    put_group(page, Group::Both, details, forecasts, both, printer);
    put_group(page, Group::Here, details, forecasts, here, printer);
    put_group(page, Group::There, details, forecasts, there, printer);
}

// Puts the strip of a group, whose versions have these numbers.
fn put_group<W: Write>(
    page: &Page,
    group: Group,
    details: &Details,
    forecasts: &[Forecast],
    numbers: &[VersionNo],
    printer: &mut Printer<'_, W>,
)
    ensures { Prints W.contents printer.old printer.new
        (group_drawn page.now group details.now forecasts.now numbers.now) }
{
    put_marks(&group_marks(group), printer);
    put_group_words(group, details, numbers, printer);
    put_group_bars(page, group, forecasts, numbers, printer);
}

// How the bars of a group are drawn, and their strip.
fn group_marks(group: Group) -> [Mark; 2]
    ensures { result ≡ group_marks group }
{
    let top = group.top();
    [
        Mark::Line {
            from: (104, top + 24),
            to: (140, top + 24),
            stroke: group.stroke(),
        },
        strip_at(top + 16),
    ]
}

// Puts who keeps the versions with these numbers, how many they are and, if versions have sizes, their bytes.
fn put_group_words<W: Write>(
    group: Group,
    details: &Details,
    numbers: &[VersionNo],
    printer: &mut Printer<'_, W>,
)
    ensures { Prints W.contents printer.old printer.new (group_words group details.now numbers.now) }
{
    put_with_number(b"<text x='150' y='", group.top() + 10, printer);
    printer.put(b"' font-size='10'>kept ");
    printer.put(group.keeper());
    put_with_number(b": ", numbers.len() as u64, printer);
    put_bytes(details, numbers, printer);
    printer.put(b"</text>\n");
}

// Puts the bars of a group.
fn put_group_bars<W: Write>(
    page: &Page,
    group: Group,
    forecasts: &[Forecast],
    numbers: &[VersionNo],
    printer: &mut Printer<'_, W>,
)
    ensures { Prints W.contents printer.old printer.new
        (group_bars page.now group forecasts.now numbers.now) }
{
    let top = group.top() + 16;
    let most = group_most(page, forecasts, numbers);
    for column in 0..COLUMNS {
        let count = group_count(page, forecasts, column, numbers);
        put_bar(
            group.stroke(),
            top,
            column,
            bar_height(most, count),
            printer,
        );
    }
}

// The most of the versions with these numbers that closed in one column, and 1 at least.
fn group_most(page: &Page, forecasts: &[Forecast], numbers: &[VersionNo]) -> u64
    ensures value { result ≡ group_most page.now forecasts.now numbers.now }
    ensures some { 0 < result }
{
    let mut most = 1;
    for column in 0..COLUMNS {
        let count = group_count(page, forecasts, column, numbers);
        most = larger(most, count);
    }
    most
}

// How many of the versions with these numbers closed in the column.
fn group_count(page: &Page, forecasts: &[Forecast], column: u64, numbers: &[VersionNo]) -> u64
    ensures { result ≡ group_count page.now forecasts.now column numbers.now }
{
    let mut count = 0;
    for number in numbers {
        count += closed_in(page, column, forecasts, *number);
    }
    count
}

// 1 for a version that closed in the column, and else 0. The number tells its place.
fn closed_in(page: &Page, column: u64, forecasts: &[Forecast], number: VersionNo) -> u64
    ensures value { result ≡ closed_in page.now column (slice_get forecasts.now (number - 1)) }
    ensures small { result ≤ 1 }
{
    match forecasts.get(number.0.saturating_sub(1) as usize) {
        Some(forecast) if column_of(page, forecast) == column => 1,
        _ => 0,
    }
}

// The moment at which versions are kept here.
fn compared_marks(page: &Page, at: Moment) -> [Mark; 2]
    ensures { result ≡ compared_marks page.now at }
{
    let x = page.x(at);
    let foot = page.foot as u64;
    [
        Mark::Line {
            from: (x, page.top as u64),
            to: (x, foot),
            stroke: Stroke::Dashed,
        },
        Mark::Text {
            x,
            y: foot + 26,
            size: 10,
            side: Side::Around,
            words: page.in_seconds(at, Words::Stamp(at)),
        },
    ]
}
