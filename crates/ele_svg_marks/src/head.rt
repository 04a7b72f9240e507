//! What stands above a drawing. A contract sees its text, and a printer as its outlet.
ghost use Rattle.std.specs.Prelude.{◌≡◌};
ghost use Rattle.std.specs.List.{flat_map};
ghost use Rattle.ele_output.specs.Prints.{Prints};
ghost use Rattle.ele_forecast_text.specs.Why.{spaced};
ghost use Rattle.ele_svg_marks.specs.Escaped.{begun_after, escaped, escaped_at, escaped_byte, titled};
ghost use Rattle.ele_svg_marks.specs.Head.{floor_words, head_drawn, heading_drawn, legend_drawn, policy_name, rung_text};

use crate::mark::put_parts;
use crate::page::Page;
use ele_forecast_text::put_length;
use ele_output::{Printer, put_with_number, put_words};
use ele_policy::{Floor, Policy};
use itoa::Buffer;
use std::io::Write;

/// Puts the document's opening, its title, its background and what its hatches are.
pub fn put_head<W: Write>(page: &Page, title: &[u8], printer: &mut Printer<'_, W>)
    ensures { Prints W.contents printer.old printer.new (head_drawn page.now title.now) }
{
    let mut digits = Buffer::new();
    let height = digits.format(page.height()).as_bytes();
    put_parts(
        &[
            b"<?xml version='1.0' encoding='UTF-8'?>\n",
            b"<!DOCTYPE svg PUBLIC '-//W3C//DTD SVG 1.1//EN' 'http://www.w3.org/Graphics/SVG/1.1/DTD/svg11.dtd'>\n",
            b"<svg xmlns='http://www.w3.org/2000/svg' version='1.1' font-family='sans-serif' width='960' height='",
            height,
            b"'>\n<title>",
        ],
        printer,
    );
    put_titled(title, printer);
    put_parts(
        &[
            b"</title>\n<style>text{paint-order:stroke;stroke:#fff;stroke-width:5px;stroke-linejoin:round}\n",
            b"@media (prefers-color-scheme:dark){text{fill:#e6e6e6;stroke:#1b1e23}[fill='#fff']{fill:#1b1e23}[fill='#000']{fill:#fff}[fill='#14375a']{fill:#8fc1f0}\n",
            b"[stroke='#000']{stroke:#ccc}[stroke='#bbb']{stroke:#4a4f57}[stroke='#555']{stroke:#999}[stroke='#14375a']{stroke:#8fc1f0}[stroke='#7d3c98']{stroke:#c39bd3}[stroke='#d35400']{stroke:#f0955a}}</style>\n",
            b"<defs><pattern id='hatch' width='6' height='6' patternUnits='userSpaceOnUse'><path d='M0,6 6,0' stroke='#555' stroke-width='0.8'/></pattern></defs>\n",
            b"<rect width='960' height='",
            height,
            b"' fill='#fff'/>\n<text x='20' y='20' font-size='15'>",
        ],
        printer,
    );
    put_titled(title, printer);
    printer.put(b"</text>\n");
}

// Puts a title, or what stands in its place.
fn put_titled<W: Write>(title: &[u8], printer: &mut Printer<'_, W>)
    ensures { Prints W.contents printer.old printer.new (titled title.now) }
{
    match title {
        [] => printer.put(b"Retention forecast"),
        [_, ..] => put_escaped(title, printer),
    }
}

/// Puts a text, as XML has it.
pub fn put_escaped<W: Write>(title: &[u8], printer: &mut Printer<'_, W>)
    ensures { Prints W.contents printer.old printer.new (escaped title.now) }
{
    let mut begun = 0;
    for byte in title {
        put_escaped_at(begun, *byte, printer);
        begun = begun_after(begun, *byte);
    }
}

// How many bytes that begin U+FFFE and U+FFFF there are up to this one, after so many before it.
fn begun_after(begun: u64, byte: u8) -> u64
    ensures { result ≡ begun_after begun byte }
{
    if byte == 239 {
        1
    } else if begun == 1 && byte == 191 {
        2
    } else {
        0
    }
}

// Puts a byte of a title after so many bytes that begin U+FFFE and U+FFFF.
fn put_escaped_at<W: Write>(begun: u64, byte: u8, printer: &mut Printer<'_, W>)
    ensures { Prints W.contents printer.old printer.new (escaped_at begun byte) }
{
    if begun == 2 && byte >= 190 && byte <= 191 {
        printer.put(&[189]);
    } else {
        put_escaped_byte(byte, printer);
    }
}

// Puts a byte of a title.
fn put_escaped_byte<W: Write>(byte: u8, printer: &mut Printer<'_, W>)
    ensures { Prints W.contents printer.old printer.new (escaped_byte byte) }
{
    match byte {
        b'&' => printer.put(b"&amp;"),
        b'<' => printer.put(b"&lt;"),
        b'>' => printer.put(b"&gt;"),
        b'\'' => printer.put(b"&#39;"),
        b'"' => printer.put(b"&quot;"),
        0..=31 | 127 => printer.put(b" "),
        _ => printer.put(&[byte]),
    }
}

/// Puts how many versions there are, and their policy.
pub fn put_heading<W: Write>(policy: &Policy, count: usize, printer: &mut Printer<'_, W>)
    ensures { Prints W.contents printer.old printer.new (heading_drawn policy.now count) }
{
    put_with_number(
        b"<text x='20' y='37' font-size='11'>",
        count as u64,
        printer,
    );
    printer.put(b" versions under");
    put_name(policy, printer);
    printer.put(b"</text>\n");
}

/// Puts a space and the name of a policy with its numbers.
pub fn put_name<W: Write>(policy: &Policy, printer: &mut Printer<'_, W>)
    ensures { Prints W.contents printer.old printer.new (policy_name policy.now) }
{
    match policy {
        Policy::One => printer.put(b" Keep One"),
        Policy::All => printer.put(b" Keep All"),
        Policy::Safe(interval, floor) => {
            put_length(b" Keep Safe for", interval.seconds(), printer);
            put_floor(*floor, printer);
        }
        Policy::Landmarks(ladder) => {
            printer.put(b" Keep Landmarks (age / span)");
            put_rungs(ladder.pairs(), printer);
        }
    }
}

// Puts a space and the name of a floor, or nothing for none.
fn put_floor<W: Write>(floor: Floor, printer: &mut Printer<'_, W>)
    ensures { Prints W.contents printer.old printer.new (spaced (floor_words floor)) }
{
    let versions = floor.number();
    if versions == 0 {
        return;
    }
    let mut digits = Buffer::new();
    put_words(
        b" with a floor of",
        &[digits.format(versions).as_bytes()],
        printer,
    );
}

// Puts the levels of a ladder.
fn put_rungs<W: Write>(rungs: &[(u64, u64)], printer: &mut Printer<'_, W>)
    ensures { Prints W.contents printer.old printer.new (flat_map rung_text rungs.now) }
{
    for rung in rungs {
        put_length(b",", rung.0, printer);
        put_length(b" /", rung.1, printer);
    }
}

/// Puts what the colours of a row mean.
pub fn put_legend<W: Write>(printer: &mut Printer<'_, W>)
    ensures { Prints W.contents printer.old printer.new legend_drawn }
{
    put_parts(
        &[
            b"<g font-size='10'>\n<rect x='20' y='47' width='8' height='8' fill='#fff' stroke='#000' stroke-width='0.6'/><text x='33' y='55'>closed</text>\n",
            b"<rect x='90' y='48' width='20' height='6' fill='#14375a' stroke='#000' stroke-width='0.6'/><text x='115' y='55'>current</text>\n",
            b"<rect x='180' y='48' width='20' height='6' fill='#3f7fbf' stroke='#000' stroke-width='0.6'/><text x='205' y='55'>kept by the policy</text>\n",
            b"<rect x='320' y='49' width='20' height='3' fill='#f5b041' stroke='#000' stroke-width='0.6'/><text x='345' y='55'>due: may be removed</text>\n",
            b"<rect x='475' y='47' width='8' height='8' fill='#000' stroke='#000' stroke-width='0.6'/><text x='488' y='55'>stays at the moment of a broken line</text>\n</g>\n",
        ],
        printer,
    );
}
