//! The small parts of JSON: strings and moments. A contract sees a text as its bytes, and a printer as
//! its outlet.
ghost use Rattle.std.specs.Prelude.{◌≡◌, ◌<◌, ◌∷◌, ◌++◌, ◌/◌, ◌%◌, [], codes};
ghost use Rattle.ele_output.specs.Prints.{Prints};
ghost use Rattle.ele_forecast_forms.specs.Json.{digit_of, escaped, moment_or_null, moment_text, string_text};

use ele_forecast_text::stamp_of;
use ele_moment::Moment;
use ele_output::{Printer, put_number};
use std::io::Write;

/// Puts those bytes, and then a string.
pub(crate) fn put_string<W: Write>(before: &[u8], text: &[u8], printer: &mut Printer<'_, W>)
    ensures { Prints W.contents printer.old printer.new (before.now ++ string_text text.now) }
{
    printer.put(before);
    printer.put(b"\"");
    for byte in text {
        put_escaped(*byte, printer);
    }
    printer.put(b"\"");
}

// Puts a byte of a string.
fn put_escaped<W: Write>(byte: u8, printer: &mut Printer<'_, W>)
    ensures { Prints W.contents printer.old printer.new (escaped byte) }
{
    if byte < b' ' {
        put_control(byte, printer);
    } else if byte == b'"' || byte == b'\\' {
        printer.put(&[b'\\', byte]);
    } else {
        printer.put_byte(byte);
    }
}

// Puts the number of a control character.
fn put_control<W: Write>(byte: u8, printer: &mut Printer<'_, W>)
    ensures { Prints W.contents printer.old printer.new
        (codes "\\u00" ++ digit_of (byte / 16) ∷ digit_of (byte % 16) ∷ []) }
{
    printer.put(b"\\u00");
    printer.put(&[digit_of(byte / 16), digit_of(byte % 16)]);
}

// The digit of a number below 16.
fn digit_of(number: u8) -> u8
    requires { number < 16 }
    ensures { result ≡ digit_of number }
{
    if number < 10 {
        b'0' + number
    } else {
        b'a' - 10 + number
    }
}

/// Puts a moment.
pub(crate) fn put_moment<W: Write>(moment: Moment, printer: &mut Printer<'_, W>)
    ensures { Prints W.contents printer.old printer.new (moment_text moment) }
{
    printer.put(b"{\"seconds\":");
    put_number(moment.seconds(), printer);
    printer.put(b",\"text\":\"");
    printer.put(&stamp_of(moment));
    printer.put(b"\"}");
}

/// Puts a moment, or `null` for none.
pub(crate) fn put_moment_or_null<W: Write>(moment: Option<Moment>, printer: &mut Printer<'_, W>)
    ensures { Prints W.contents printer.old printer.new (moment_or_null moment) }
{
    match moment {
        Some(moment) => put_moment(moment, printer),
        None => printer.put(b"null"),
    }
}
