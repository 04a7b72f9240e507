//! Whether times name no offset, and no clock is given for them. A contract sees an input as its bytes.
ghost use Rattle.std.specs.Prelude.{◌≡◌, ◌≤◌, None, drop, length};
ghost use Rattle.std.specs.List.{list_all, list_any};
ghost use Rattle.memchr.specs.Find.{IsFirstByte, is_byte};
ghost use Rattle.ele_outlook.specs.Input.{lines_of};
ghost use Rattle.ele_outlook.specs.Unplaced.{is_fraction, is_unplaced, lacks_offset, line_lacks_offset};

use crate::fields::time_of;
use crate::input::{cut_line, line_end};
use crate::options::{ForecastOptions, LineForm, line_form};

/// The bytes of a date and a time of day.
const SECONDS_END: usize = 19;

/// Whether the time of some line names no offset, and no clock is given.
pub(crate) fn is_unplaced(options: &ForecastOptions, input: &[u8]) -> bool
    ensures { result ≡ is_unplaced options.now input.now }
{
    options.clock.is_none() && some_lacks_offset(line_form(options), input)
}

// Whether the time of some line names no offset.
fn some_lacks_offset(form: LineForm, input: &[u8]) -> bool
    ensures { result ≡ list_any (line_lacks_offset form) (lines_of input.now) }
{
    let mut rest = input;
    'lines: while let Some(at) = line_end(rest) {
        let (line, behind) = cut_line(rest, at);
        if line_lacks_offset(form, line) {
            return true;
        }
        rest = behind;
    }
    last_lacks_offset(form, rest)
}

// Whether the time of the last line names no offset. Without bytes there is no such line.
fn last_lacks_offset(form: LineForm, rest: &[u8]) -> bool
    requires { IsFirstByte (is_byte 10) rest.now None }
    ensures { result ≡ list_any (line_lacks_offset form) (lines_of rest.now) }
{
    if rest.is_empty() {
        return false;
    }
    line_lacks_offset(form, rest)
}

// Whether the time of a line names no offset.
fn line_lacks_offset(form: LineForm, line: &[u8]) -> bool
    ensures { result ≡ line_lacks_offset form line.now }
{
    lacks_offset(time_of(form, line))
}

// Whether a time has a time of day, and names no offset.
fn lacks_offset(time: &[u8]) -> bool
    ensures { result ≡ lacks_offset time.now }
{
    time.len() >= SECONDS_END && ends_in_fraction(time)
}

// Whether at most a fraction follows a date and a time of day.
fn ends_in_fraction(time: &[u8]) -> bool
    requires { 19 ≤ length time.now }
    ensures { result ≡ list_all is_fraction (drop 19 time.now) }
{
    is_fractions(time.split_at(SECONDS_END).1)
}

// Whether each byte is a digit or the point before a fraction.
fn is_fractions(bytes: &[u8]) -> bool
    ensures { result ≡ list_all is_fraction bytes.now }
{
    bytes.iter().all(|byte| is_fraction(*byte))
}

// Whether a byte is a digit, or the point before a fraction.
fn is_fraction(byte: u8) -> bool
    ensures { result ≡ is_fraction byte }
{
    byte == b'.' || byte.is_ascii_digit()
}
