//! Numbers in decimal digits.
ghost use Rattle.std.specs.Prelude.{◌<◌, ◌≤◌, ◌+◌, ◌/◌, ◌%◌, ◌∷◌, ◌++◌, [], decimal};
ghost use Rattle.ele_output.specs.Prints.{Prints};

use crate::printer::Printer;
use itoa::Buffer;
use std::io::Write;

/// Prints a number.
#[inline(always)]
#[tactic(auto, using(std::proofs::lemmas::Fmt::decimal_digit))]
pub fn put_number<W: Write>(number: u64, printer: &mut Printer<'_, W>)
    ensures { Prints W.contents printer.old printer.new (decimal number) }
{
    if number < 10 {
        printer.put_byte(b'0' + number as u8);
    } else {
        put_digits(number, printer);
    }
}

// Prints a number of two digits or more. Up to four digits go straight into the buffer: most numbers
// have no more.
#[inline(never)]
#[tactic(auto, using(itoa::proofs::Decimal::decimal_two))]
fn put_digits<W: Write>(number: u64, printer: &mut Printer<'_, W>)
    requires { 10 ≤ number }
    ensures { Prints W.contents printer.old printer.new (decimal number) }
{
    if number < 100 {
        put_pair(number, printer);
    } else if number < 10_000 {
        put_short(number / 100, printer);
        put_pair(number % 100, printer);
    } else {
        put_long(number, printer);
    }
}

// Prints a number of one or two digits.
#[inline(always)]
#[tactic(auto, using(std::proofs::lemmas::Fmt::decimal_digit, itoa::proofs::Decimal::decimal_two))]
fn put_short<W: Write>(number: u64, printer: &mut Printer<'_, W>)
    requires { number < 100 }
    ensures { Prints W.contents printer.old printer.new (decimal number) }
{
    if number < 10 {
        printer.put_byte(b'0' + number as u8);
    } else {
        put_pair(number, printer);
    }
}

// Prints two digits.
#[inline(always)]
fn put_pair<W: Write>(number: u64, printer: &mut Printer<'_, W>)
    requires { number < 100 }
    ensures { Prints W.contents printer.old printer.new
        ((48 + number / 10) ∷ (48 + number % 10) ∷ []) }
{
    printer.put_byte(b'0' + (number / 10) as u8);
    printer.put_byte(b'0' + (number % 10) as u8);
}

// Prints a number of any length.
#[inline(never)]
fn put_long<W: Write>(number: u64, printer: &mut Printer<'_, W>)
    ensures { Prints W.contents printer.old printer.new (decimal number) }
{
    let mut digits = Buffer::new();
    printer.put(digits.format(number).as_bytes());
}

/// Prints a prefix and then a number.
pub fn put_with_number<W: Write>(before: &[u8], number: u64, printer: &mut Printer<'_, W>)
    ensures { Prints W.contents printer.old printer.new (before.now ++ decimal number) }
{
    printer.put(before);
    put_number(number, printer);
}
