//! Prints why a version becomes due or stays. A contract sees the reason as its words, and a printer as
//! its outlet.
ghost use Rattle.std.specs.Prelude.{◌≡◌, ◌∷◌, ◌++◌, codes, decimal};
ghost use Rattle.std.specs.List.{join_with_byte};
ghost use Rattle.ele_output.specs.Prints.{Prints};
ghost use Rattle.ele_forecast_text.specs.Why.{cause_words, length_words, never_word, spaced, span_words, width_at, width_of, why_words};

use crate::unit::{count_of, unit_of};
use ele_forecast::Why;
use ele_output::{Printer, put_words};
use ele_policy::{Cause, Policy};
use itoa::Buffer;
use std::io::Write;

/// Prints why a version becomes due or stays, in words with a space between each two.
pub fn put_reason<W: Write>(policy: &Policy, why: Why, printer: &mut Printer<'_, W>)
    ensures { Prints W.contents printer.old printer.new
        (join_with_byte 32 (why_words policy.now why)) }
{
    match why {
        Why::Current => printer.put(b"current"),
        Why::Never => printer.put(never_word(policy)),
        Why::AfterLast => printer.put(b"not before the year 10000"),
        Why::Goes(cause) => put_cause(policy, cause, printer),
    }
}

// Prints why a version becomes due.
fn put_cause<W: Write>(policy: &Policy, cause: Cause, printer: &mut Printer<'_, W>)
    ensures { Prints W.contents printer.old printer.new
        (join_with_byte 32 (cause_words policy.now cause)) }
{
    match cause {
        Cause::AtOnce => printer.put(b"only the current one is kept"),
        Cause::Age(interval) => put_length(b"ended for", interval.seconds(), printer),
        Cause::Displaced { level, by } => put_displaced(by.0, width_at(policy, level), printer),
    }
}

// Returns why the policy keeps a version at each age. `One` keeps none that has ended.
fn never_word(policy: &Policy) -> &'static [u8]
    ensures { result.now ≡ never_word policy.now }
{
    match policy {
        Policy::One => b"kept",
        Policy::All => b"all are kept",
        Policy::Safe(_, _) => b"kept by the floor",
        Policy::Landmarks(_) => b"kept as a landmark",
    }
}

/// Prints `front`, a space and a length of time, for example `90 minutes`.
pub fn put_length<W: Write>(front: &[u8], seconds: u64, printer: &mut Printer<'_, W>)
    ensures { Prints W.contents printer.old printer.new
        (join_with_byte 32 (front.now ∷ length_words seconds)) }
{
    let mut digits = Buffer::new();
    let unit = unit_of(seconds);
    let count = count_of(seconds);
    let name = if count == 1 { unit.one() } else { unit.many() };
    put_words(
        front,
        &[digits.format(count).as_bytes(), name.as_bytes()],
        printer,
    );
}

// Prints that version `by` closed in the same span of that width, which is in seconds.
fn put_displaced<W: Write>(by: u64, width: u64, printer: &mut Printer<'_, W>)
    ensures { Prints W.contents printer.old printer.new
        (codes "version" ++ spaced (decimal by ∷ codes "closed in the same" ∷ span_words width)) }
{
    let mut by_digits = Buffer::new();
    let mut digits = Buffer::new();
    let by = by_digits.format(by).as_bytes();
    let unit = unit_of(width);
    let count = count_of(width);
    if count == 1 {
        let name = unit.one().as_bytes();
        return put_words(b"version", &[by, b"closed in the same", name], printer);
    }
    let count = digits.format(count).as_bytes();
    let name = unit.many().as_bytes();
    put_words(
        b"version",
        &[by, b"closed in the same", count, name],
        printer,
    );
}

// Returns the width of the spans at a level of a ladder's pairs, in seconds.
fn width_of(pairs: &[(u64, u64)], level: usize) -> u64
    ensures { result ≡ width_of pairs.now level }
{
    let Some(place) = level.checked_sub(1) else {
        return 0;
    };
    match pairs.get(place) {
        Some(rung) => rung.1,
        None => 0,
    }
}

// Returns the width of the spans at a level of a policy, in seconds.
fn width_at(policy: &Policy, level: usize) -> u64
    ensures { result ≡ width_at policy.now level }
{
    match policy {
        Policy::Landmarks(ladder) => width_of(ladder.pairs(), level),
        Policy::One | Policy::All | Policy::Safe(_, _) => 0,
    }
}
