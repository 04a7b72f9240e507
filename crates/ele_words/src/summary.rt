//! The summary at the end of a run: how many of its lines were not answered by `ok`.
//! A contract sees what the printer of faults holds then.
ghost use Rattle.std.specs.Prelude.{◌≡◌};
ghost use Rattle.ele_output.specs.Prints.{Prints, outlet};
ghost use Rattle.ele_words.specs.Summary.{IsFirst, TellsSummary, bad_first, first_text, summary_line};

use crate::strict::why_ended;
use ele_output::{Printer, put_with_number};
use ele_reasons::{Reason, put_reason};
use ele_runs::{RunOptions, Tally};
use std::alloc::Global;
use std::io::Write;

/// The first line that was not answered by `ok`, by its number.
#[derive(Clone, Copy, PartialEq, Eq)]
pub(crate) enum First {
    /// It was answered by `no` or `stop`. No line was bad.
    Answered(u64),
    /// It is the first bad one. There was no memory to find the reason.
    Bad(u64),
    /// It is the first bad one, for this reason.
    BadFor(u64, Reason),
}

// Prints which line was the first.
fn put_first<E: Write>(first: First, errors: &mut Printer<'_, E>)
    ensures { Prints E.contents errors.old errors.new (first_text first) }
{
    match first {
        First::Answered(number) => put_with_number(b"the first is line ", number, errors),
        First::Bad(number) => put_with_number(b"the first bad one is line ", number, errors),
        First::BadFor(number, why) => {
            put_with_number(b"the first bad one is line ", number, errors);
            errors.put(b", ");
            put_reason(why, errors);
        }
    }
}

/// Prints the summary of a run, unless all lines were answered by `ok`. A run with numbers has none,
/// since it has reported each line.
pub(crate) fn report_summary<E: Write>(
    alloc: Global,
    options: RunOptions,
    lines: u64,
    tally: &Tally,
    errors: &mut Printer<'_, E>,
)
    ensures { TellsSummary options lines tally.now (outlet E.contents errors.old)
        (outlet E.contents errors.new) }
{
    match first_of(alloc, options, tally) {
        Some(first) => {
            put_summary(lines, tally, first, errors);
            errors.flush();
        }
        None => errors.flush(),
    }
}

// The line that the summary names, if there is a summary.
fn first_of(alloc: Global, options: RunOptions, tally: &Tally) -> Option<First>
    ensures { IsFirst options tally.now result }
{
    if options.numbers {
        return None;
    }
    match &tally.first_bad {
        Some(bad) => {
            let why = why_ended(alloc, options, bad.is_cut, &bad.line);
            Some(bad_first(bad.number, why))
        }
        None => tally.first.map(First::Answered),
    }
}

// The first bad line, with the reason if that is known.
fn bad_first(number: u64, why: Option<Reason>) -> First
    ensures { result ≡ bad_first number why }
{
    match why {
        Some(why) => First::BadFor(number, why),
        None => First::Bad(number),
    }
}

// Prints the summary that names this line.
fn put_summary<E: Write>(lines: u64, tally: &Tally, first: First, errors: &mut Printer<'_, E>)
    ensures { Prints E.contents errors.old errors.new (summary_line lines tally.now first) }
{
    put_with_number(b"elephant: ", tally.bad, errors);
    put_with_number(b" bad, ", tally.refused, errors);
    put_with_number(b" refused and ", tally.stopped, errors);
    put_with_number(b" stopped of ", lines, errors);
    errors.put(b" lines; ");
    put_first(first, errors);
    errors.put(b"; --numbers shows each\n");
}
