//! The row of a policy in a table and in CSV. A contract sees its text, and a printer as its outlet.
ghost use Rattle.std.specs.Prelude.{◌≡◌, ◌++◌, decimal};
ghost use Rattle.ele_output.specs.Prints.{Prints};
ghost use Rattle.ele_forecast_forms.specs.Parts.{part_if};
ghost use Rattle.ele_suggest.specs.SuggestedText.{cells_text, is_best, row_text, rows_text, verdict_word};

use crate::suggestion::Suggestion;
use crate::weighed::Weighed;
use ele_forecast_text::put_policy;
use ele_output::{Printer, put_with_number};
use itoa::Buffer;
use std::io::Write;

/// Prints the rows of all policies, each with its word between `around` and `around`, and its cells after `between`.
pub(crate) fn put_rows<W: Write>(
    around: &[u8],
    between: &[u8],
    sizes: bool,
    suggestion: &Suggestion,
    printer: &mut Printer<'_, W>,
)
    ensures { Prints W.contents printer.old printer.new
        (rows_text around.now between.now sizes suggestion.now) }
{
    let weighed = suggestion.weighed.as_slice();
    for place in 0..weighed.len() {
        let best = is_best(suggestion.best, place);
        put_row(around, between, sizes, best, &weighed[place], printer);
    }
}

// Prints the row of a policy.
fn put_row<W: Write>(
    around: &[u8],
    between: &[u8],
    sizes: bool,
    best: bool,
    weighed: &Weighed,
    printer: &mut Printer<'_, W>,
)
    ensures { Prints W.contents printer.old printer.new
        (row_text around.now between.now sizes best weighed.now) }
{
    printer.put(around);
    put_policy(&weighed.policy, printer);
    printer.put(around);
    put_cells(between, sizes, best, weighed, printer);
}

// Prints how many versions stay, their bytes if versions have sizes, the verdict, and the end of the line.
fn put_cells<W: Write>(
    between: &[u8],
    sizes: bool,
    best: bool,
    weighed: &Weighed,
    printer: &mut Printer<'_, W>,
)
    ensures { Prints W.contents printer.old printer.new
        (cells_text between.now sizes best weighed.now) }
{
    let numbers = weighed.numbers.as_slice();
    put_with_number(between, numbers.len() as u64, printer);
    put_bytes(between, sizes, weighed.bytes, printer);
    printer.put(between);
    printer.put(verdict(best, weighed.keeps).as_bytes());
    printer.put(b"\n");
}

/// Prints `before` and a number of bytes, if versions have sizes.
pub(crate) fn put_bytes<W: Write>(
    before: &[u8],
    sizes: bool,
    bytes: u128,
    printer: &mut Printer<'_, W>,
)
    ensures { Prints W.contents printer.old printer.new
        (part_if sizes (before.now ++ decimal bytes)) }
{
    if sizes {
        let mut digits = Buffer::new();
        printer.put(before);
        printer.put(digits.format(bytes).as_bytes());
    }
}

// Whether the place is that of the best.
fn is_best(best: Option<usize>, place: usize) -> bool
    ensures { result ≡ is_best best place }
{
    match best {
        Some(best) => best == place,
        None => false,
    }
}

// Whether a policy is the best, or else whether it keeps what is asked.
fn verdict(best: bool, keeps: bool) -> &'static str
    ensures { result.now ≡ verdict_word best keeps }
{
    match (best, keeps) {
        (true, _) => "best",
        (false, true) => "yes",
        (false, false) => "no",
    }
}
