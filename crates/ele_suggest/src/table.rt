//! A suggestion as a table and as CSV. A contract sees its text, and a printer as its outlet.
ghost use Rattle.ele_output.specs.Prints.{Prints};
ghost use Rattle.ele_suggest.specs.Suggested.{best_weighed};
ghost use Rattle.ele_suggest.specs.SuggestedText.{best_line, best_word, csv_heading, suggestion_csv, suggestion_text, table_heading};

use crate::row::put_rows;
use crate::suggestion::Suggestion;
use ele_forecast_text::put_policy;
use ele_output::Printer;
use std::io::Write;

/// Prints a row for each policy, in their order: the policy, how many versions stay under it, their bytes if `sizes` holds,
/// and the verdict: `best` for the best, and else `yes` or `no` for whether they are what is asked. The last line is `best`
/// and the best policy, or `none`.
pub fn put_suggestion<W: Write>(sizes: bool, suggestion: &Suggestion, printer: &mut Printer<'_, W>)
    ensures { Prints W.contents printer.old printer.new (suggestion_text sizes suggestion.now) }
{
    put_table_heading(sizes, printer);
    put_rows(b"", b" ", sizes, suggestion, printer);
    put_best_line(suggestion, printer);
}

// Prints the heading of the table.
fn put_table_heading<W: Write>(sizes: bool, printer: &mut Printer<'_, W>)
    ensures { Prints W.contents printer.old printer.new (table_heading sizes) }
{
    if sizes {
        printer.put(b"policy versions bytes keeps\n");
    } else {
        printer.put(b"policy versions keeps\n");
    }
}

// Prints the line of the best policy.
fn put_best_line<W: Write>(suggestion: &Suggestion, printer: &mut Printer<'_, W>)
    ensures { Prints W.contents printer.old printer.new (best_line suggestion.now) }
{
    printer.put(b"best ");
    put_best(suggestion, printer);
    printer.put(b"\n");
}

// Prints the best policy, or `none`.
fn put_best<W: Write>(suggestion: &Suggestion, printer: &mut Printer<'_, W>)
    ensures { Prints W.contents printer.old printer.new (best_word (best_weighed suggestion.now)) }
{
    match suggestion.best_weighed() {
        Some(weighed) => put_policy(&weighed.policy, printer),
        None => printer.put(b"none"),
    }
}

/// Prints the same rows as CSV, after a heading. A policy is within quotation marks, and has none.
pub fn put_suggestion_csv<W: Write>(
    sizes: bool,
    suggestion: &Suggestion,
    printer: &mut Printer<'_, W>,
)
    ensures { Prints W.contents printer.old printer.new (suggestion_csv sizes suggestion.now) }
{
    put_csv_heading(sizes, printer);
    put_rows(b"\"", b",", sizes, suggestion, printer);
}

// Prints the heading of CSV.
fn put_csv_heading<W: Write>(sizes: bool, printer: &mut Printer<'_, W>)
    ensures { Prints W.contents printer.old printer.new (csv_heading sizes) }
{
    if sizes {
        printer.put(b"policy,versions,bytes,keeps\n");
    } else {
        printer.put(b"policy,versions,keeps\n");
    }
}
