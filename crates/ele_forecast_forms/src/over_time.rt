//! How many versions each policy keeps as time goes on, as a table. A contract sees its text, and a printer as its
//! outlet.
ghost use Rattle.ele_output.specs.Prints.{Prints};
ghost use Rattle.ele_forecast_forms.specs.OverTime.{counts_line, over_time_text};

use crate::compared::put_policies;
use crate::counts::Counts;
use ele_forecast_text::{Plan, stamp_of};
use ele_output::{Printer, put_with_number};
use std::io::Write;

/// Puts a table with a line for each moment, and a column for each policy.
pub fn put_over_time<W: Write>(plans: &[Plan], rows: &[Counts], printer: &mut Printer<'_, W>)
    ensures { Prints W.contents printer.old printer.new (over_time_text plans.now rows.now) }
{
    printer.put(b"at");
    put_policies(plans, printer);
    printer.put(b"\n");
    for row in rows {
        put_row(row, printer);
    }
}

// Puts the line of a moment: how many versions stay then under each policy.
fn put_row<W: Write>(row: &Counts, printer: &mut Printer<'_, W>)
    ensures { Prints W.contents printer.old printer.new (counts_line row.now) }
{
    printer.put(&stamp_of(row.at));
    let counts = row.counts.as_slice();
    for count in counts {
        put_with_number(b" ", *count as u64, printer);
    }
    printer.put(b"\n");
}
