//! Prints a forecast as a table. A contract sees the table as its bytes, and a printer as its outlet.
ghost use Rattle.ele_output.specs.Prints.{Prints};
ghost use Rattle.ele_forecast_text.specs.Table.{kept_text, table_text};

use crate::details::{Details, put_headings, put_total};
use crate::plan::Plan;
use crate::row::{put_detailed, stamp_of};
use ele_moment::VersionNo;
use ele_output::{Printer, put_with_number};
use std::io::Write;

/// Prints the table of a plan, with a column for labels and for sizes if versions have them.
pub fn put_table<W: Write>(plan: &Plan, details: &Details, printer: &mut Printer<'_, W>)
    ensures { Prints W.contents printer.old printer.new (table_text details.now plan.now) }
{
    let forecasts = plan.forecasts.as_slice();
    let stayings = plan.stayings.as_slice();
    printer.put(b"version");
    put_headings(details, printer);
    printer.put(b" closed ended due why\n");
    for forecast in forecasts {
        put_detailed(&plan.policy, details, forecast, printer);
    }
    for staying in stayings {
        printer.put(b"at ");
        printer.put(&stamp_of(staying.at));
        put_kept(details, staying.numbers.as_slice(), printer);
    }
}

/// Ends a line with the versions of these numbers: how many stay, their bytes if versions have sizes, and
/// their numbers.
pub fn put_kept<W: Write>(details: &Details, numbers: &[VersionNo], printer: &mut Printer<'_, W>)
    ensures { Prints W.contents printer.old printer.new (kept_text details.now numbers.now) }
{
    put_with_number(b" stay ", numbers.len() as u64, printer);
    put_total(details, numbers, printer);
    printer.put(b":");
    for number in numbers {
        put_with_number(b" ", number.0, printer);
    }
    printer.put(b"\n");
}
