//! A forecast as CSV. A contract sees its text, and a printer as its outlet.
ghost use Rattle.std.specs.Prelude.{◌∷◌, Some};
ghost use Rattle.ele_output.specs.Prints.{Prints};
ghost use Rattle.ele_forecast_text.specs.Labels.{name_of};
ghost use Rattle.ele_forecast_forms.specs.Csv.{csv_text, doubled, fate_fields, heading_fields, heading_row, moment_field, policy_headings, quoted, row_fields, version_row};
ghost use Rattle.ele_forecast_forms.specs.Parts.{forecast_of, part_if};

use crate::parts::{put_part, put_size};
use ele_forecast::Forecast;
use ele_forecast_text::{Details, Plan, name_of, put_reason, stamp_of, versions_of};
use ele_moment::{Moment, VersionNo};
use ele_output::{Printer, put_number};
use ele_policy::Policy;
use itoa::Buffer;
use std::io::Write;

/// Puts a forecast as CSV: a heading, and a row for each version of the plans, which are of the same
/// versions.
pub fn put_csv<W: Write>(details: &Details, plans: &[Plan], printer: &mut Printer<'_, W>)
    ensures { Prints W.contents printer.old printer.new (csv_text details.now plans.now) }
{
    put_heading(details, plans, printer);
    let versions = versions_of(plans);
    for version in versions {
        put_row(details, plans, version, printer);
    }
}

// Puts the heading.
fn put_heading<W: Write>(details: &Details, plans: &[Plan], printer: &mut Printer<'_, W>)
    ensures { Prints W.contents printer.old printer.new (heading_row details.now plans.now) }
{
    put_heading_fields(details, plans, printer);
    printer.put(b"\n");
}

/// Puts the fields of the heading, with two for each policy.
pub fn put_heading_fields<W: Write>(details: &Details, plans: &[Plan], printer: &mut Printer<'_, W>)
    ensures { Prints W.contents printer.old printer.new (heading_fields details.now plans.now) }
{
    printer.put(b"version");
    put_part(details.columns.labels, b",label", printer);
    put_part(details.columns.sizes, b",bytes", printer);
    printer.put(b",closed,ended");
    for plan in plans {
        put_policy_headings(plan.word.as_slice(), printer);
    }
}

// Puts the headings of the policy of that word.
fn put_policy_headings<W: Write>(word: &[u8], printer: &mut Printer<'_, W>)
    ensures { Prints W.contents printer.old printer.new (policy_headings word.now) }
{
    printer.put(b",\"due ");
    printer.put(word);
    printer.put(b"\",\"why ");
    printer.put(word);
    printer.put(b"\"");
}

// Puts the row of a version.
fn put_row<W: Write>(
    details: &Details,
    plans: &[Plan],
    version: &Forecast,
    printer: &mut Printer<'_, W>,
)
    ensures { Prints W.contents printer.old printer.new
        (version_row details.now plans.now version.now) }
{
    put_fields(details, plans, version, printer);
    printer.put(b"\n");
}

/// Puts the fields of a version: its number, its label and its size, when it closed and ended, and what each plan says of
/// it.
pub fn put_fields<W: Write>(
    details: &Details,
    plans: &[Plan],
    version: &Forecast,
    printer: &mut Printer<'_, W>,
)
    ensures { Prints W.contents printer.old printer.new
        (row_fields details.now plans.now version.now) }
{
    let number = version.number;
    put_number(number.0, printer);
    put_label(details, number, printer);
    put_size(b",", details, number, printer);
    put_moment(Some(version.closed), printer);
    put_moment(version.ended, printer);
    for plan in plans {
        put_fate(plan, number, printer);
    }
}

// Puts the label of a version, if versions have labels.
fn put_label<W: Write>(details: &Details, number: VersionNo, printer: &mut Printer<'_, W>)
    ensures { Prints W.contents printer.old printer.new (part_if details.now.columns.labels
        (44 ∷ quoted (name_of details.now.labels.items number))) }
{
    if details.columns.labels {
        let mut digits = Buffer::new();
        put_quoted(
            name_of(details.labels.as_slice(), number, &mut digits),
            printer,
        );
    }
}

// Puts a comma, and a field within quotation marks.
fn put_quoted<W: Write>(text: &[u8], printer: &mut Printer<'_, W>)
    ensures { Prints W.contents printer.old printer.new (44 ∷ quoted text.now) }
{
    printer.put(b",\"");
    for byte in text {
        put_byte(*byte, printer);
    }
    printer.put(b"\"");
}

// Puts a byte, twice if it is a quotation mark.
fn put_byte<W: Write>(byte: u8, printer: &mut Printer<'_, W>)
    ensures { Prints W.contents printer.old printer.new (doubled byte) }
{
    match byte {
        b'"' => printer.put(b"\"\""),
        _ => printer.put_byte(byte),
    }
}

// Puts a comma and a moment, or nothing more for none.
fn put_moment<W: Write>(moment: Option<Moment>, printer: &mut Printer<'_, W>)
    ensures { Prints W.contents printer.old printer.new (moment_field moment) }
{
    printer.put_byte(b',');
    if let Some(moment) = moment {
        printer.put(&stamp_of(moment));
    }
}

// Puts what a plan says of the version of that number, and two empty fields if it says nothing.
fn put_fate<W: Write>(plan: &Plan, number: VersionNo, printer: &mut Printer<'_, W>)
    ensures { Prints W.contents printer.old printer.new
        (fate_fields plan.now.policy (forecast_of plan.now number)) }
{
    match plan.forecasts.get(number.before().0 as usize) {
        Some(forecast) => put_forecast(&plan.policy, forecast, printer),
        None => printer.put(b",,"),
    }
}

// Puts when a version becomes due, and why.
fn put_forecast<W: Write>(policy: &Policy, forecast: &Forecast, printer: &mut Printer<'_, W>)
    ensures { Prints W.contents printer.old printer.new (fate_fields policy.now (Some forecast.now)) }
{
    put_moment(forecast.ripe, printer);
    printer.put_byte(b',');
    put_reason(policy, forecast.why, printer);
}
