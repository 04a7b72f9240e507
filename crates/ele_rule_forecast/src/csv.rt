//! A forecast with rules as CSV. A contract sees its text, and a printer as its outlet.
ghost use Rattle.std.specs.Prelude.{◌∷◌, codes};
ghost use Rattle.std.specs.List.{flat_map};
ghost use Rattle.ele_output.specs.Prints.{Prints};
ghost use Rattle.ele_rule_forecast.specs.RuledCsv.{kept_field, kept_fields, reason_field, rule_heading, rule_headings, ruled_csv, ruled_row};

use crate::judged::{Judged, reason_in};
use crate::reason::put_reason;
use ele_forecast::Forecast;
use ele_forecast_forms::{put_fields, put_heading_fields};
use ele_forecast_text::{Details, Plan, versions_of};
use ele_moment::VersionNo;
use ele_output::Printer;
use ele_peer_rules::Reason;
use std::io::Write;

/// Puts a forecast as CSV: a heading, and a row for each version of the plans. The last fields of a row say what keeps the
/// version under each rule, at the first of the moments.
pub fn put_ruled_csv<W: Write>(
    details: &Details,
    plans: &[Plan],
    rules: &[Judged],
    printer: &mut Printer<'_, W>,
)
    ensures { Prints W.contents printer.old printer.new (ruled_csv details.now plans.now rules.now) }
{
    put_heading_fields(details, plans, printer);
    put_rule_headings(rules, printer);
    let versions = versions_of(plans);
    for version in versions {
        put_row(details, plans, rules, version, printer);
    }
}

// Puts the heading of each rule, and the end of the row.
fn put_rule_headings<W: Write>(rules: &[Judged], printer: &mut Printer<'_, W>)
    ensures { Prints W.contents printer.old printer.new (rule_headings rules.now) }
{
    for rule in rules {
        put_rule_heading(rule.word.as_slice(), printer);
    }
    printer.put(b"\n");
}

// Puts the heading of a rule.
fn put_rule_heading<W: Write>(word: &[u8], printer: &mut Printer<'_, W>)
    ensures { Prints W.contents printer.old printer.new (rule_heading word.now) }
{
    printer.put(b",\"kept ");
    printer.put(word);
    printer.put(b"\"");
}

// Puts the row of a version.
fn put_row<W: Write>(
    details: &Details,
    plans: &[Plan],
    rules: &[Judged],
    version: &Forecast,
    printer: &mut Printer<'_, W>,
)
    ensures { Prints W.contents printer.old printer.new
        (ruled_row details.now plans.now rules.now version.now) }
{
    put_fields(details, plans, version, printer);
    put_kept_fields(rules, version.number, printer);
}

// Puts what keeps the version of that number under each rule, and the end of the row.
fn put_kept_fields<W: Write>(rules: &[Judged], number: VersionNo, printer: &mut Printer<'_, W>)
    ensures { Prints W.contents printer.old printer.new (kept_fields rules.now number) }
{
    for rule in rules {
        put_kept_by(reason_in(rule, number), printer);
    }
    printer.put(b"\n");
}

// Puts a comma and a reason, or nothing more for none.
fn put_kept_by<W: Write>(reason: Option<Reason>, printer: &mut Printer<'_, W>)
    ensures { Prints W.contents printer.old printer.new (reason_field reason) }
{
    printer.put_byte(b',');
    if let Some(reason) = reason {
        put_reason(b' ', reason, printer);
    }
}
