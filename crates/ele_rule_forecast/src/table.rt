//! The versions of a file under policies and rules, side by side. A contract sees their text, and a printer as its outlet.
ghost use Rattle.std.specs.Prelude.{◌≡◌, ◌∷◌, codes};
ghost use Rattle.std.specs.List.{flat_map};
ghost use Rattle.ele_output.specs.Prints.{Prints};
ghost use Rattle.ele_rule_forecast.specs.RuledTable.{kept_column, reason_word, rule_column, ruled_heading, ruled_line, ruled_text, verdict_line, verdict_lines};

use crate::judged::{Judged, Verdict, reason_in};
use crate::reason::put_reason;
use ele_forecast::Forecast;
use ele_forecast_forms::{put_columns, put_policies, put_stayings};
use ele_forecast_text::{Details, Plan, put_headings, put_kept, stamp_of, versions_of};
use ele_moment::VersionNo;
use ele_output::{Printer, put_word};
use ele_peer_rules::Reason;
use std::io::Write;

/// Puts the table of versions under several policies and rules. A rule's column says what keeps a version at the first of
/// the moments. A line for each of so many moments and each policy follows, and one for each rule and moment.
pub fn put_ruled<W: Write>(
    details: &Details,
    plans: &[Plan],
    moments: usize,
    rules: &[Judged],
    printer: &mut Printer<'_, W>,
)
    ensures { Prints W.contents printer.old printer.new
        (ruled_text details.now plans.now moments rules.now) }
{
    put_heading(details, plans, rules, printer);
    put_versions(details, plans, rules, versions_of(plans), printer);
    put_stayings(details, plans, moments, printer);
    for rule in rules {
        put_verdicts(
            details,
            rule.word.as_slice(),
            rule.verdicts.as_slice(),
            printer,
        );
    }
}

// Puts the heading, with a column for each policy and each rule.
fn put_heading<W: Write>(
    details: &Details,
    plans: &[Plan],
    rules: &[Judged],
    printer: &mut Printer<'_, W>,
)
    ensures { Prints W.contents printer.old printer.new (ruled_heading details.now plans.now rules.now) }
{
    printer.put(b"version");
    put_headings(details, printer);
    printer.put(b" closed ended");
    put_policies(plans, printer);
    for rule in rules {
        put_word(rule.word.as_slice(), printer);
    }
    printer.put(b"\n");
}

// Puts the lines of versions.
fn put_versions<W: Write>(
    details: &Details,
    plans: &[Plan],
    rules: &[Judged],
    versions: &[Forecast],
    printer: &mut Printer<'_, W>,
)
    ensures { Prints W.contents printer.old printer.new
        (flat_map (ruled_line details.now plans.now rules.now) versions.now) }
{
    for version in versions {
        put_version(details, plans, rules, version, printer);
    }
}

// Puts the line of a version.
fn put_version<W: Write>(
    details: &Details,
    plans: &[Plan],
    rules: &[Judged],
    version: &Forecast,
    printer: &mut Printer<'_, W>,
)
    ensures { Prints W.contents printer.old printer.new
        (ruled_line details.now plans.now rules.now version.now) }
{
    put_columns(details, plans, version, printer);
    for rule in rules {
        put_kept_by(reason_in(rule, version.number), printer);
    }
    printer.put(b"\n");
}

// Puts a space and a reason, or `-` for none.
fn put_kept_by<W: Write>(reason: Option<Reason>, printer: &mut Printer<'_, W>)
    ensures { Prints W.contents printer.old printer.new (32 ∷ reason_word reason) }
{
    printer.put_byte(b' ');
    match reason {
        Some(reason) => put_reason(b'#', reason, printer),
        None => printer.put(b"-"),
    }
}

// Puts a line for each moment at which a rule was asked.
fn put_verdicts<W: Write>(
    details: &Details,
    word: &[u8],
    verdicts: &[Verdict],
    printer: &mut Printer<'_, W>,
)
    ensures { Prints W.contents printer.old printer.new
        (flat_map (verdict_line details.now word.now) verdicts.now) }
{
    for verdict in verdicts {
        put_verdict(details, word, verdict, printer);
    }
}

// Puts the line of a moment: which versions the rule keeps then.
fn put_verdict<W: Write>(
    details: &Details,
    word: &[u8],
    verdict: &Verdict,
    printer: &mut Printer<'_, W>,
)
    ensures { Prints W.contents printer.old printer.new (verdict_line details.now word.now verdict.now) }
{
    printer.put(b"at ");
    printer.put(&stamp_of(verdict.staying.at));
    put_word(word, printer);
    put_kept(details, verdict.staying.numbers.as_slice(), printer);
}
