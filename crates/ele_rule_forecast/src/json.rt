//! Rules of a forecast as JSON. A contract sees its text, and a printer as its outlet.
ghost use Rattle.std.specs.Prelude.{◌∷◌, codes, map};
ghost use Rattle.std.specs.List.{join_with_byte};
ghost use Rattle.ele_output.specs.Prints.{Prints};
ghost use Rattle.ele_rule_forecast.specs.RuledJson.{quoted_reason, reason_or_null, rule_text, rules_member, verdict_text, why_texts};

use crate::judged::{Judged, Verdict, reason_in};
use crate::reason::put_reason;
use ele_forecast::Forecast;
use ele_forecast_forms::put_staying;
use ele_forecast_text::{Details, Plan, versions_of};
use ele_output::Printer;
use ele_peer_rules::Reason;
use std::io::Write;

/// Puts rules, and what they keep of the versions of the plans, as a member of an object that others follow.
pub fn put_rules_member<W: Write>(
    details: &Details,
    plans: &[Plan],
    rules: &[Judged],
    printer: &mut Printer<'_, W>,
)
    ensures { Prints W.contents printer.old printer.new (rules_member details.now plans.now rules.now) }
{
    printer.put(b"\"rules\":[");
    put_rules(details, versions_of(plans), rules, printer);
    printer.put(b"\n],\n");
}

// Puts rules, with a comma between each two.
fn put_rules<W: Write>(
    details: &Details,
    versions: &[Forecast],
    rules: &[Judged],
    printer: &mut Printer<'_, W>,
)
    ensures { Prints W.contents printer.old printer.new
        (join_with_byte 44 (map (rule_text details.now versions.now) rules.now)) }
{
    let Some((first, rest)) = rules.split_first() else {
        return;
    };
    put_rule(details, versions, first, printer);
    for rule in rest {
        printer.put_byte(b',');
        put_rule(details, versions, rule, printer);
    }
}

// Puts a rule.
fn put_rule<W: Write>(
    details: &Details,
    versions: &[Forecast],
    rule: &Judged,
    printer: &mut Printer<'_, W>,
)
    ensures { Prints W.contents printer.old printer.new (rule_text details.now versions.now rule.now) }
{
    printer.put(b"\n{\"rule\":\"");
    printer.put(rule.word.as_slice());
    printer.put(b"\",\"at\":[");
    put_verdicts(details, rule.verdicts.as_slice(), printer);
    printer.put(b"],\"why\":[");
    put_whys(versions, rule, printer);
    printer.put(b"]}");
}

// Puts what a rule keeps at each of the moments, with a comma between each two.
fn put_verdicts<W: Write>(details: &Details, verdicts: &[Verdict], printer: &mut Printer<'_, W>)
    ensures { Prints W.contents printer.old printer.new
        (join_with_byte 44 (map (verdict_text details.now) verdicts.now)) }
{
    let Some((first, rest)) = verdicts.split_first() else {
        return;
    };
    put_staying(details, &first.staying, printer);
    for verdict in rest {
        printer.put_byte(b',');
        put_staying(details, &verdict.staying, printer);
    }
}

// Puts what keeps each version at the first of the moments, with a comma between each two.
fn put_whys<W: Write>(versions: &[Forecast], rule: &Judged, printer: &mut Printer<'_, W>)
    ensures { Prints W.contents printer.old printer.new (why_texts versions.now rule.now) }
{
    let Some((first, rest)) = versions.split_first() else {
        return;
    };
    put_why(reason_in(rule, first.number), printer);
    for version in rest {
        printer.put_byte(b',');
        put_why(reason_in(rule, version.number), printer);
    }
}

// Puts a reason, or `null` for none.
fn put_why<W: Write>(reason: Option<Reason>, printer: &mut Printer<'_, W>)
    ensures { Prints W.contents printer.old printer.new (reason_or_null reason) }
{
    match reason {
        Some(reason) => put_quoted(reason, printer),
        None => printer.put(b"null"),
    }
}

// Puts a reason as a string.
fn put_quoted<W: Write>(reason: Reason, printer: &mut Printer<'_, W>)
    ensures { Prints W.contents printer.old printer.new (quoted_reason reason) }
{
    printer.put(b"\"");
    put_reason(b' ', reason, printer);
    printer.put(b"\"");
}
