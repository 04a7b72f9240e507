//! A forecast as JSON. A contract sees its text, and a printer as its outlet.
ghost use Rattle.std.specs.Prelude.{Some, decimal, map};
ghost use Rattle.std.specs.List.{join_with_byte};
ghost use Rattle.ele_output.specs.Prints.{Prints};
ghost use Rattle.ele_forecast_forms.specs.Json.{end_text, fate_text, fates_text, json_text, label_field, members_text, plan_text, policy_field, staying_text, total_field, version_text};
ghost use Rattle.ele_forecast_forms.specs.Parts.{forecast_of};

use crate::json_parts::{put_moment, put_moment_or_null, put_string};
use crate::parts::put_size;
use ele_forecast::Forecast;
use ele_forecast_text::{Details, Plan, Staying, bytes_of, name_of, put_reason, versions_of};
use ele_moment::VersionNo;
use ele_output::{Printer, put_number, put_with_number};
use ele_policy::Policy;
use itoa::Buffer;
use std::io::Write;

/// Puts a forecast as JSON: one object, of the plans and of their versions, which are the same.
pub fn put_json<W: Write>(details: &Details, plans: &[Plan], printer: &mut Printer<'_, W>)
    ensures { Prints W.contents printer.old printer.new (json_text details.now plans.now) }
{
    printer.put(b"{");
    put_json_members(details, plans, printer);
}

/// Puts the members of that object, and its end.
pub fn put_json_members<W: Write>(details: &Details, plans: &[Plan], printer: &mut Printer<'_, W>)
    ensures { Prints W.contents printer.old printer.new (members_text details.now plans.now) }
{
    printer.put(b"\"policies\":[");
    put_plans(details, plans, printer);
    printer.put(b"\n],\n\"versions\":[");
    put_versions(details, plans, versions_of(plans), printer);
    printer.put(b"\n]}\n");
}

// Puts plans, with a comma between each two.
fn put_plans<W: Write>(details: &Details, plans: &[Plan], printer: &mut Printer<'_, W>)
    ensures { Prints W.contents printer.old printer.new
        (join_with_byte 44 (map (plan_text details.now) plans.now)) }
{
    let Some((first, rest)) = plans.split_first() else {
        return;
    };
    put_plan(details, first, printer);
    for plan in rest {
        printer.put_byte(b',');
        put_plan(details, plan, printer);
    }
}

// Puts a plan.
fn put_plan<W: Write>(details: &Details, plan: &Plan, printer: &mut Printer<'_, W>)
    ensures { Prints W.contents printer.old printer.new (plan_text details.now plan.now) }
{
    printer.put_byte(b'\n');
    put_policy_field(plan.word.as_slice(), printer);
    printer.put(b",\"at\":[");
    put_at_moments(details, plan.stayings.as_slice(), printer);
    printer.put(b"]}");
}

/// Puts the word of a policy as the first field of an object.
pub fn put_policy_field<W: Write>(word: &[u8], printer: &mut Printer<'_, W>)
    ensures { Prints W.contents printer.old printer.new (policy_field word.now) }
{
    printer.put(b"{\"policy\":\"");
    printer.put(word);
    printer.put(b"\"");
}

/// Puts versions at each of some moments, as those that stay, with a comma between each two.
pub fn put_at_moments<W: Write>(
    details: &Details,
    stayings: &[Staying],
    printer: &mut Printer<'_, W>,
)
    ensures { Prints W.contents printer.old printer.new
        (join_with_byte 44 (map (staying_text details.now) stayings.now)) }
{
    let Some((first, rest)) = stayings.split_first() else {
        return;
    };
    put_staying(details, first, printer);
    for staying in rest {
        printer.put_byte(b',');
        put_staying(details, staying, printer);
    }
}

/// Puts the versions that stay at a moment.
pub fn put_staying<W: Write>(details: &Details, staying: &Staying, printer: &mut Printer<'_, W>)
    ensures { Prints W.contents printer.old printer.new (staying_text details.now staying.now) }
{
    let numbers = staying.numbers.as_slice();
    printer.put(b"{\"moment\":");
    put_moment(staying.at, printer);
    put_with_number(b",\"count\":", numbers.len() as u64, printer);
    put_total(details, numbers, printer);
    printer.put(b",\"numbers\":[");
    put_numbers(numbers, printer);
    printer.put(b"]}");
}

// Puts the bytes of the versions of these numbers together, if versions have sizes.
fn put_total<W: Write>(details: &Details, numbers: &[VersionNo], printer: &mut Printer<'_, W>)
    ensures { Prints W.contents printer.old printer.new (total_field details.now numbers.now) }
{
    if details.columns.sizes {
        let mut digits = Buffer::new();
        let bytes = bytes_of(details.sizes.as_slice(), numbers);
        printer.put(b",\"bytes\":");
        printer.put(digits.format(bytes).as_bytes());
    }
}

// Puts numbers, with a comma between each two.
fn put_numbers<W: Write>(numbers: &[VersionNo], printer: &mut Printer<'_, W>)
    ensures { Prints W.contents printer.old printer.new
        (join_with_byte 44 (map decimal numbers.now)) }
{
    let Some((first, rest)) = numbers.split_first() else {
        return;
    };
    put_number(first.0, printer);
    for number in rest {
        put_with_number(b",", number.0, printer);
    }
}

// Puts versions, with a comma between each two.
fn put_versions<W: Write>(
    details: &Details,
    plans: &[Plan],
    versions: &[Forecast],
    printer: &mut Printer<'_, W>,
)
    ensures { Prints W.contents printer.old printer.new
        (join_with_byte 44 (map (version_text details.now plans.now) versions.now)) }
{
    let Some((first, rest)) = versions.split_first() else {
        return;
    };
    put_version(details, plans, first, printer);
    for version in rest {
        printer.put_byte(b',');
        put_version(details, plans, version, printer);
    }
}

// Puts a version.
fn put_version<W: Write>(
    details: &Details,
    plans: &[Plan],
    version: &Forecast,
    printer: &mut Printer<'_, W>,
)
    ensures { Prints W.contents printer.old printer.new
        (version_text details.now plans.now version.now) }
{
    let number = version.number;
    put_with_number(b"\n{\"number\":", number.0, printer);
    put_label(details, number, printer);
    put_size(b",\"bytes\":", details, number, printer);
    printer.put(b",\"closed\":");
    put_moment(version.closed, printer);
    printer.put(b",\"ended\":");
    put_moment_or_null(version.ended, printer);
    printer.put(b",\"policies\":[");
    put_fates(plans, number, printer);
    printer.put(b"]}");
}

// Puts the label of a version, if versions have labels.
fn put_label<W: Write>(details: &Details, number: VersionNo, printer: &mut Printer<'_, W>)
    ensures { Prints W.contents printer.old printer.new (label_field details.now number) }
{
    if details.columns.labels {
        let mut digits = Buffer::new();
        put_string(
            b",\"label\":",
            name_of(details.labels.as_slice(), number, &mut digits),
            printer,
        );
    }
}

// Puts what each plan says of the version of that number, with a comma between each two.
fn put_fates<W: Write>(plans: &[Plan], number: VersionNo, printer: &mut Printer<'_, W>)
    ensures { Prints W.contents printer.old printer.new (fates_text plans.now number) }
{
    let Some((first, rest)) = plans.split_first() else {
        return;
    };
    put_fate(first, number, printer);
    for plan in rest {
        printer.put_byte(b',');
        put_fate(plan, number, printer);
    }
}

// Puts what a plan says of the version of that number.
fn put_fate<W: Write>(plan: &Plan, number: VersionNo, printer: &mut Printer<'_, W>)
    ensures { Prints W.contents printer.old printer.new
        (fate_text plan.now (forecast_of plan.now number)) }
{
    put_policy_field(plan.word.as_slice(), printer);
    put_end(plan, number, printer);
}

// Puts when the version of that number becomes due, and why.
fn put_end<W: Write>(plan: &Plan, number: VersionNo, printer: &mut Printer<'_, W>)
    ensures { Prints W.contents printer.old printer.new
        (end_text plan.now.policy (forecast_of plan.now number)) }
{
    match plan.forecasts.get(number.before().0 as usize) {
        Some(forecast) => put_forecast(&plan.policy, forecast, printer),
        None => printer.put(b"}"),
    }
}

// Puts when a version becomes due, and why.
fn put_forecast<W: Write>(policy: &Policy, forecast: &Forecast, printer: &mut Printer<'_, W>)
    ensures { Prints W.contents printer.old printer.new (end_text policy.now (Some forecast.now)) }
{
    printer.put(b",\"due\":");
    put_moment_or_null(forecast.ripe, printer);
    printer.put(b",\"why\":\"");
    put_reason(policy, forecast.why, printer);
    printer.put(b"\"}");
}
