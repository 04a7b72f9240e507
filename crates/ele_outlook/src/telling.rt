//! Reads closings and writes forecasts. A contract sees the bytes that are read and written.
ghost use Rattle.std.specs.Prelude.{◌≡◌, ◌≢◌, ◌∷◌, [], MatchOption, length};
ghost use Rattle.ele_output.specs.Front.{WritesText};
ghost use Rattle.ele_output.specs.Prints.{Prints};
ghost use Rattle.ele_forecast_text.specs.Plan.{ArePlans};
ghost use Rattle.ele_outlook.specs.Foretold.{Foretells, TellsForecast};
ghost use Rattle.ele_outlook.specs.Reading.{IsOfForm, TellsRead};
ghost use Rattle.ele_outlook.specs.Told.{freed_table, is_over, names_policies, plain_table, policy_line, removals_part, rules_part, told_csv, told_json, told_of, told_over_time, told_table};

use crate::against::{put_against, put_against_drawing, word_here};
use crate::fault::ForecastFault;
use crate::found::{Found, find};
use crate::input::{ReadLines, read_input, read_lines};
use crate::options::{ForecastOptions, Form, line_form};
use crate::suggested::put_suggested;
use crate::unplaced::is_unplaced;
use ele_forecast_forms::{is_too_long, put_compared, put_csv, put_json_members, put_over_time};
use ele_forecast_text::{Details, Plan, plans_of, put_names, put_policy, put_table};
use ele_output::{Printer, WriteFault};
use ele_rule_forecast::{Judged, put_ruled, put_ruled_csv, put_rules_member};
use ele_space::{Removals, put_amounts, put_amounts_csv, put_removals, put_removals_member};
use ele_svg::{put_bytes_drawing, put_drawing};
use std::alloc::Global;
use std::io::{Read, Write};

/// Reads the closings of a file to the end of the input: a time a line, then a tab and a size and a tab
/// and a label if the options want these. Writes what becomes of the versions under each policy, and
/// which stay at each moment, in the form of the options; or which of them another tool keeps too, or
/// which policy keeps what is asked. Flushes the writer. The last line may lack
/// its line feed.
///
/// Returns whether times that name no offset were read as UTC, since the options have no clock.
///
/// Only `WriteFault` leaves output behind:
/// - ReadFault: the reader failed. An interrupted read is repeated.
/// - BadInput: the first bad line. It lacks its size or label, or its time is not a moment or is before
///   that of the previous line.
/// - TooLong: a table over time would have more than 400 moments.
/// - WriteFault: the writer failed, took no byte or wasn't flushed. It took a prefix of the output.
/// - NoMemory: memory for the closings or the forecasts was refused.
pub fn write_forecast<R: Read, W: Write>(
    alloc: Global,
    options: &ForecastOptions,
    reader: &mut R,
    writer: &mut W,
) -> Result<bool, ForecastFault>
    ensures { Foretells options.now (R.remaining reader.old) (R.remaining reader.new)
        (W.contents writer.old) (W.contents writer.new) result }
{
    let input = read_input(alloc, reader)?;
    tell(alloc, options, input.as_slice(), writer)?;
    Ok(is_unplaced(options, input.as_slice()))
}

// Writes the forecast of the closings in the input.
fn tell<W: Write>(
    alloc: Global,
    options: &ForecastOptions,
    input: &[u8],
    writer: &mut W,
) -> Result<(), ForecastFault>
    ensures { TellsForecast options.now input.now (W.contents writer.old) (W.contents writer.new) result }
{
    let form = line_form(options);
    let read = read_lines(alloc, form, input)?;
    tell_read(alloc, options, &read, writer)
}

// Writes the forecast of what was read.
fn tell_read<W: Write>(
    alloc: Global,
    options: &ForecastOptions,
    read: &ReadLines,
    writer: &mut W,
) -> Result<(), ForecastFault>
    requires { IsOfForm options.now read.now }
    ensures { TellsRead options.now read.now (W.contents writer.old) (W.contents writer.new) result }
{
    let policies = options.policies.as_slice();
    let moments = options.moments.as_slice();
    let Ok(plans) = plans_of(alloc, policies, &read.closings, moments) else {
        return Err(ForecastFault::NoMemory);
    };
    tell_plans(alloc, options, read, plans.as_slice(), writer)
}

// Writes the forecast of what was read, from its plans.
fn tell_plans<W: Write>(
    alloc: Global,
    options: &ForecastOptions,
    read: &ReadLines,
    plans: &[Plan],
    writer: &mut W,
) -> Result<(), ForecastFault>
    requires form { IsOfForm options.now read.now }
    requires are { ArePlans options.now.policies.items read.now.closings options.now.moments.items plans.now }
    ensures { TellsRead options.now read.now (W.contents writer.old) (W.contents writer.new) result }
{
    if is_over(options.form, plans) {
        return Err(ForecastFault::TooLong);
    }
    let Ok(found) = find(alloc, options, read, plans) else {
        return Err(ForecastFault::NoMemory);
    };
    write_told(options, &read.details, plans, &found, writer)?;
    Ok(())
}

// Whether there are too many moments for the form.
fn is_over(form: Form, plans: &[Plan]) -> bool
    ensures { result ≡ is_over form plans.now }
{
    match form {
        Form::Every(step) | Form::EveryCsv(step) => is_too_long(step, plans),
        Form::Table
        | Form::Drawing
        | Form::BytesDrawing
        | Form::Due
        | Form::Kept
        | Form::Json
        | Form::Csv
        | Form::AgainstDrawing
        | Form::Against(_)
        | Form::Suggest(_) => false,
    }
}

// Returns the plan if there is only one.
fn only_plan(plans: &[Plan]) -> Option<&Plan>
    ensures { MatchOption result (length plans.now ≢ 1) (λ plan. plans.now ≡ plan.now ∷ []) }
{
    if plans.len() == 1 {
        plans.first()
    } else {
        None
    }
}

// Writes the output, and flushes it.
fn write_told<W: Write>(
    options: &ForecastOptions,
    details: &Details,
    plans: &[Plan],
    found: &Found,
    writer: &mut W,
) -> Result<(), WriteFault>
    ensures { WritesText (told_of options.now details.now plans.now found.now)
        (W.contents writer.old) (W.contents writer.new) result }
{
    let mut printer = Printer::new(writer);
    put_told(options, details, plans, found, &mut printer);
    printer.flush();
    printer.check()
}

// Prints the output.
fn put_told<W: Write>(
    options: &ForecastOptions,
    details: &Details,
    plans: &[Plan],
    found: &Found,
    printer: &mut Printer<'_, W>,
)
    ensures { Prints W.contents printer.old printer.new
        (told_of options.now details.now plans.now found.now) }
{
    let judged = found.judged.as_slice();
    let counts = found.counts.as_slice();
    match options.form {
        Form::Table => put_freed_table(options, details, plans, found, printer),
        Form::Drawing => put_drawing(options.title.as_slice(), plans, counts, printer),
        Form::BytesDrawing => {
            put_bytes_drawing(
                options.title.as_slice(),
                plans,
                found.bytes.as_slice(),
                printer,
            );
        }
        Form::Due | Form::Kept => {
            put_names(details.labels.as_slice(), found.listed.as_slice(), printer);
        }
        Form::Json => put_told_json(details, plans, judged, found.removals.as_slice(), printer),
        Form::Csv => put_told_csv(details, plans, judged, printer),
        Form::Every(_) => put_told_over_time(options.sizes, plans, found, printer),
        Form::EveryCsv(_) => {
            put_amounts_csv(options.sizes, plans, found.amounts.as_slice(), printer);
        }
        Form::AgainstDrawing => {
            put_against_drawing(
                options.title.as_slice(),
                details,
                plans,
                judged,
                &found.compared,
                printer,
            );
        }
        Form::Against(layout) => {
            put_against(
                layout,
                details,
                word_here(plans, judged),
                &found.compared,
                printer,
            );
        }
        Form::Suggest(layout) => put_suggested(layout, options.sizes, &found.suggested, printer),
    }
}

// Prints a table over time, with bytes if versions have sizes.
fn put_told_over_time<W: Write>(
    sizes: bool,
    plans: &[Plan],
    found: &Found,
    printer: &mut Printer<'_, W>,
)
    ensures { Prints W.contents printer.old printer.new (told_over_time sizes plans.now found.now) }
{
    if sizes {
        put_amounts(plans, found.amounts.as_slice(), printer);
    } else {
        put_over_time(plans, found.counts.as_slice(), printer);
    }
}

// Prints the table, and what the removals free.
fn put_freed_table<W: Write>(
    options: &ForecastOptions,
    details: &Details,
    plans: &[Plan],
    found: &Found,
    printer: &mut Printer<'_, W>,
)
    ensures { Prints W.contents printer.old printer.new
        (freed_table options.now details.now plans.now found.now) }
{
    let judged = found.judged.as_slice();
    let named = names_policies(plans, judged);
    put_told_table(options, details, plans, judged, printer);
    put_removals(named, details, found.removals.as_slice(), printer);
}

// Whether policies are named: beside others, and beside rules.
fn names_policies(plans: &[Plan], judged: &[Judged]) -> bool
    ensures { result ≡ names_policies plans.now judged.now }
{
    !judged.is_empty() || plans.len() > 1
}

// Prints the table of policies, with what rules keep if there are rules.
fn put_told_table<W: Write>(
    options: &ForecastOptions,
    details: &Details,
    plans: &[Plan],
    judged: &[Judged],
    printer: &mut Printer<'_, W>,
)
    ensures { Prints W.contents printer.old printer.new
        (told_table options.now.named details.now plans.now (length options.now.moments.items) judged.now) }
{
    let moments = options.moments.as_slice();
    if judged.is_empty() {
        put_plain_table(options.named, details, plans, moments.len(), printer);
    } else {
        put_ruled(details, plans, moments.len(), judged, printer);
    }
}

// Prints the table of one policy, or of several side by side.
fn put_plain_table<W: Write>(
    named: bool,
    details: &Details,
    plans: &[Plan],
    moments: usize,
    printer: &mut Printer<'_, W>,
)
    ensures { Prints W.contents printer.old printer.new (plain_table named details.now plans.now moments) }
{
    match only_plan(plans) {
        Some(plan) => {
            put_policy_line(named, plan, printer);
            put_table(plan, details, printer);
        }
        None => put_compared(details, plans, moments, printer),
    }
}

// Prints a line with the policy if `named` holds.
fn put_policy_line<W: Write>(named: bool, plan: &Plan, printer: &mut Printer<'_, W>)
    ensures { Prints W.contents printer.old printer.new (policy_line named plan.now) }
{
    if named {
        printer.put(b"policy ");
        put_policy(&plan.policy, printer);
        printer.put(b"\n");
    }
}

// Prints JSON, with what rules keep and removals free, if there are some.
fn put_told_json<W: Write>(
    details: &Details,
    plans: &[Plan],
    judged: &[Judged],
    removals: &[Removals],
    printer: &mut Printer<'_, W>,
)
    ensures { Prints W.contents printer.old printer.new
        (told_json details.now plans.now judged.now removals.now) }
{
    printer.put(b"{");
    put_rules_part(details, plans, judged, printer);
    put_removals_part(details, removals, printer);
    put_json_members(details, plans, printer);
}

// Prints the rules of an object, if there are some.
fn put_rules_part<W: Write>(
    details: &Details,
    plans: &[Plan],
    judged: &[Judged],
    printer: &mut Printer<'_, W>,
)
    ensures { Prints W.contents printer.old printer.new (rules_part details.now plans.now judged.now) }
{
    if !judged.is_empty() {
        put_rules_member(details, plans, judged, printer);
    }
}

// Prints the removals of an object, if there are some.
fn put_removals_part<W: Write>(
    details: &Details,
    removals: &[Removals],
    printer: &mut Printer<'_, W>,
)
    ensures { Prints W.contents printer.old printer.new (removals_part details.now removals.now) }
{
    if !removals.is_empty() {
        put_removals_member(details, removals, printer);
    }
}

// Prints CSV, with what rules keep if there are rules.
fn put_told_csv<W: Write>(
    details: &Details,
    plans: &[Plan],
    judged: &[Judged],
    printer: &mut Printer<'_, W>,
)
    ensures { Prints W.contents printer.old printer.new (told_csv details.now plans.now judged.now) }
{
    if judged.is_empty() {
        put_csv(details, plans, printer);
    } else {
        put_ruled_csv(details, plans, judged, printer);
    }
}
