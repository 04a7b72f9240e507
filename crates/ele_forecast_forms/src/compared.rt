//! The versions of a file under several policies. A contract sees their text, and a printer as its outlet.
ghost use Rattle.std.specs.Prelude.{◌≡◌, ◌∷◌};
ghost use Rattle.std.specs.List.{flat_map};
ghost use Rattle.ele_output.specs.Prints.{Prints};
ghost use Rattle.ele_forecast_forms.specs.Compared.{compared_columns, compared_line, compared_text, due_word, policy_column};
ghost use Rattle.ele_forecast_text.specs.Stamp.{stamp_or};

use crate::stayings::put_stayings;
use ele_forecast::Forecast;
use ele_forecast_text::{Details, Plan, put_details, put_headings, stamp_of, versions_of};
use ele_moment::{Moment, VersionNo};
use ele_output::{Printer, put_number, put_word};
use std::io::Write;

/// Puts the table of versions under several policies, with a line for each of so many moments and each policy. Each
/// version has its details.
pub fn put_compared<W: Write>(
    details: &Details,
    plans: &[Plan],
    moments: usize,
    printer: &mut Printer<'_, W>,
)
    ensures { Prints W.contents printer.old printer.new
        (compared_text details.now plans.now moments) }
{
    printer.put(b"version");
    put_headings(details, printer);
    printer.put(b" closed ended");
    put_policies(plans, printer);
    printer.put(b"\n");
    let versions = versions_of(plans);
    for version in versions {
        put_version(details, plans, version, printer);
    }
    put_stayings(details, plans, moments, printer);
}

/// Puts a space and the word of each policy.
pub fn put_policies<W: Write>(plans: &[Plan], printer: &mut Printer<'_, W>)
    ensures { Prints W.contents printer.old printer.new (flat_map policy_column plans.now) }
{
    for plan in plans {
        printer.put(b" ");
        printer.put(plan.word.as_slice());
    }
}

// Puts the line of a version.
fn put_version<W: Write>(
    details: &Details,
    plans: &[Plan],
    forecast: &Forecast,
    printer: &mut Printer<'_, W>,
)
    ensures { Prints W.contents printer.old printer.new
        (compared_line details.now plans.now forecast.now) }
{
    put_columns(details, plans, forecast, printer);
    printer.put(b"\n");
}

/// Puts the columns of a version: its number, its details, when it closed and ended, and the moment from which it may be
/// forgotten under each policy.
pub fn put_columns<W: Write>(
    details: &Details,
    plans: &[Plan],
    forecast: &Forecast,
    printer: &mut Printer<'_, W>,
)
    ensures { Prints W.contents printer.old printer.new
        (compared_columns details.now plans.now forecast.now) }
{
    let number = forecast.number;
    put_number(number.0, printer);
    put_details(details, number, printer);
    put_word(&stamp_of(forecast.closed), printer);
    put_moment(forecast.ended, printer);
    for plan in plans {
        put_moment(due(number, plan.forecasts.as_slice()), printer);
    }
}

// Puts a space and a moment, or `-` for none.
fn put_moment<W: Write>(moment: Option<Moment>, printer: &mut Printer<'_, W>)
    ensures { Prints W.contents printer.old printer.new (32 ∷ stamp_or moment) }
{
    match moment {
        Some(moment) => put_word(&stamp_of(moment), printer),
        None => printer.put(b" -"),
    }
}

// The moment from which the version of that number may be forgotten.
fn due(number: VersionNo, forecasts: &[Forecast]) -> Option<Moment>
    ensures { stamp_or result ≡ due_word forecasts.now number }
{
    match forecasts.get(number.before().0 as usize) {
        Some(forecast) => forecast.ripe,
        None => None,
    }
}
