//! Prints the line of a version. A contract sees it as the words of its forecast, and a printer as its
//! outlet.
ghost use Rattle.std.specs.Prelude.{◌≡◌, ◌∷◌, ◌++◌, [], decimal};
ghost use Rattle.ele_output.specs.Prints.{Prints};
ghost use Rattle.ele_forecast_text.specs.Stamp.{stamp_of, stamp_or};
ghost use Rattle.ele_forecast_text.specs.Table.{detailed_line, table_line, told_words};
ghost use Rattle.ele_forecast_text.specs.Why.{spaced};

use crate::details::{Details, put_details};
use crate::why::put_reason;
use ele_forecast::Forecast;
use ele_moment::Moment;
use ele_output::{Printer, put_number, put_words};
use ele_policy::Policy;
use std::io::Write;

/// Returns the date and time of day of a moment, for example `1970-01-01T00:00:00Z`.
pub fn stamp_of(moment: Moment) -> [u8; 20]
    ensures { result ≡ stamp_of moment }
{
    moment.lemma_in_range();
    moment.text()
}

/// Returns the date and time of day of a moment, which go into `stamp`, or `-` for none.
pub(crate) fn stamp_or<'s>(moment: Option<Moment>, stamp: &'s mut [u8; 20]) -> &'s [u8]
    ensures { result.now ≡ stamp_or moment }
{
    match moment {
        Some(moment) => {
            *stamp = stamp_of(moment);
            stamp.as_slice()
        }
        None => b"-",
    }
}

/// Prints the line of a version.
pub fn put_version<W: Write>(policy: &Policy, forecast: &Forecast, printer: &mut Printer<'_, W>)
    ensures { Prints W.contents printer.old printer.new (table_line policy.now forecast.now) }
{
    let number = forecast.number;
    put_number(number.0, printer);
    put_told(policy, forecast, printer);
}

/// Prints the line of a version, with its label and its size.
pub(crate) fn put_detailed<W: Write>(
    policy: &Policy,
    details: &Details,
    forecast: &Forecast,
    printer: &mut Printer<'_, W>,
)
    ensures { Prints W.contents printer.old printer.new
        (detailed_line policy.now details.now forecast.now) }
{
    let number = forecast.number;
    put_number(number.0, printer);
    put_details(details, number, printer);
    put_told(policy, forecast, printer);
}

// Prints a space and a word for each moment of a version, the reason, and a line feed.
fn put_told<W: Write>(policy: &Policy, forecast: &Forecast, printer: &mut Printer<'_, W>)
    ensures { Prints W.contents printer.old printer.new
        (spaced (told_words policy.now forecast.now) ++ 10 ∷ []) }
{
    let mut ended = [0; 20];
    let mut due = [0; 20];
    let closed = stamp_of(forecast.closed);
    let ended = stamp_or(forecast.ended, &mut ended);
    let due = stamp_or(forecast.ripe, &mut due);
    put_words(b"", &[&closed, ended, due], printer);
    printer.put_byte(b' ');
    put_reason(policy, forecast.why, printer);
    printer.put(b"\n");
}
