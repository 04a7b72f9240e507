//! What is kept here and there, as JSON. A contract sees its text, and a printer as its outlet.
ghost use Rattle.std.specs.Prelude.{decimal, map};
ghost use Rattle.std.specs.List.{join_with_byte};
ghost use Rattle.ele_output.specs.Prints.{Prints};
ghost use Rattle.ele_against.specs.ComparedJson.{compared_json, unknown_end};

use crate::compared::Compared;
use ele_forecast_forms::put_staying;
use ele_forecast_text::Details;
use ele_output::{Printer, put_number, put_with_number};
use std::io::Write;

/// Puts an object: the versions that are kept by both, only here, and only there, and the lines of the other labels that no
/// version has.
pub fn put_compared_json<W: Write>(
    details: &Details,
    compared: &Compared,
    printer: &mut Printer<'_, W>,
)
    ensures { Prints W.contents printer.old printer.new (compared_json details.now compared.now) }
{
    printer.put(b"{\"both\":");
    put_staying(details, &compared.both, printer);
    printer.put(b",\"only_here\":");
    put_staying(details, &compared.here, printer);
    printer.put(b",\"only_there\":");
    put_staying(details, &compared.there, printer);
    put_unknown(compared.unknown.as_slice(), printer);
}

// Puts lines, and the end of the object.
fn put_unknown<W: Write>(lines: &[u64], printer: &mut Printer<'_, W>)
    ensures { Prints W.contents printer.old printer.new (unknown_end lines.now) }
{
    printer.put(b",\"no_version\":[");
    put_numbers(lines, printer);
    printer.put(b"]}");
}

// Puts numbers, with a comma between each two.
fn put_numbers<W: Write>(numbers: &[u64], printer: &mut Printer<'_, W>)
    ensures { Prints W.contents printer.old printer.new
        (join_with_byte 44 (map decimal numbers.now)) }
{
    let Some((first, rest)) = numbers.split_first() else {
        return;
    };
    put_number(*first, printer);
    for number in rest {
        put_with_number(b",", *number, printer);
    }
}
