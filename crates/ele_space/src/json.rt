//! Removals as JSON. A contract sees their text, and a printer as its outlet.
ghost use Rattle.std.specs.Prelude.{map};
ghost use Rattle.std.specs.List.{join_with_byte};
ghost use Rattle.ele_output.specs.Prints.{Prints};
ghost use Rattle.ele_space.specs.Removals.{removal_json, removals_member};

use crate::removals::Removals;
use ele_forecast_forms::{put_at_moments, put_policy_field};
use ele_forecast_text::Details;
use ele_output::Printer;
use std::io::Write;

/// Puts what the removals under each policy free as a member of an object that others follow.
pub fn put_removals_member<W: Write>(
    details: &Details,
    removals: &[Removals],
    printer: &mut Printer<'_, W>,
)
    ensures { Prints W.contents printer.old printer.new (removals_member details.now removals.now) }
{
    printer.put(b"\"removals\":[");
    put_all(details, removals, printer);
    printer.put(b"\n],\n");
}

// Puts removals, with a comma between each two.
fn put_all<W: Write>(details: &Details, removals: &[Removals], printer: &mut Printer<'_, W>)
    ensures { Prints W.contents printer.old printer.new
        (join_with_byte 44 (map (removal_json details.now) removals.now)) }
{
    let Some((first, rest)) = removals.split_first() else {
        return;
    };
    put_removal(details, first, printer);
    for removal in rest {
        printer.put_byte(b',');
        put_removal(details, removal, printer);
    }
}

// Puts the removals under a policy.
fn put_removal<W: Write>(details: &Details, removal: &Removals, printer: &mut Printer<'_, W>)
    ensures { Prints W.contents printer.old printer.new (removal_json details.now removal.now) }
{
    printer.put_byte(b'\n');
    put_policy_field(removal.word.as_slice(), printer);
    printer.put(b",\"at\":[");
    put_at_moments(details, removal.due.as_slice(), printer);
    printer.put(b"]}");
}
