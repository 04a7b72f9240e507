//! The versions that stay at moments under several policies. A contract sees their lines, and a printer as its
//! outlet.
ghost use Rattle.std.specs.Prelude.{◌≡◌};
ghost use Rattle.std.specs.List.{flat_map};
ghost use Rattle.ele_output.specs.Prints.{Prints};
ghost use Rattle.ele_forecast_forms.specs.Compared.{plan_staying, policy_staying, stayings_text};

use ele_forecast_text::{Details, Plan, Staying, put_kept, stamp_of};
use ele_output::Printer;
use std::io::Write;

/// Puts the lines of so many moments, one for each policy.
pub fn put_stayings<W: Write>(
    details: &Details,
    plans: &[Plan],
    moments: usize,
    printer: &mut Printer<'_, W>,
)
    ensures { Prints W.contents printer.old printer.new (stayings_text details.now plans.now moments) }
{
    for place in 0..moments {
        put_moment(details, place, plans, printer);
    }
}

// Puts the lines of the moment at that place.
fn put_moment<W: Write>(
    details: &Details,
    place: usize,
    plans: &[Plan],
    printer: &mut Printer<'_, W>,
)
    ensures { Prints W.contents printer.old printer.new (flat_map (plan_staying details.now place) plans.now) }
{
    for plan in plans {
        put_plan(details, place, plan, printer);
    }
}

// Puts the line of the moment at that place under the policy of a plan.
fn put_plan<W: Write>(details: &Details, place: usize, plan: &Plan, printer: &mut Printer<'_, W>)
    ensures { Prints W.contents printer.old printer.new (plan_staying details.now place plan.now) }
{
    if let Some(staying) = plan.stayings.get(place) {
        put_staying(details, plan.word.as_slice(), staying, printer);
    }
}

// Puts the line of a moment under the policy of that word.
fn put_staying<W: Write>(
    details: &Details,
    word: &[u8],
    staying: &Staying,
    printer: &mut Printer<'_, W>,
)
    ensures { Prints W.contents printer.old printer.new (policy_staying details.now word.now staying.now) }
{
    printer.put(b"at ");
    printer.put(&stamp_of(staying.at));
    printer.put(b" ");
    printer.put(word);
    put_kept(details, staying.numbers.as_slice(), printer);
}
