//! Prints policies. A contract sees a policy as itself, and a printer as its outlet.
ghost use Rattle.std.specs.Prelude.{◌∷◌, ◌++◌, codes};
ghost use Rattle.ele_policy.specs.PolicyText.{floor_word, ladder_word, policy_word};
ghost use Rattle.ele_output.specs.Prints.{Prints};

use crate::pieces::put_pieces;
use ele_output::{Printer, put_with_number};
use ele_policy::{Floor, Ladder, Policy};
use std::io::Write;

/// Prints a space and a policy.
#[inline(never)]
pub(crate) fn put_policy<W: Write>(policy: &Policy, printer: &mut Printer<'_, W>)
    ensures { Prints W.contents printer.old printer.new (32 ∷ policy_word policy.now) }
{
    match policy {
        Policy::One => printer.put(b" one"),
        Policy::All => printer.put(b" all"),
        Policy::Safe(interval, floor) => {
            put_with_number(b" safe:", interval.seconds(), printer);
            put_floor(*floor, printer);
        }
        Policy::Landmarks(ladder) => put_ladder(ladder, printer),
    }
}

// Prints a slash and a floor, or nothing for no floor.
fn put_floor<W: Write>(floor: Floor, printer: &mut Printer<'_, W>)
    ensures { Prints W.contents printer.old printer.new (floor_word floor) }
{
    match floor.number() {
        0 => {}
        versions => put_with_number(b"/", versions, printer),
    }
}

// Prints a space, `landmarks:` and the pairs of a ladder.
fn put_ladder<W: Write>(ladder: &Ladder, printer: &mut Printer<'_, W>)
    ensures { Prints W.contents printer.old printer.new
        (codes " landmarks:" ++ ladder_word ladder.now) }
{
    printer.put(b" landmarks:");
    put_pieces(ladder.pairs(), printer);
}
