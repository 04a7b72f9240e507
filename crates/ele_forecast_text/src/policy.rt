//! Prints policies. A contract sees the word of a policy as its bytes, and a printer as its outlet.
ghost use Rattle.std.specs.Prelude.{◌++◌};
ghost use Rattle.ele_output.specs.Prints.{Prints};
ghost use Rattle.ele_policy.specs.PolicyText.{floor_word, ladder_word, pair_word, policy_word};

use ele_output::{Printer, put_number, put_with_number};
use ele_policy::{Floor, Policy};
use std::io::Write;

/// Prints a policy as scripts have it, for example `safe:86400/3`.
pub fn put_policy<W: Write>(policy: &Policy, printer: &mut Printer<'_, W>)
    ensures { Prints W.contents printer.old printer.new (policy_word policy.now) }
{
    match policy {
        Policy::One => printer.put(b"one"),
        Policy::All => printer.put(b"all"),
        Policy::Safe(interval, floor) => {
            put_with_number(b"safe:", interval.seconds(), printer);
            put_floor(*floor, printer);
        }
        Policy::Landmarks(ladder) => {
            printer.put(b"landmarks:");
            put_pairs(ladder.pairs(), printer);
        }
    }
}

// Prints a slash and a floor, or nothing for no floor.
fn put_floor<W: Write>(floor: Floor, printer: &mut Printer<'_, W>)
    ensures { Prints W.contents printer.old printer.new (floor_word floor) }
{
    match floor.number() {
        0 => {}
        versions => put_with_number(b"/", versions, printer),
    }
}

// Prints pairs with a comma between each two.
fn put_pairs<W: Write>(pairs: &[(u64, u64)], printer: &mut Printer<'_, W>)
    ensures { Prints W.contents printer.old printer.new (ladder_word pairs.now) }
{
    let Some((first, rest)) = pairs.split_first() else {
        return;
    };
    put_pair(b"", first, printer);
    for pair in rest {
        put_pair(b",", pair, printer);
    }
}

// Prints `before` and then the pair.
fn put_pair<W: Write>(before: &[u8], pair: &(u64, u64), printer: &mut Printer<'_, W>)
    ensures { Prints W.contents printer.old printer.new (before.now ++ pair_word pair.now) }
{
    printer.put(before);
    put_number(pair.0, printer);
    printer.put(b"/");
    put_number(pair.1, printer);
}
