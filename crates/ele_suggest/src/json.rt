//! A suggestion as JSON. A contract sees its text, and a printer as its outlet.
ghost use Rattle.std.specs.Prelude.{◌≡◌, Some, map};
ghost use Rattle.std.specs.List.{join_with_byte};
ghost use Rattle.ele_output.specs.Prints.{Prints};
ghost use Rattle.ele_suggest.specs.Suggested.{best_weighed};
ghost use Rattle.ele_suggest.specs.SuggestedJson.{best_json, bool_word, suggestion_json, weighed_json};

use crate::row::put_bytes;
use crate::suggestion::Suggestion;
use crate::weighed::Weighed;
use ele_forecast_text::put_policy;
use ele_output::{Printer, put_with_number};
use std::io::Write;

/// Prints a suggestion as JSON: one object, with the best policy or `null`, and with each policy: how many versions stay,
/// their bytes if `sizes` holds, and whether they are what is asked.
pub fn put_suggestion_json<W: Write>(
    sizes: bool,
    suggestion: &Suggestion,
    printer: &mut Printer<'_, W>,
)
    ensures { Prints W.contents printer.old printer.new (suggestion_json sizes suggestion.now) }
{
    printer.put(b"{\"best\":");
    put_best(suggestion, printer);
    printer.put(b",\"policies\":[");
    put_policies(sizes, suggestion.weighed.as_slice(), printer);
    printer.put(b"\n]}\n");
}

// Prints the best policy as a string, or `null`.
fn put_best<W: Write>(suggestion: &Suggestion, printer: &mut Printer<'_, W>)
    ensures { Prints W.contents printer.old printer.new (best_json (best_weighed suggestion.now)) }
{
    match suggestion.best_weighed() {
        Some(weighed) => put_string(weighed, printer),
        None => printer.put(b"null"),
    }
}

// Prints a policy as a string.
fn put_string<W: Write>(weighed: &Weighed, printer: &mut Printer<'_, W>)
    ensures { Prints W.contents printer.old printer.new (best_json (Some weighed.now)) }
{
    printer.put(b"\"");
    put_policy(&weighed.policy, printer);
    printer.put(b"\"");
}

// Prints policies, with a comma between each two.
fn put_policies<W: Write>(sizes: bool, weighed: &[Weighed], printer: &mut Printer<'_, W>)
    ensures { Prints W.contents printer.old printer.new
        (join_with_byte 44 (map (weighed_json sizes) weighed.now)) }
{
    let Some((first, rest)) = weighed.split_first() else {
        return;
    };
    put_weighed(sizes, first, printer);
    for other in rest {
        printer.put_byte(b',');
        put_weighed(sizes, other, printer);
    }
}

// Prints a policy.
fn put_weighed<W: Write>(sizes: bool, weighed: &Weighed, printer: &mut Printer<'_, W>)
    ensures { Prints W.contents printer.old printer.new (weighed_json sizes weighed.now) }
{
    let numbers = weighed.numbers.as_slice();
    printer.put(b"\n{\"policy\":\"");
    put_policy(&weighed.policy, printer);
    put_with_number(b"\",\"count\":", numbers.len() as u64, printer);
    put_bytes(b",\"bytes\":", sizes, weighed.bytes, printer);
    printer.put(b",\"keeps\":");
    printer.put(bool_word(weighed.keeps).as_bytes());
    printer.put(b"}");
}

fn bool_word(is_true: bool) -> &'static str
    ensures { result.now ≡ bool_word is_true }
{
    if is_true { "true" } else { "false" }
}
