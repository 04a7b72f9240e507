//! Prints refusals. A contract sees a refusal as itself, and a printer as its outlet.
ghost use Rattle.std.specs.Prelude.{◌∷◌, [], decimal, codes};
ghost use Rattle.ele_model.specs.Answers.{refusal_number, refusal_name};
ghost use Rattle.ele_output.specs.Prints.{Prints};
ghost use Rattle.ele_output.specs.Line.{line_text};
ghost use Rattle.ele_printer.specs.Printed.{refusal_text};

use crate::reply::put_named;
use ele_commands::Word::{Number, Plain};
use ele_commands::put_line_of;
use ele_model::Refusal;
use ele_output::Printer;
use std::io::Write;

/// Prints the line of a refusal.
pub(crate) fn put_refusal<W: Write>(why: &Refusal, printer: &mut Printer<'_, W>)
    ensures { Prints W.contents printer.old printer.new (refusal_text why.now) }
{
    match why {
        Refusal::Forgotten(None) => put_detail(why, b"-", printer),
        Refusal::Forgotten(Some(before)) => put_before(why, before.0, printer),
        Refusal::Full(which) => put_detail(why, which.word().as_bytes(), printer),
        _ => put_undetailed(why, printer),
    }
}

// Prints the line of a refusal with a detail.
fn put_detail<W: Write>(why: &Refusal, detail: &[u8], printer: &mut Printer<'_, W>)
    ensures { Prints W.contents printer.old printer.new
        (line_text (codes "no" ∷ decimal (refusal_number why.now) ∷ refusal_name why.now ∷
        detail.now ∷ [])) }
{
    let words = [
        Number(why.number() as u64),
        Plain(why.name().as_bytes()),
        Plain(detail),
    ];
    put_line_of(b"no", &words, printer);
}

// Prints the line of a refusal with the number of a version.
fn put_before<W: Write>(why: &Refusal, before: u64, printer: &mut Printer<'_, W>)
    ensures { Prints W.contents printer.old printer.new
        (line_text (codes "no" ∷ decimal (refusal_number why.now) ∷ refusal_name why.now ∷
        decimal before ∷ [])) }
{
    let words = [
        Number(why.number() as u64),
        Plain(why.name().as_bytes()),
        Number(before),
    ];
    put_line_of(b"no", &words, printer);
}

// Prints the line of a refusal without a detail.
fn put_undetailed<W: Write>(why: &Refusal, printer: &mut Printer<'_, W>)
    ensures { Prints W.contents printer.old printer.new
        (line_text (codes "no" ∷ decimal (refusal_number why.now) ∷ refusal_name why.now ∷ [])) }
{
    put_named(b"no", why.number(), why.name(), printer);
}
