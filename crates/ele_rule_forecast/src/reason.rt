//! Prints by which part of a rule a version is kept. A contract sees a reason as its words, and a printer as its outlet.
ghost use Rattle.std.specs.Prelude.{◌≡◌};
ghost use Rattle.ele_output.specs.Prints.{Prints};
ghost use Rattle.ele_rule_forecast.specs.ReasonText.{name_text, oldest_text, reason_text, span_word, within_word};

use ele_output::{Printer, put_number};
use ele_peer_rules::{By, Reason, Span};
use std::io::Write;

/// Prints a reason, for example `daily 3`, with a mark in place of the space.
pub(crate) fn put_reason<W: Write>(mark: u8, reason: Reason, printer: &mut Printer<'_, W>)
    ensures { Prints W.contents printer.old printer.new (reason_text mark reason) }
{
    put_name(reason.span, reason.by, printer);
    printer.put_byte(mark);
    put_number(reason.number, printer);
}

// Prints the name of a part of a rule.
fn put_name<W: Write>(span: Span, by: By, printer: &mut Printer<'_, W>)
    ensures { Prints W.contents printer.old printer.new (name_text span by) }
{
    match by {
        By::Count => printer.put(span_word(span)),
        By::Age => printer.put(within_word(span)),
        By::Oldest => put_oldest(span, printer),
        By::Other => printer.put(b"other"),
    }
}

// Prints the name of a part that keeps the oldest version.
fn put_oldest<W: Write>(span: Span, printer: &mut Printer<'_, W>)
    ensures { Prints W.contents printer.old printer.new (oldest_text span) }
{
    printer.put(b"oldest-");
    printer.put(span_word(span));
}

// The word of a part that keeps a number of versions.
fn span_word(span: Span) -> &'static [u8]
    ensures { result.now ≡ span_word span }
{
    match span {
        Span::Each => b"last",
        Span::Second => b"secondly",
        Span::Minute => b"minutely",
        Span::Hour => b"hourly",
        Span::Day => b"daily",
        Span::Week => b"weekly",
        Span::Month => b"monthly",
        Span::Year => b"yearly",
    }
}

// The word of a part that keeps versions within a length of time.
fn within_word(span: Span) -> &'static [u8]
    ensures { result.now ≡ within_word span }
{
    match span {
        Span::Each => b"within",
        Span::Second => b"within-secondly",
        Span::Minute => b"within-minutely",
        Span::Hour => b"within-hourly",
        Span::Day => b"within-daily",
        Span::Week => b"within-weekly",
        Span::Month => b"within-monthly",
        Span::Year => b"within-yearly",
    }
}
