//! Prints why versions are held, and which will be due. A contract sees a fate and a list of keys as
//! themselves, and a printer as its outlet.
ghost use Rattle.std.specs.Prelude.{◌∷◌, [], ◌++◌, codes, decimal};
ghost use Rattle.ele_model.specs.FateText.{fate_words, level_words, mark_word, until_words};
ghost use Rattle.ele_output.specs.Prints.{Prints};
ghost use Rattle.ele_output.specs.Line.{line_text};
ghost use Rattle.ele_policy.specs.CauseText.{cause_words};
ghost use Rattle.ele_printer.specs.Why.{ahead_text, why_text};

use crate::refusal::put_refusal;
use crate::row::put_rows;
use ele_commands::Word::{self, Number, Plain};
use ele_commands::{Piece, put_line_of};
use ele_model::{Cause, Fate, KeyList, MarkRow, Refusal};
use ele_moment::Moment;
use ele_output::{Printer, put_words};
use std::io::Write;

/// Prints the line of a version's fate, or of the refusal in its place.
pub fn put_why<W: Write>(told: &Result<Fate, Refusal>, printer: &mut Printer<'_, W>)
    ensures { Prints W.contents printer.old printer.new (why_text told.now) }
{
    match told {
        Ok(fate) => {
            printer.put(b"ok why");
            put_fate(fate, printer);
        }
        Err(refusal) => put_refusal(refusal, printer),
    }
}

/// Prints a space, a version's fate, and a line feed.
pub fn put_fate<W: Write>(fate: &Fate, printer: &mut Printer<'_, W>)
    ensures { Prints W.contents printer.old printer.new (32 ∷ line_text (fate_words fate.now)) }
{
    match fate {
        Fate::Current => printer.put(b" current\n"),
        Fate::Open => printer.put(b" open\n"),
        Fate::Marked { group, mark } => put_marked(group.bytes(), mark, printer),
        Fate::Kept { until, level } => put_kept(*until, *level, printer),
        Fate::Due { since, cause } => put_due(*since, cause, printer),
    }
}

// Prints the end of the line of a version that a mark of a group holds.
fn put_marked<W: Write>(group: &[u8], mark: &MarkRow, printer: &mut Printer<'_, W>)
    ensures { Prints W.contents printer.old printer.new
        (32 ∷ line_text (codes "marked" ∷ group.now ∷ mark_word mark.now ∷ [])) }
{
    put_words(b" marked", &[group], printer);
    mark.put_piece(b" ", printer);
    printer.put(b"\n");
}

// Prints the end of the line of a version that its policy retains, until a moment and at a level if it has them.
fn put_kept<W: Write>(until: Option<Moment>, level: Option<usize>, printer: &mut Printer<'_, W>)
    ensures { Prints W.contents printer.old printer.new
        (32 ∷ line_text (codes "kept" ∷ until_words until ++ level_words level)) }
{
    match (until, level) {
        (None, None) => printer.put(b" kept\n"),
        (Some(until), None) => {
            put_line_of(b" kept until", &[Word::Moment(until)], printer);
        }
        (None, Some(level)) => put_line_of(b" kept level", &[Number(level as u64)], printer),
        (Some(until), Some(level)) => {
            let (until, level) = (Word::Moment(until), Number(level as u64));
            put_line_of(b" kept until", &[until, Plain(b"level"), level], printer);
        }
    }
}

// Prints the end of the line of a version that is due, since a moment and for a cause.
fn put_due<W: Write>(since: Moment, cause: &Cause, printer: &mut Printer<'_, W>)
    ensures { Prints W.contents printer.old printer.new
        (32 ∷ line_text (codes "due" ∷ decimal since ∷ cause_words cause.now)) }
{
    let since = Word::Moment(since);
    match cause {
        Cause::AtOnce => put_line_of(b" due", &[since, Plain(b"at once")], printer),
        Cause::Age(interval) => {
            let words = [since, Plain(b"by age"), Number(interval.seconds())];
            put_line_of(b" due", &words, printer);
        }
        Cause::Displaced { level, by } => {
            let (by, level) = (Number(by.0), Number(*level as u64));
            let words = [since, Plain(b"by"), by, Plain(b"level"), level];
            put_line_of(b" due", &words, printer);
        }
    }
}

/// Prints the number of keys that will be due and the line of each, or the line of the refusal.
pub fn put_ahead<W: Write>(told: &Result<KeyList, Refusal>, printer: &mut Printer<'_, W>)
    ensures { Prints W.contents printer.old printer.new (ahead_text told.now) }
{
    match told {
        Ok(keys) => put_rows(b"ok ahead", keys.as_slice(), printer),
        Err(refusal) => put_refusal(refusal, printer),
    }
}
