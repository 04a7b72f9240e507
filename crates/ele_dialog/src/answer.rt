//! Answers a typed line. A contract sees the text of the answer, and the history after it.
ghost use Rattle.std.specs.Prelude.{◌≡◌, ◌≢◌, ◌++◌, [], IfErr, IfOk, List, ℕ};
ghost use Rattle.ele_dialog.specs.Answer.{IsAnswered, IsHeard, IsHeardOnly, IsMadeFirst, IsReasonText, IsUnanswered, dialog_options, is_bad};
ghost use Rattle.ele_dialog.specs.Dates.{IsDatedText, IsShown};
ghost use Rattle.ele_dialog.specs.Heading.{headed, heading_of};
ghost use Rattle.ele_dialog.specs.Places.{places_of};
ghost use Rattle.ele_output.specs.Prints.{Prints};
ghost use Rattle.ele_runs.specs.Kept.{last_reply};
ghost use Rattle.ele_runs.specs.Said.{IsText};

use crate::dates::dated;
use crate::heading::{heading_of, put_headed};
use crate::help::{put_help, topic_of};
use crate::places::{Places, places_of};
use ele_history::History;
use ele_model::{Explain, FromFlat};
use ele_moment::NoMemory;
use ele_output::Printer;
use ele_run_options::RunOptions;
use ele_runs::{Said, hear_kept, kept_line, last_reply, put_why, why_bad};
use std::alloc::Global;
use std::io::Write;

// Remarks are passed over, and questions answered. Lines have no numbers.
fn dialog_options() -> RunOptions
    ensures { result ≡ dialog_options }
{
    RunOptions {
        strict: false,
        numbers: false,
        remarks: true,
        explain: true,
    }
}

/// Answers the line with this number: by help, or as a run does, with the reason of a bad line before
/// its answer, a heading above rows and dates behind moments. `NoMemory` if memory for the text is
/// refused: the history is then as after the line, and nothing is printed.
pub(crate) fn put_line<C: Explain + FromFlat, W: Write>(
    alloc: Global,
    number: u64,
    line: &[u8],
    history: &mut History<C>,
    printer: &mut Printer<'_, W>,
) -> Result<(), NoMemory>
    ensures ok { IfOk result (λ _. (text : List ℕ)
        × IsAnswered number history.old line.now text history.new
        × Prints W.contents printer.old printer.new text) }
    ensures err { IfErr result (λ _. IsUnanswered history.old line.now history.new
        × Prints W.contents printer.old printer.new []) }
{
    match topic_of(line) {
        Some(topic) => put_help(alloc, topic, printer),
        None => put_heard(alloc, number, line, history, printer),
    }
}

// Answers a line that doesn't ask for help.
fn put_heard<C: Explain + FromFlat, W: Write>(
    alloc: Global,
    number: u64,
    line: &[u8],
    history: &mut History<C>,
    printer: &mut Printer<'_, W>,
) -> Result<(), NoMemory>
    ensures ok { IfOk result (λ _. (text : List ℕ)
        × IsHeard number history.old line.now text history.new
        × Prints W.contents printer.old printer.new text) }
    ensures err { IfErr result (λ _. IsHeardOnly history.old line.now history.new
        × Prints W.contents printer.old printer.new []) }
{
    let said = hear_kept(alloc, dialog_options(), kept_line(line), history);
    put_reason(alloc, number, line, &said, printer);
    put_said(alloc, &said, history, printer)
}

// Whether a line is no command.
fn is_bad(said: &Said) -> bool
    ensures { result ≡ is_bad said.now }
{
    match said {
        Said::Bad(_) => true,
        _ => false,
    }
}

// Prints why a line is bad, if it is.
fn put_reason<W: Write>(
    alloc: Global,
    number: u64,
    line: &[u8],
    said: &Said,
    printer: &mut Printer<'_, W>,
)
    ensures { (text : List ℕ) × IsReasonText number line.now said.now text
        × Prints W.contents printer.old printer.new text }
{
    if !is_bad(said) {
        return;
    }
    let why = why_bad(alloc, dialog_options(), kept_line(line));
    put_why(number, why, printer);
}

// Prints an answer, with the dates of its moments and a heading above its rows.
fn put_said<C: Explain + FromFlat, W: Write>(
    alloc: Global,
    said: &Said,
    history: &History<C>,
    printer: &mut Printer<'_, W>,
) -> Result<(), NoMemory>
    ensures ok { IfOk result (λ _. (text shown : List ℕ)
        × IsText (last_reply history.now) history.now.folded history.now.entries said.now text
        × IsShown (places_of said.now (last_reply history.now)) text shown
        × Prints W.contents printer.old printer.new
        (headed (heading_of said.now (last_reply history.now)) shown)) }
    ensures err { IfErr result (λ _. IsMadeFirst said.now (last_reply history.now)
        × Prints W.contents printer.old printer.new []) }
{
    let heading = heading_of(said, last_reply(history));
    match places_of(said, last_reply(history)) {
        Some(places) => put_with_dates(alloc, places, heading, said, history, printer),
        None => put_under(alloc, heading, said, history, printer),
    }
}

// Prints an answer with the dates of its moments, which stand there, and this heading above its rows.
fn put_with_dates<C: Explain + FromFlat, W: Write>(
    alloc: Global,
    places: Places,
    heading: &[u8],
    said: &Said,
    history: &History<C>,
    printer: &mut Printer<'_, W>,
) -> Result<(), NoMemory>
    ensures ok { IfOk result (λ _. (text shown : List ℕ)
        × IsText (last_reply history.now) history.now.folded history.now.entries said.now text
        × IsDatedText places text shown
        × Prints W.contents printer.old printer.new (headed heading.now shown)) }
    ensures err { IfErr result (λ _. Prints W.contents printer.old printer.new []) }
{
    let text = text_of(alloc, said, history)?;
    let shown = dated(alloc, places, text.as_slice())?;
    put_headed(heading, shown.as_slice(), printer);
    Ok(())
}

// Prints an answer with this heading above its rows, or as a run prints it if there is no heading.
fn put_under<C: Explain + FromFlat, W: Write>(
    alloc: Global,
    heading: &[u8],
    said: &Said,
    history: &History<C>,
    printer: &mut Printer<'_, W>,
) -> Result<(), NoMemory>
    ensures ok { IfOk result (λ _. (text : List ℕ)
        × IsText (last_reply history.now) history.now.folded history.now.entries said.now text
        × Prints W.contents printer.old printer.new (headed heading.now text)) }
    ensures err { IfErr result (λ _. (heading.now ≢ [])
        × Prints W.contents printer.old printer.new []) }
{
    if heading.is_empty() {
        put_plain(said, history, printer);
        return Ok(());
    }
    let text = text_of(alloc, said, history)?;
    put_headed(heading, text.as_slice(), printer);
    Ok(())
}

// Prints an answer as a run prints it.
fn put_plain<C: Explain + FromFlat, W: Write>(
    said: &Said,
    history: &History<C>,
    printer: &mut Printer<'_, W>,
)
    ensures { (text : List ℕ)
        × IsText (last_reply history.now) history.now.folded history.now.entries said.now text
        × Prints W.contents printer.old printer.new text }
{
    said.put(
        last_reply(history),
        history.folded(),
        history.entries(),
        printer,
    );
}

// Returns the text of an answer as a run prints it.
fn text_of<C: Explain + FromFlat>(
    alloc: Global,
    said: &Said,
    history: &History<C>,
) -> Result<Vec<u8>, NoMemory>
    ensures { IfOk result (λ text.
        IsText (last_reply history.now) history.now.folded history.now.entries said.now text.items) }
{
    let mut text = Vec::new(alloc);
    let mut printer = Printer::new(&mut text);
    put_plain(said, history, &mut printer);
    match printer.hand_over() {
        Ok(()) => Ok(text),
        Err(_) => Err(NoMemory),
    }
}
