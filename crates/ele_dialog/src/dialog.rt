//! The dialog, line by line. A contract sees the lines that were typed, and what the writer has then.
ghost use Rattle.std.specs.Prelude.{◌≡◌};
ghost use Rattle.ele_dialog.specs.Dialog.{EndsDialog, EndsTyping, cut_text};
ghost use Rattle.ele_dialog.specs.Next.{AnswersLast, AnswersNext, AnswersWhole, EndsPrinted, HandsOn};
ghost use Rattle.ele_history.specs.Past.{fresh};
ghost use Rattle.ele_output.specs.Outlet.{IsHandedOver};
ghost use Rattle.ele_output.specs.Prints.{Prints, outlet};

use crate::answer::put_line;
use crate::input::read_line;
use ele_history::History;
use ele_model::{Explain, FromFlat, Limits};
use ele_output::Printer;
use ele_run_options::ShellFault;
use std::alloc::Global;
use std::io::{Read, Write};

/// Answers each line that the reader gives before it reads the next, in a history that begins in the
/// fresh world with these limits. `help`, alone or with a topic, is answered by help. All other lines
/// are answered as in a run with `--remarks` and `--explain`, but a heading is above rows, the reason
/// of a bad line before its answer, and the dates of the moments of a line behind it, after two spaces
/// and `#`. A last line without its line feed is never run.
///
/// - `ReadFault`: the reader failed; the answers to the lines before are written.
/// - `WriteFault`: the writer failed, or took no byte of some.
/// - `NoMemory`: memory was refused. For the start: nothing is read or written. For the bytes of a
///   line, or for the text that answers a whole one (help, or an answer with a heading or dates): the
///   answers to the lines before are written, and nothing of this one's.
pub fn run_dialog<C: Explain + FromFlat, R: Read, W: Write>(
    alloc: Global,
    limits: Limits,
    reader: &mut R,
    writer: &mut W,
) -> Result<(), ShellFault>
    ensures { EndsDialog (fresh limits) (R.remaining reader.old) (R.remaining reader.new)
        (W.contents writer.old) (W.contents writer.new) result }
{
    let Ok(mut history) = History::<C>::new(alloc, limits) else {
        return Err(ShellFault::NoMemory);
    };
    run_printed(alloc, &mut history, reader, writer)
}

// Reads lines and answers them, over a printer of its own.
fn run_printed<C: Explain + FromFlat, R: Read, W: Write>(
    alloc: Global,
    history: &mut History<C>,
    reader: &mut R,
    writer: &mut W,
) -> Result<(), ShellFault>
    ensures { EndsTyping history.old (R.remaining reader.old) (R.remaining reader.new)
        (W.contents writer.old) (W.contents writer.new) result }
{
    let mut printer = Printer::new(writer);
    run_lines(alloc, history, reader, &mut printer)
}

// Reads lines and answers them until the input ends, the reader or the writer fails, or memory is
// refused.
fn run_lines<C: Explain + FromFlat, R: Read, W: Write>(
    alloc: Global,
    history: &mut History<C>,
    reader: &mut R,
    printer: &mut Printer<'_, W>,
) -> Result<(), ShellFault>
    requires { IsHandedOver (outlet W.contents printer.old) }
    ensures { EndsPrinted history.old (R.remaining reader.old) (R.remaining reader.new)
        (outlet W.contents printer.old) (outlet W.contents printer.new) result }
{
    'lines: for count in 0..u64::MAX {
        match answer_next(alloc, count + 1, history, reader, printer) {
            Ok(goes_on) => {
                if !goes_on {
                    return Ok(());
                }
            }
            Err(fault) => return Err(fault),
        }
    }
    // No input has so many lines.
    Err(ShellFault::ReadFault)
}

// Reads a line and answers it. Returns whether it was a whole one, behind which others may come.
fn answer_next<C: Explain + FromFlat, R: Read, W: Write>(
    alloc: Global,
    number: u64,
    history: &mut History<C>,
    reader: &mut R,
    printer: &mut Printer<'_, W>,
) -> Result<bool, ShellFault>
    ensures { AnswersNext number history.old (R.remaining reader.old) (R.remaining reader.new)
        history.new (outlet W.contents printer.old) (outlet W.contents printer.new) result }
{
    let mut line = Vec::new(alloc);
    match read_line(reader, &mut line) {
        Ok(is_whole) => {
            if is_whole {
                answer_whole(alloc, number, line.as_slice(), history, printer)
            } else {
                answer_last(line.as_slice(), printer)
            }
        }
        Err(fault) => Err(fault),
    }
}

// Answers a whole line, and writes the answer.
fn answer_whole<C: Explain + FromFlat, W: Write>(
    alloc: Global,
    number: u64,
    line: &[u8],
    history: &mut History<C>,
    printer: &mut Printer<'_, W>,
) -> Result<bool, ShellFault>
    ensures { AnswersWhole number history.old line.now history.new
        (outlet W.contents printer.old) (outlet W.contents printer.new) result }
{
    match put_line(alloc, number, line, history, printer) {
        Ok(()) => hand_over(true, printer),
        Err(_) => Err(ShellFault::NoMemory),
    }
}

// Answers a last line without its line feed, and writes the answer.
fn answer_last<W: Write>(line: &[u8], printer: &mut Printer<'_, W>) -> Result<bool, ShellFault>
    ensures { AnswersLast line.now (outlet W.contents printer.old)
        (outlet W.contents printer.new) result }
{
    put_cut(line, printer);
    hand_over(false, printer)
}

// Writes what was printed, and then returns whether there are more lines.
fn hand_over<W: Write>(goes_on: bool, printer: &mut Printer<'_, W>) -> Result<bool, ShellFault>
    ensures { HandsOn goes_on (outlet W.contents printer.old) (outlet W.contents printer.new) result }
{
    match printer.hand_over() {
        Ok(()) => Ok(goes_on),
        Err(_) => Err(ShellFault::WriteFault),
    }
}

// Prints that a last line without its line feed isn't run, if it has bytes.
fn put_cut<W: Write>(line: &[u8], printer: &mut Printer<'_, W>)
    ensures { Prints W.contents printer.old printer.new (cut_text line.now) }
{
    printer.put(cut_text(line));
}

// What is printed of a last line without its line feed.
fn cut_text(line: &[u8]) -> &'static [u8]
    ensures { result.now ≡ cut_text line.now }
{
    match line {
        [] => b"",
        _ => b"elephant: the last line has no line feed, so it isn't run\n",
    }
}
