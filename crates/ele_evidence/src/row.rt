//! The rows of a text. A contract sees a row as its bytes.
ghost use Rattle.std.specs.Prelude.{◌≡◌, ◌++◌, IfOk, List, ℕ};
ghost use Rattle.ele_evidence.specs.EvidenceText.{IsRow, end_line, head_row};
ghost use Rattle.ele_output.specs.Prints.{Prints};
ghost use Rattle.ele_printer.specs.HistoryText.{entry_line};
ghost use Rattle.ele_printer.specs.Printed.{IsReplyText};

use ele_commands::Word::Number;
use ele_commands::{put_event_line, put_line_of};
use ele_model::{Entry, Limits, NoMemory, Which};
use ele_output::Printer;
use ele_printer::put_answer;
use std::alloc::Global;
use std::io::Write;

/// Returns the first row of a text, which has the limits of the world in which its history began.
/// `NoMemory` if memory is refused.
pub fn head_row(alloc: Global, limits: &Limits) -> Result<Vec<u8>, NoMemory>
    ensures { IfOk result (λ row. row.items ≡ head_row limits.now) }
{
    let mut row = Vec::new(alloc);
    let mut printer = Printer::new(&mut row);
    put_head(limits, &mut printer);
    match printer.hand_over() {
        Ok(()) => Ok(row),
        Err(_) => Err(NoMemory),
    }
}

// Prints the first row.
fn put_head<W: Write>(limits: &Limits, printer: &mut Printer<'_, W>)
    ensures { Prints W.contents printer.old printer.new (head_row limits.now) }
{
    let words = [
        Number(limits.events()),
        Number(limits.limit(Which::Files)),
        Number(limits.limit(Which::Directories)),
        Number(limits.limit(Which::Names)),
        Number(limits.limit(Which::Versions)),
        Number(limits.limit(Which::Handles)),
        Number(limits.limit(Which::Groups)),
        Number(limits.limit(Which::Members)),
        Number(limits.limit(Which::Marks)),
    ];
    put_line_of(b"ok evidence", &words, printer);
}

/// Returns the row of an entry. `NoMemory` if memory is refused.
pub(crate) fn entry_row(alloc: Global, entry: &Entry) -> Result<Vec<u8>, NoMemory>
    ensures { IfOk result (λ row. IsRow entry.now row.items) }
{
    let mut row = Vec::new(alloc);
    let mut printer = Printer::new(&mut row);
    put_entry(entry, &mut printer);
    match printer.hand_over() {
        Ok(()) => Ok(row),
        Err(_) => Err(NoMemory),
    }
}

// Prints the line of an event, and its reply.
fn put_entry<W: Write>(entry: &Entry, printer: &mut Printer<'_, W>)
    ensures { (row : List ℕ) × IsRow entry.now row × Prints W.contents printer.old printer.new row }
{
    printer.put(b"- ");
    put_event_line(&entry.event, printer);
    put_answer(&entry.reply, printer);
}

/// Returns the last line of a text with so many entries. `NoMemory` if memory is refused.
pub(crate) fn end_line(alloc: Global, count: u64) -> Result<Vec<u8>, NoMemory>
    ensures { IfOk result (λ line. line.items ≡ end_line count) }
{
    let mut line = Vec::new(alloc);
    let mut printer = Printer::new(&mut line);
    put_line_of(b"end", &[Number(count)], &mut printer);
    match printer.hand_over() {
        Ok(()) => Ok(line),
        Err(_) => Err(NoMemory),
    }
}
