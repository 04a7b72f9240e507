//! What is found of a text that may be evidence. A contract sees a verdict as itself.
ghost use Rattle.std.specs.Prelude.{◌≡◌, ◌++◌, IfOk, codes, decimal};
ghost use Rattle.ele_evidence.specs.VerdictText.{fault_text, verdict_text};
ghost use Rattle.ele_output.specs.Prints.{Prints};

use ele_chain::HashLine;
use ele_model::NoMemory;
use ele_output::{Printer, put_with_number};
use std::alloc::Global;
use std::io::Write;

/// Whether a text is the evidence of a history.
#[derive(Drop)]
pub enum Verdict {
    /// It is, with this many entries and this last hash line.
    Whole(u64, HashLine),
    /// It doesn't begin with the first row for these limits and its hash.
    NoHead,
    /// The line with this number, counted from 1, is the first that is wrong.
    Wrong(u64, Fault),
}

/// Why a line is the first that is wrong.
#[derive(Clone, Copy, Debug, PartialEq, Eq)]
pub enum Fault {
    /// It is neither the line of an event nor the last line.
    NoRow,
    /// It is the line of an event, but the history has as many as its limit.
    TooMany,
    /// It is the line of an event, in other words than it is printed, or with another answer.
    Answer,
    /// It isn't the hash of the hash above it and of the row.
    Hash,
}

// Why a line is wrong.
fn fault_text(fault: Fault) -> &'static [u8]
    ensures { result.now ≡ fault_text fault }
{
    match fault {
        Fault::NoRow => b": it is neither an event nor the last line\n",
        Fault::TooMany => b": it is an event more than the limit\n",
        Fault::Answer => b": the event, as it is printed, has another answer\n",
        Fault::Hash => b": it isn't the hash of the rows above\n",
    }
}

/// Returns the line of a verdict. `NoMemory` if memory is refused.
pub fn verdict_line(alloc: Global, verdict: &Verdict) -> Result<Vec<u8>, NoMemory>
    ensures { IfOk result (λ line. line.items ≡ verdict_text verdict.now) }
{
    let mut line = Vec::new(alloc);
    let mut printer = Printer::new(&mut line);
    put_verdict(verdict, &mut printer);
    match printer.hand_over() {
        Ok(()) => Ok(line),
        Err(_) => Err(NoMemory),
    }
}

// Prints the line of a verdict.
fn put_verdict<W: Write>(verdict: &Verdict, printer: &mut Printer<'_, W>)
    ensures { Prints W.contents printer.old printer.new (verdict_text verdict.now) }
{
    match verdict {
        Verdict::Whole(count, last) => put_whole(*count, last, printer),
        Verdict::NoHead => printer.put(
            b"elephant: line 1: it isn't the first row of evidence with the largest limits, or below it isn't its hash\n",
        ),
        Verdict::Wrong(line, fault) => put_wrong(*line, *fault, printer),
    }
}

// Prints how much a text shows that is evidence.
fn put_whole<W: Write>(count: u64, last: &HashLine, printer: &mut Printer<'_, W>)
    ensures { Prints W.contents printer.old printer.new
        (codes "ok verified " ++ (decimal count ++ (codes " " ++ last.now))) }
{
    put_with_number(b"ok verified ", count, printer);
    printer.put(b" ");
    printer.put(last.bytes());
}

// Prints which line is wrong, and why.
fn put_wrong<W: Write>(line: u64, fault: Fault, printer: &mut Printer<'_, W>)
    ensures { Prints W.contents printer.old printer.new
        (codes "elephant: line " ++ (decimal line ++ fault_text fault)) }
{
    put_with_number(b"elephant: line ", line, printer);
    printer.put(fault_text(fault));
}
