//! Prints the evidence of a history. A contract sees a printer as its outlet.
ghost use Rattle.std.specs.Prelude.{◌≡◌, ◌↔◌, ◌++◌, IfOk, IsTrue, List, ℕ};
ghost use Rattle.std.specs.List.{AllZip};
ghost use Rattle.ele_chain.specs.Chain.{chained, hash_line};
ghost use Rattle.ele_evidence.specs.EvidenceText.{IsEvidence, IsRow, head_row};
ghost use Rattle.ele_output.specs.Prints.{Prints};

use crate::row::{entry_row, head_row};
use ele_chain::HashLine;
use ele_commands::Word::Number;
use ele_commands::put_line_of;
use ele_model::{Entry, Limits, NoMemory};
use ele_output::Printer;
use std::alloc::Global;
use std::io::Write;

/// Prints the evidence of a history that began in the fresh world with these limits, and has these
/// entries.
///
/// `NoMemory` if memory is refused, when some of it may be printed.
/// Cost: grows with the text. It holds one row at a time.
pub fn put_evidence<W: Write>(
    alloc: Global,
    limits: &Limits,
    entries: &[Entry],
    printer: &mut Printer<'_, W>,
) -> Result<(), NoMemory>
    ensures { IfOk result (λ _. (text : List ℕ) × IsEvidence limits.now entries.now text
        × Prints W.contents printer.old printer.new text) }
{
    let head = head_row(alloc, limits)?;
    let line = put_row(&HashLine::none(), head.as_slice(), printer);
    put_rows(alloc, line, entries, printer)?;
    put_line_of(b"end", &[Number(entries.len() as u64)], printer);
    Ok(())
}

// Prints the rows of entries in a chain below this line.
fn put_rows<W: Write>(
    alloc: Global,
    above: HashLine,
    entries: &[Entry],
    printer: &mut Printer<'_, W>,
) -> Result<(), NoMemory>
    ensures { IfOk result (λ _. (rows : List (List ℕ)) × AllZip IsRow entries.now rows
        × Prints W.contents printer.old printer.new (chained above rows)) }
{
    let mut line = above;
    for entry in entries {
        let row = entry_row(alloc, entry)?;
        line = put_row(&line, row.as_slice(), printer);
    }
    Ok(())
}

// Prints a row, and its line below it.
fn put_row<W: Write>(above: &HashLine, row: &[u8], printer: &mut Printer<'_, W>) -> HashLine
    ensures line { result ≡ hash_line (above.now ++ row.now) }
    ensures printed { Prints W.contents printer.old printer.new
        (row.now ++ hash_line (above.now ++ row.now)) }
{
    let line = above.below(row);
    printer.put(row);
    printer.put(line.bytes());
    line
}

/// Returns whether a text is the evidence of a history that began in the fresh world with these
/// limits, and has these entries.
///
/// `NoMemory` if memory is refused.
/// Cost: grows with the evidence, which it holds.
pub fn is_evidence(
    alloc: Global,
    limits: &Limits,
    entries: &[Entry],
    text: &[u8],
) -> Result<bool, NoMemory>
    ensures { IfOk result (λ same. IsTrue same ↔ IsEvidence limits.now entries.now text.now) }
{
    Ok(evidence(alloc, limits, entries)?.as_slice() == text)
}

/// Returns the evidence of a history that began in the fresh world with these limits, and has these
/// entries.
///
/// `NoMemory` if memory is refused.
/// Cost: grows with the evidence.
pub fn evidence(alloc: Global, limits: &Limits, entries: &[Entry]) -> Result<Vec<u8>, NoMemory>
    ensures { IfOk result (λ text. IsEvidence limits.now entries.now text.items) }
{
    let mut text = Vec::new(alloc);
    let mut printer = Printer::new(&mut text);
    put_evidence(alloc, limits, entries, &mut printer)?;
    match printer.hand_over() {
        Ok(()) => Ok(text),
        Err(_) => Err(NoMemory),
    }
}
