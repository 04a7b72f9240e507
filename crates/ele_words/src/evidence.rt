//! Evidence as the program makes it and verifies it. It goes to one writer, and what is wrong to
//! the other. A contract sees what was read, what both writers hold then, and the status.
ghost use Rattle.std.specs.Prelude.{◌≡◌, ◌++◌, [], codes, IfErr, IfOk, List, None, OnOk, ℕ};
ghost use Rattle.std.specs.Result.{result_err};
ghost use Rattle.std.specs.Io.KnownBytes.{Consumes, IsAtEnd};
ghost use Rattle.ele_evidence.specs.EvidenceText.{head_row};
ghost use Rattle.ele_evidence.specs.VerdictText.{verdict_text};
ghost use Rattle.ele_history.specs.Past.{fresh};
ghost use Rattle.ele_model.specs.Bounds.{largest_bounds};
ghost use Rattle.ele_output.specs.Outlet.{Reports};
ghost use Rattle.ele_output.specs.Prints.{Prints, outlet};
ghost use Rattle.ele_runs.specs.Said.{IsText};
ghost use Rattle.ele_words.specs.Evidence.{
  EvidenceEnds,
  Evidences,
  HasPutEvidence,
  IsUnrecordedText,
  StopsReading,
  TellsVerdict,
  Verifies,
  VerifyEnds,
  line_before,
};

use crate::failure::{Failure, status};
use crate::program::{tell, write_bytes};
use ele_evidence::{Verdict, evidence, head_row, verdict_line, verify};
use ele_history::History;
use ele_model::{Explain, FromFlat, Limits, Step};
use ele_output::{Printer, put_with_number};
use ele_recording::{Unrecorded, record};
use ele_runs::{Said, ShellFault};
use std::alloc::Global;
use std::io::{ErrorKind, Read, Write};

/// Runs the script that the reader gives under the largest limits, and writes its history as
/// evidence. Reports to `errors` why there is none. Returns the exit status. If memory for the start is
/// refused, nothing is read.
pub(crate) fn run_evidence<C: Explain + FromFlat, R: Read, W: Write, E: Write>(
    alloc: Global,
    reader: &mut R,
    writer: &mut W,
    errors: &mut Printer<'_, E>,
) -> u8
    ensures { EvidenceEnds (R.remaining reader.old) (R.remaining reader.new)
        (W.contents writer.old) (W.contents writer.new)
        (outlet E.contents errors.old) (outlet E.contents errors.new) result }
{
    let Ok(start) = History::<C>::new(alloc, Limits::largest()) else {
        return tell(Some(ShellFault::NoMemory), errors);
    };
    match read_all(alloc, reader) {
        Ok(script) => tell_recorded(alloc, start, script.as_slice(), writer, errors),
        Err(fault) => tell(Some(fault), errors),
    }
}

/// Verifies the text that the reader gives, under the largest limits. Writes how much it shows, or
/// reports to `errors` what is wrong with it. Returns the exit status. If memory for the start is
/// refused, nothing is read.
pub(crate) fn run_verify<C: Step, R: Read, W: Write, E: Write>(
    alloc: Global,
    reader: &mut R,
    writer: &mut W,
    errors: &mut Printer<'_, E>,
) -> u8
    ensures { VerifyEnds (R.remaining reader.old) (R.remaining reader.new)
        (W.contents writer.old) (W.contents writer.new)
        (outlet E.contents errors.old) (outlet E.contents errors.new) result }
{
    let Ok(mut history) = History::<C>::new(alloc, Limits::largest()) else {
        return tell(Some(ShellFault::NoMemory), errors);
    };
    let Ok(head) = head_row(alloc, &Limits::largest()) else {
        return tell(Some(ShellFault::NoMemory), errors);
    };
    match read_all(alloc, reader) {
        Ok(text) => tell_verified(
            alloc,
            &mut history,
            head.as_slice(),
            text.as_slice(),
            writer,
            errors,
        ),
        Err(fault) => tell(Some(fault), errors),
    }
}

/// Reads all that the reader gives.
pub(crate) fn read_all<R: Read>(alloc: Global, reader: &mut R) -> Result<Vec<u8>, ShellFault>
    ensures ok { IfOk result (λ text. Consumes (R.remaining reader.old) (R.remaining reader.new)
        text.items) }
    ensures end { OnOk result (IsAtEnd (R.remaining reader.new)) }
    ensures err { IfErr result (λ fault. StopsReading fault × ((given : List ℕ)
        × Consumes (R.remaining reader.old) (R.remaining reader.new) given)) }
{
    let mut text = Vec::new(alloc);
    match reader.read_to_end(&mut text) {
        Ok(_) => Ok(text),
        Err(error) if error.kind() == ErrorKind::OutOfMemory => Err(ShellFault::NoMemory),
        Err(_) => Err(ShellFault::ReadFault),
    }
}

// Records a script from this start on, and writes its evidence. Returns the exit status.
fn tell_recorded<C: Explain + FromFlat, W: Write, E: Write>(
    alloc: Global,
    start: History<C>,
    script: &[u8],
    writer: &mut W,
    errors: &mut Printer<'_, E>,
) -> u8
    requires { start ≡ fresh largest_bounds }
    ensures { Evidences (W.contents writer.old) (W.contents writer.new)
        (outlet E.contents errors.old) (outlet E.contents errors.new) result script.now }
{
    match record(alloc, start, script) {
        Ok(history) => tell(write_evidence(alloc, &history, writer).err(), errors),
        Err(why) => tell_unrecorded(&why, errors),
    }
}

// Writes the evidence of a history, and flushes it.
fn write_evidence<C: Step, W: Write>(
    alloc: Global,
    history: &History<C>,
    writer: &mut W,
) -> Result<(), ShellFault>
    ensures { HasPutEvidence history.now (W.contents writer.old) (W.contents writer.new)
        (result_err result) }
{
    match evidence(alloc, &history.base().limits, history.entries()) {
        Ok(text) => write_bytes(text.as_slice(), writer),
        Err(_) => Err(ShellFault::NoMemory),
    }
}

// Reports why a script makes no history that is handed over. Returns the exit status.
fn tell_unrecorded<E: Write>(why: &Unrecorded, errors: &mut Printer<'_, E>) -> u8
    ensures status { result ≡ 2 }
    ensures told { (text : List ℕ) × IsUnrecordedText why.now text
        × Reports (outlet E.contents errors.old) (outlet E.contents errors.new) text }
{
    put_unrecorded(why, errors);
    errors.flush();
    status(Failure::BadInput)
}

// Prints which line makes no history that is handed over, and why.
fn put_unrecorded<E: Write>(why: &Unrecorded, errors: &mut Printer<'_, E>)
    ensures { (text : List ℕ) × IsUnrecordedText why.now text
        × Prints E.contents errors.old errors.new text }
{
    match why {
        Unrecorded::Line(number, said) => put_unanswered(*number, said, errors),
        Unrecorded::Cut(number) => put_cut(*number, errors),
        Unrecorded::Trimmed => {
            errors.put(b"elephant: a trim folded events, so evidence can't show them\n");
        }
    }
}

// Prints what the line with this number was answered.
fn put_unanswered<E: Write>(number: u64, said: &Said, errors: &mut Printer<'_, E>)
    ensures { (answer : List ℕ) × IsText None 0 [] said.now answer
        × Prints E.contents errors.old errors.new (line_before number ++ answer) }
{
    put_line_before(number, errors);
    said.put(None, 0, &[], errors);
}

// Prints that the line with this number has no line feed.
fn put_cut<E: Write>(number: u64, errors: &mut Printer<'_, E>)
    ensures { Prints E.contents errors.old errors.new
        (line_before number ++ codes "it has no line feed\n") }
{
    put_line_before(number, errors);
    errors.put(b"it has no line feed\n");
}

// Prints the number of a line.
fn put_line_before<E: Write>(number: u64, errors: &mut Printer<'_, E>)
    ensures { Prints E.contents errors.old errors.new (line_before number) }
{
    put_with_number(b"elephant: line ", number, errors);
    errors.put(b": ");
}

// Verifies a text, below this first row, and tells the verdict. Returns the exit status.
fn tell_verified<C: Step, W: Write, E: Write>(
    alloc: Global,
    history: &mut History<C>,
    head: &[u8],
    text: &[u8],
    writer: &mut W,
    errors: &mut Printer<'_, E>,
) -> u8
    requires start { history.old ≡ fresh largest_bounds }
    requires head { head.now ≡ head_row largest_bounds }
    ensures { Verifies (W.contents writer.old) (W.contents writer.new)
        (outlet E.contents errors.old) (outlet E.contents errors.new) result text.now }
{
    let Ok(verdict) = verify(alloc, history, head, text) else {
        return tell(Some(ShellFault::NoMemory), errors);
    };
    let Ok(line) = verdict_line(alloc, &verdict) else {
        return tell(Some(ShellFault::NoMemory), errors);
    };
    tell_verdict(&verdict, line.as_slice(), writer, errors)
}

// Writes the line of a verdict, or reports it if the text is no evidence. Returns the exit status.
fn tell_verdict<W: Write, E: Write>(
    verdict: &Verdict,
    line: &[u8],
    writer: &mut W,
    errors: &mut Printer<'_, E>,
) -> u8
    requires { line.now ≡ verdict_text verdict.now }
    ensures { TellsVerdict verdict.now (W.contents writer.old) (W.contents writer.new)
        (outlet E.contents errors.old) (outlet E.contents errors.new) result }
{
    match verdict {
        Verdict::Whole(_, _) => tell(write_bytes(line, writer).err(), errors),
        Verdict::NoHead => tell_no_evidence(line, errors),
        Verdict::Wrong(_, _) => tell_no_evidence(line, errors),
    }
}

// Reports what is wrong with a text. Returns the exit status.
fn tell_no_evidence<E: Write>(line: &[u8], errors: &mut Printer<'_, E>) -> u8
    ensures status { result ≡ 1 }
    ensures told { Reports (outlet E.contents errors.old) (outlet E.contents errors.new) line.now }
{
    errors.put(line);
    errors.flush();
    status(Failure::NoEvidence)
}
