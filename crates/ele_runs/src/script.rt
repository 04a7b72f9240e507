//! The run of a script, piece by piece.
//! A contract sees the lines that the reader gives, and their output at the writer.
ghost use Rattle.std.specs.Prelude.{◌≡◌, ◌≤◌, ◌-◌, [], false, Some, min, IfErr, IfOk, IsErrOf, length};
ghost use Rattle.ele_history.specs.Past.{fresh};
ghost use Rattle.ele_output.specs.Prints.{outlet};
ghost use Rattle.ele_runs.specs.RunState.{begun, noting};
ghost use Rattle.ele_runs.specs.Telling.{HasFailedPlain, Tells, ToldPlain, Writes};
ghost use Rattle.ele_runs.specs.Written.{HadMemory, RunsAt};

use crate::end::{EndLine, RunEnd};
use crate::line_buffer::LineBuffer;
use crate::lines::{answer_piece, finish};
use crate::piece::read_piece;
use crate::runner::Runner;
use ele_model::{Explain, FromFlat, Limits};
use ele_output::Printer;
use ele_run_options::{RunOptions, ShellFault};
use std::alloc::Global;
use std::io::{Read, Sink, Write};
use std::{io, mem};

/// A script has at most so many lines.
const MOST_LINES: u64 = 1_000_000;

/// A script has at most so many bytes, with its line feeds.
const MOST_BYTES: u64 = 8_589_934_592;

/// So many bytes are read at a time, at most.
const PIECE: usize = 8_192;

// How many bytes may still come, or lines if these are fewer, as each line has a byte at least.
fn left_of(room: u64, lines: u64) -> u64
    requires { lines ≤ MOST_LINES }
    ensures { result ≡ min room (MOST_LINES - lines) }
{
    let left = MOST_LINES - lines;
    if room < left { room } else { left }
}

// How many bytes are asked for where so many may come: one, to see whether there is more, where
// none may.
fn most_of(left: u64) -> usize
    ensures some { 1 ≤ result }
    ensures piece { result ≤ PIECE }
    ensures few { 1 ≤ left → result ≤ left }
    ensures one { left ≡ 0 → result ≡ 1 }
{
    if left == 0 {
        return 1;
    }
    if left < PIECE as u64 {
        return left as usize;
    }
    PIECE
}

// How a run ended that this line ended.
fn ended_by<C: Explain + FromFlat>(line: LineBuffer, runner: &mut Runner<C>) -> RunEnd
    ensures lines { result.lines ≡ runner.old.number }
    ensures line { result.ended_by ≡ Some (record { line = line; is_cut = false }) }
    ensures tally { result.tally ≡ runner.old.tally }
{
    RunEnd {
        lines: runner.lines(),
        ended_by: Some(EndLine {
            line,
            is_cut: false,
        }),
        tally: runner.end(),
    }
}

// Reads pieces and answers their lines until the input ends, a line ends the run, a bound is
// passed, or the reader or the writer fails. No piece is longer than what may still come, so that
// nothing is read behind the byte that passes a bound.
fn run_pieces<C: Explain + FromFlat, R: Read, W: Write, E: Write>(
    runner: &mut Runner<C>,
    reader: &mut R,
    printer: &mut Printer<'_, W>,
    reasons: &mut Printer<'_, E>,
    mut buffer: LineBuffer,
    piece: &mut [u8],
) -> Result<RunEnd, ShellFault>
    requires piece { length piece.old ≡ PIECE }
    requires empty { buffer ≡ Some [] }
    requires none { (outlet W.contents printer.old).held ≡ [] }
    requires first { runner.old.number ≡ 0 }
    requires goes_on { runner.old.ended ≡ false }
    ensures { RunsAt (noting runner.old (outlet E.contents reasons.old))
        (R.remaining reader.old) (R.remaining reader.new)
        (outlet W.contents printer.old) (outlet W.contents printer.new)
        (outlet E.contents reasons.new) result }
{
    let mut room = MOST_BYTES;
    'pieces: loop {
        printer.hand_over()?;
        let left = left_of(room, runner.lines());
        let count = read_piece(reader, piece, most_of(left))?;
        if count == 0 {
            return Ok(finish(buffer, runner, printer, reasons)?);
        }
        if left == 0 {
            return Err(ShellFault::TooManyLines);
        }
        answer_piece(&piece[..count], &mut buffer, runner, printer, reasons)?;
        if runner.has_ended() {
            printer.hand_over()?;
            return Ok(ended_by(buffer, runner));
        }
        room -= count as u64;
    }
}

// Runs the script in pieces, over a printer of its own.
#[tactic(auto, using(crate::proofs::Ends::told_at))]
fn run_printed<C: Explain + FromFlat, R: Read, W: Write, E: Write>(
    runner: &mut Runner<C>,
    reader: &mut R,
    writer: &mut W,
    reasons: &mut Printer<'_, E>,
    buffer: LineBuffer,
    piece: &mut [u8],
) -> Result<RunEnd, ShellFault>
    requires piece { length piece.old ≡ PIECE }
    requires empty { buffer ≡ Some [] }
    requires first { runner.old.number ≡ 0 }
    requires goes_on { runner.old.ended ≡ false }
    ensures { Tells (noting runner.old (outlet E.contents reasons.old))
        (R.remaining reader.old) (R.remaining reader.new)
        (W.contents writer.old) (W.contents writer.new) (outlet E.contents reasons.new) result
        × HadMemory result }
{
    let mut printer = Printer::new(writer);
    run_pieces(runner, reader, &mut printer, reasons, buffer, piece)
}

/// Runs the script that the reader gives in some manner, as `run_over` does without any option, and
/// answers how it ended. A strict run ends at the first line that isn't answered by `ok`: what is
/// told for the lines up to that one is written then, and lines behind it are never run. The line
/// counts, and comes back as it is kept. A last line without its line feed is such a line, and is
/// never run as a remark either.
///
/// A run with numbers that isn't strict also prints at `reasons`, before the block of each bad line,
/// which word of it is at fault and why. If that writer fails, the run goes on.
///
/// The errors are those of `run_over`.
pub fn run_in<C: Explain + FromFlat, R: Read, W: Write, E: Write>(
    options: RunOptions,
    alloc: Global,
    reader: &mut R,
    writer: &mut W,
    reasons: &mut Printer<'_, E>,
    limits: Limits,
) -> Result<RunEnd, ShellFault>
    ensures told { Tells (begun options (fresh limits) (outlet E.contents reasons.old))
        (R.remaining reader.old) (R.remaining reader.new)
        (W.contents writer.old) (W.contents writer.new) (outlet E.contents reasons.new) result }
    ensures no_memory { IsErrOf result ShellFault.NoMemory
        → (reader.new ≡ reader.old) × (writer.new ≡ writer.old) × (reasons.new ≡ reasons.old) }
{
    let mut runner = Runner::<C>::new(alloc, limits, options)?;
    let buffer = LineBuffer::new(alloc)?;
    let mut piece = [0; PIECE];
    run_printed(&mut runner, reader, writer, reasons, buffer, &mut piece)
}

/// Runs the script as `run_in` does, for a program that ends after it: what the run kept stays in
/// memory, and the system takes it back all at once. To free each entry and each row of a long run
/// takes up to a fifth of its time.
pub fn run_to_exit<C: Explain + FromFlat, R: Read, W: Write, E: Write>(
    options: RunOptions,
    alloc: Global,
    reader: &mut R,
    writer: &mut W,
    reasons: &mut Printer<'_, E>,
    limits: Limits,
) -> Result<RunEnd, ShellFault>
    ensures told { Tells (begun options (fresh limits) (outlet E.contents reasons.old))
        (R.remaining reader.old) (R.remaining reader.new)
        (W.contents writer.old) (W.contents writer.new) (outlet E.contents reasons.new) result }
    ensures no_memory { IsErrOf result ShellFault.NoMemory
        → (reader.new ≡ reader.old) × (writer.new ≡ writer.old) × (reasons.new ≡ reasons.old) }
{
    let mut runner = Runner::<C>::new(alloc, limits, options)?;
    let buffer = LineBuffer::new(alloc)?;
    let mut piece = [0; PIECE];
    let ran = run_printed(&mut runner, reader, writer, reasons, buffer, &mut piece);
    mem::forget(runner);
    ran
}

/// Runs the script that the reader gives: answers each whole line at the writer, and answers how
/// many lines there were, a last one without its line feed counted. An empty line gets no reply, a
/// line of more than 8,192 bytes only that it is too long, and a last line without its line feed is
/// never run. The core stands in `alloc`, and so do a line that a piece cuts and the first bad line, 8 KiB
/// each. The pieces that are read are on the stack, 8 KiB at a time.
/// The writer is not flushed.
///
/// Before it reads on it has handed the answers to all whole lines that it was given to the writer.
///
/// At an error the reader and the writer have got as far as they have:
/// - NoMemory: there was no memory to begin with, and nothing is read or written. Later want of
///   memory is told in the line's reply, and the run goes on.
/// - ReadFault: the reader failed; the replies to the whole lines before are written. What is only
///   interrupted is read again.
/// - WriteFault: the writer failed, or took no byte of some.
/// - TooManyLines: a byte stands behind the 1,000,000th line feed, or behind 8,589,934,592 bytes;
///   the replies to the whole lines before are written.
pub fn run_over<C: Explain + FromFlat, R: Read, W: Write>(
    alloc: Global,
    reader: &mut R,
    writer: &mut W,
    limits: Limits,
) -> Result<u64, ShellFault>
    ensures ok { IfOk result (λ lines. Writes (ToldPlain (fresh limits) lines
        (R.remaining reader.old) (R.remaining reader.new))
        (W.contents writer.old) (W.contents writer.new)) }
    ensures err { IfErr result (HasFailedPlain (fresh limits)
        (R.remaining reader.old) (R.remaining reader.new)
        (W.contents writer.old) (W.contents writer.new)) }
    ensures no_memory { IsErrOf result ShellFault.NoMemory
        → (reader.new ≡ reader.old) × (writer.new ≡ writer.old) }
{
    let mut nowhere = io::sink();
    let mut reasons = Printer::new(&mut nowhere);
    match run_in::<C, R, W, Sink>(
        RunOptions::plain(),
        alloc,
        reader,
        writer,
        &mut reasons,
        limits,
    ) {
        Ok(ran) => Ok(ran.lines),
        Err(fault) => Err(fault),
    }
}
