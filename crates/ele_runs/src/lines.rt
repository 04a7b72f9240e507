//! Answers the lines of a piece.
//! A contract sees the lines that end in the piece, and the text that was printed for them.
ghost use Rattle.std.specs.Prelude.{◌≡◌, ◌+◌, ◌^◌, ◌<◌, ◌≤◌, ◌++◌, [], true, false, Some, length};
ghost use Rattle.std.specs.Option.{option_map, option_and_then};
ghost use Rattle.memchr.specs.Find.{IsFirstByte, is_byte};
ghost use Rattle.ele_printer.specs.Printed.{bad_text};
ghost use Rattle.ele_output.specs.Outlet.{Outputs};
ghost use Rattle.ele_output.specs.Prints.{outlet, Prints};
ghost use Rattle.ele_runs.specs.Block.{cut_count};
ghost use Rattle.ele_runs.specs.RunState.{noting};
ghost use Rattle.ele_runs.specs.LineLength.{line_unless_long};
ghost use Rattle.ele_runs.specs.Note.{cut_note};
ghost use Rattle.ele_runs.specs.Piece.{AnswersPiece};
ghost use Rattle.ele_runs.specs.Said.{said_front};
ghost use Rattle.ele_runs.specs.Told.{cut_told};
ghost use Rattle.ele_runs.specs.Written.{PutsBlock, WritesLast};

use crate::end::{EndLine, RunEnd};
use crate::line_buffer::{LineBuffer, kept_line};
use crate::runner::Runner;
use crate::said::Said;
use ele_model::{Explain, FromFlat};
use ele_output::{Printer, WriteFault};
use ele_script::{LineFault, put_fault};
use memchr::memchr;
use std::io::Write;

// Answers the line that ends with these bytes. Then begins a new line, unless this one ended the run.
// No line is answered after the writer has failed.
fn put_whole<C: Explain + FromFlat, W: Write, E: Write>(
    end: &[u8],
    buffer: &mut LineBuffer,
    runner: &mut Runner<C>,
    printer: &mut Printer<'_, W>,
    reasons: &mut Printer<'_, E>,
)
    requires goes_on { runner.old.ended ≡ false }
    requires few { runner.old.number + 1 < 2 ^ 64 }
    requires works { printer.old.has_failed ≡ false }
    ensures block { PutsBlock (noting runner.old (outlet E.contents reasons.old))
        (option_and_then (λ line. line_unless_long (line ++ end.now)) buffer.old)
        (noting runner.new (outlet E.contents reasons.new))
        (outlet W.contents printer.old) (outlet W.contents printer.new) }
    ensures begun { runner.new.ended ≡ false → buffer.new ≡ Some [] }
    ensures kept { runner.new.ended ≡ true → buffer.new
        ≡ option_and_then (λ line. line_unless_long (line ++ end.now)) buffer.old }
{
    if buffer.is_empty() {
        runner.put_block(kept_line(end), printer, reasons);
        if runner.has_ended() {
            buffer.extend(end);
        }
        return;
    }
    buffer.extend(end);
    runner.put_block(buffer.line(), printer, reasons);
    if !runner.has_ended() {
        buffer.clear();
    }
}

// Returns the place of the first line feed.
fn line_end(bytes: &[u8]) -> Option<usize>
    ensures { IsFirstByte (is_byte 10) bytes.now result }
{
    memchr(b'\n', bytes)
}

/// Answers the lines that end in the piece, and keeps the bytes after them, or the line that ended the
/// run. Returns a fault if the writer fails: then no later line is answered.
pub(crate) fn answer_piece<C: Explain + FromFlat, W: Write, E: Write>(
    piece: &[u8],
    buffer: &mut LineBuffer,
    runner: &mut Runner<C>,
    printer: &mut Printer<'_, W>,
    reasons: &mut Printer<'_, E>,
) -> Result<(), WriteFault>
    requires goes_on { runner.old.ended ≡ false }
    requires few { runner.old.number + length piece.now < 2 ^ 64 }
    requires works { printer.old.has_failed ≡ false }
    ensures { AnswersPiece (noting runner.old (outlet E.contents reasons.old))
        (noting runner.new (outlet E.contents reasons.new)) buffer.old piece.now buffer.new
        (outlet W.contents printer.old) (outlet W.contents printer.new) result }
{
    let mut rest = piece;
    'lines: while let Some(at) = line_end(rest) {
        put_whole(&rest[..at], buffer, runner, printer, reasons);
        printer.check()?;
        if runner.has_ended() {
            return Ok(());
        }
        rest = rest.split_at(at + 1).1;
    }
    buffer.extend(rest);
    Ok(())
}

// Prints the fault of a last line without its line feed, after its number if lines are numbered.
fn put_cut_fault<C: Explain + FromFlat, W: Write>(
    fault: LineFault,
    runner: &Runner<C>,
    printer: &mut Printer<'_, W>,
)
    requires { runner.now.number + 1 < 2 ^ 64 }
    ensures { Prints W.contents printer.old printer.new
        (said_front runner.now.options (runner.now.number + 1) (Said.Bad fault) ++ bad_text fault) }
{
    Said::Bad(fault).put_front(runner.options(), runner.lines() + 1, printer);
    put_fault(fault, printer);
}

// Prints the block of a last line without its line feed, which is never run. Returns 1 if the line
// counts, or 0 if it is empty.
fn put_cut<C: Explain + FromFlat, W: Write>(
    line: Option<&[u8]>,
    runner: &Runner<C>,
    printer: &mut Printer<'_, W>,
) -> u64
    requires { runner.now.number + 1 < 2 ^ 64 }
    ensures count { result ≡ cut_count (option_map (λ line. line.now) line.entry) }
    ensures few { result ≤ 1 }
    ensures put { Prints W.contents printer.old printer.new
        (cut_told runner.now (option_map (λ line. line.now) line.entry)) }
{
    let fault = match line {
        None => LineFault::LineTooLong,
        Some([]) => return 0,
        Some(_) => LineFault::Syntax,
    };
    put_cut_fault(fault, runner, printer);
    1
}

/// Writes the buffered output, and the block and the reason of a last line without its line feed.
/// Returns the end of the run: the last line counts unless it is empty, and then ends a strict run.
/// Returns a fault if the writer fails: then it took a prefix.
pub(crate) fn finish<C: Explain + FromFlat, W: Write, E: Write>(
    buffer: LineBuffer,
    runner: &mut Runner<C>,
    printer: &mut Printer<'_, W>,
    reasons: &mut Printer<'_, E>,
) -> Result<RunEnd, WriteFault>
    requires goes_on { runner.old.ended ≡ false }
    requires few { runner.old.number + 1 < 2 ^ 64 }
    ensures last { WritesLast runner.old buffer (outlet W.contents printer.old)
        (outlet W.contents printer.new) result }
    ensures noted { Outputs (outlet E.contents reasons.old) (outlet E.contents reasons.new)
        (cut_note runner.old buffer) }
{
    runner.tell_cut(buffer.line(), reasons);
    let cut = put_cut(buffer.line(), runner, printer);
    printer.hand_over()?;
    let lines = runner.lines() + cut;
    if runner.options().strict && cut > 0 {
        let tally = runner.end_at_cut(&buffer);
        return Ok(RunEnd {
            lines,
            ended_by: Some(EndLine {
                line: buffer,
                is_cut: true,
            }),
            tally,
        });
    }
    let tally = runner.end_at_cut(&buffer);
    Ok(RunEnd {
        lines,
        ended_by: None,
        tally,
    })
}
