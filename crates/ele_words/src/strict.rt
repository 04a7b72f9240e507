//! How a run ended, as the program reports it, above all the line that ended a strict run.
//! A contract sees what the writer holds then, and the status.
ghost use Rattle.std.specs.Prelude.{◌≡◌, ◌++◌};
ghost use Rattle.ele_output.specs.Outlet.{Reports};
ghost use Rattle.ele_output.specs.Prints.{Prints, outlet};
ghost use Rattle.ele_runs.specs.WhyBad.{why_line};
ghost use Rattle.ele_words.specs.RunEnds.{TellsRunEnd};
ghost use Rattle.ele_words.specs.StrictEnd.{IsWhyEnded, end_line, end_status, shown};

use crate::failure::{Failure, status};
use crate::summary::report_summary;
use ele_output::Printer;
use ele_reasons::Reason;
use ele_runs::{LineBuffer, RunEnd, RunOptions, put_why, why_bad, why_cut};
use ele_script::put_placed;
use std::alloc::Global;
use std::io::Write;

/// Reports the line that ended a strict run, and why it is no command if it is none. If no line
/// ended the run, writes the summary. Returns the exit status.
pub(crate) fn report_end<E: Write>(
    alloc: Global,
    options: RunOptions,
    ran: &RunEnd,
    errors: &mut Printer<'_, E>,
) -> u8
    ensures status { result ≡ end_status ran.now.ended_by }
    ensures told { TellsRunEnd options ran.now.lines ran.now.ended_by ran.now.tally
        (outlet E.contents errors.old) (outlet E.contents errors.new) }
{
    let Some(end) = &ran.ended_by else {
        report_summary(alloc, options, ran.lines, &ran.tally, errors);
        return 0;
    };
    let why = why_ended(alloc, options, end.is_cut, &end.line);
    put_line_of_end(ran.lines, &end.line, why, errors);
    errors.flush();
    status(Failure::StrictLine)
}

// Prints which line ended a run, and why it is no command.
fn put_line_of_end<E: Write>(
    number: u64,
    line: &LineBuffer,
    why: Option<Reason>,
    errors: &mut Printer<'_, E>,
)
    ensures { Prints E.contents errors.old errors.new
        (end_line number line.now ++ why_line number why) }
{
    put_placed(
        b"elephant: line",
        number,
        b"ended the run:",
        shown(line),
        errors,
    );
    put_why(number, why, errors);
}

// What is shown of the line that ended a run.
fn shown(line: &LineBuffer) -> &[u8]
    ensures { result.now ≡ shown line.now }
{
    match line.line() {
        Some(text) => text,
        None => b"more than 8192 bytes",
    }
}

/// Returns why the line is no command, or why a last line without its line feed is never run.
pub(crate) fn why_ended(
    alloc: Global,
    options: RunOptions,
    is_cut: bool,
    line: &LineBuffer,
) -> Option<Reason>
    ensures { IsWhyEnded is_cut options line.now result }
{
    if is_cut {
        return why_cut(line.line());
    }
    why_bad(alloc, options, line.line())
}
