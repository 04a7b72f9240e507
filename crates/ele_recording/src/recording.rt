//! Runs a script into a history.
ghost use Rattle.std.specs.Prelude.{◌≡◌, IfErr, IfOk};
ghost use Rattle.ele_recording.specs.Heard.{FailsToHear, HearsAll, HearsLine};
ghost use Rattle.ele_recording.specs.Recording.{IsRecording, is_answered, recording};

use ele_evidence::line_of;
use ele_history::History;
use ele_model::{Explain, FromFlat, PassEnd};
use ele_run_options::RunOptions;
use ele_runs::{Said, hear_kept, kept_line};
use memchr::memchr;
use std::alloc::Global;

/// Why a script makes no history that can be handed over.
#[derive(Drop)]
pub enum Unrecorded {
    /// What the line with this number was answered: it is no command, or it was stopped.
    Line(u64, Said),
    /// The line with this number is the last one, and has no line feed.
    Cut(u64),
    /// A trim folded entries, which no text can show.
    Trimmed,
}

// Remarks are passed over, and questions answered: neither makes an entry.
fn recording() -> RunOptions
    ensures { result ≡ recording }
{
    RunOptions {
        strict: false,
        numbers: false,
        remarks: true,
        explain: true,
    }
}

// Whether a line was answered: it isn't bad, and wasn't stopped.
fn is_answered(said: &Said) -> bool
    ensures { result ≡ is_answered said.now }
{
    match said {
        Said::Bad(_) | Said::Stopped(_) | Said::Passed(PassEnd::Stopped(_, _)) => false,
        _ => true,
    }
}

// Runs a line into the history, and returns what was said of it if it wasn't answered.
fn answer<C: Explain + FromFlat>(
    alloc: Global,
    line: &[u8],
    history: &mut History<C>,
) -> Result<(), Said>
    ensures { HearsLine history.old line.now result history.new }
{
    let said = hear_kept(alloc, recording(), kept_line(line), history);
    if is_answered(&said) {
        Ok(())
    } else {
        Err(said)
    }
}

// Runs the whole lines of a script into the history, and returns what follows them, which has no
// line feed.
fn answer_lines<'s, C: Explain + FromFlat>(
    alloc: Global,
    script: &'s [u8],
    history: &mut History<C>,
) -> Result<&'s [u8], Unrecorded>
    ensures heard { IfOk result (λ rest. HearsAll history.old script.now rest.now history.new) }
    ensures unheard { IfErr result (FailsToHear history.old script.now) }
{
    let mut rest = script;
    'lines: while let Some(at) = memchr(b'\n', rest) {
        if let Err(said) = answer(alloc, rest.split_at(at).0, history) {
            return Err(Unrecorded::Line(line_of(script, rest), said));
        }
        rest = rest.split_at(at + 1).1;
    }
    Ok(rest)
}

/// Returns the history that the lines of a script make of this one. Empty lines and remarks, which
/// begin with `#`, make no entry. A refused event does.
///
/// `Line` at the first line that is no command or was stopped, also for want of memory, `Cut` if the
/// last line has no line feed, and `Trimmed` if entries are folded.
/// Cost: that of the lines.
#[tactic(auto, using(crate::proofs::Heard::not_heard))]
pub fn record<C: Explain + FromFlat>(
    alloc: Global,
    start: History<C>,
    script: &[u8],
) -> Result<History<C>, Unrecorded>
    ensures { IsRecording start script.now result }
{
    let mut history = start;
    let rest = match answer_lines(alloc, script, &mut history) {
        Ok(rest) => rest,
        Err(why) => return Err(why),
    };
    if !rest.is_empty() {
        return Err(Unrecorded::Cut(line_of(script, rest)));
    }
    if history.folded() != 0 {
        return Err(Unrecorded::Trimmed);
    }
    Ok(history)
}
