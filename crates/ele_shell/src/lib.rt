//! Runs scripts over a core, bytes in and text out, and audits its answers. It also exports the
//! calls for many threads. A contract sees the bytes that the reader gives and those that the
//! writer takes, if these are known.
#![tactic(auto)]

ghost use Rattle.std.specs.Prelude.{◌≡◌, IfErr, IfOk, IsErrOf};
ghost use Rattle.ele_history.specs.Past.{fresh};
ghost use Rattle.ele_runs.specs.Telling.{HasFailedPlain, ToldPlain, Writes};

mod audits;

pub use audits::audit;
use ele_core::Core;
use ele_model::Limits;
pub use ele_runs::ShellFault;
use ele_runs::run_over;
pub use ele_shared::{Elephant, Seat};
pub use ele_storm::{Flags, Meet, MeetEnd, StormFault, StormPlan, storm, work};
use std::alloc::Global;
use std::io::{Read, Write};

/// Runs the script that the reader gives. It writes the reply to each whole line, and returns how
/// many lines there were, with a last one that has no line feed. It writes no reply to an empty
/// line, and never runs a last line without its line feed. For a line of more than 8,192 bytes the
/// reply says only that it is too long. The core and the input buffer are in `alloc`. The writer is
/// not flushed.
///
/// Before it reads again, it has written the replies to all whole lines that it got.
///
/// An error leaves the reader and the writer where they are:
/// - NoMemory: there was no memory to begin with, and nothing is read or written. If memory is
///   refused later, the line's reply says so, and the run goes on.
/// - ReadFault: the reader failed; the replies to the whole lines before are written. An
///   interrupted read is repeated.
/// - WriteFault: the writer failed, or took no byte of some.
/// - TooManyLines: a byte follows the 1,000,000th line feed or the 8,589,934,592th byte; the
///   replies to the whole lines before are written.
pub fn run<R: Read, W: Write>(
    alloc: Global,
    reader: &mut R,
    writer: &mut W,
    limits: Limits,
) -> Result<u64, ShellFault>
    ensures ok { IfOk result (λ lines. Writes (ToldPlain (fresh limits) lines
        (R.remaining reader.old) (R.remaining reader.new))
        (W.contents writer.old) (W.contents writer.new)) }
    ensures err { IfErr result (HasFailedPlain (fresh limits)
        (R.remaining reader.old) (R.remaining reader.new)
        (W.contents writer.old) (W.contents writer.new)) }
    ensures no_memory { IsErrOf result ShellFault.NoMemory
        → (reader.new ≡ reader.old) × (writer.new ≡ writer.old) }
{
    run_over::<Core, R, W>(alloc, reader, writer, limits)
}
