//! Writes events as lines. A contract sees an event as itself, and a writer as the bytes that it is
//! known to hold.
ghost use Rattle.std.specs.Prelude.{◌++◌, ◌∷◌, []};
ghost use Rattle.ele_output.specs.Front.{WritesText};
ghost use Rattle.ele_commands.specs.EventText.{event_text};
ghost use Rattle.ele_script.specs.Spells.{Spells};

use ele_commands::write_event_text;
use ele_model::Event;
use ele_output::WriteFault;
use std::io::Write;

/// Writes an event as the line that spells it, and a line feed. If the writer fails, it has taken a
/// prefix of these. A line of at most 8,192 bytes reads back as that event.
#[tactic(auto, using(crate::proofs::EventBack::event_back))]
pub fn write_event<W: Write>(event: &Event, writer: &mut W) -> Result<(), WriteFault>
    ensures text { WritesText (event_text event.now ++ 10 ∷ []) (W.contents writer.old)
        (W.contents writer.new) result }
    ensures spells { Spells (event_text event.now) event.now }
{
    write_event_text(event, writer)
}
