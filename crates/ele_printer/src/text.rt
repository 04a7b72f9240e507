//! Writes whole answers. A contract sees an answer as itself, and a writer as the bytes that it is
//! known to hold.
ghost use Rattle.ele_printer.specs.Printed.{WritesAnswer};

use crate::reply::put_reply;
use ele_model::{Reply, Stop};
use ele_output::{Printer, WriteFault};
use std::io::Write;

/// Writes the lines of a reply, or of the stop in its place. Returns a fault if the writer fails: then
/// it took a prefix of them.
pub fn write_reply<W: Write>(reply: &Result<Reply, Stop>, writer: &mut W) -> Result<(), WriteFault>
    ensures { WritesAnswer reply.now (W.contents writer.old) (W.contents writer.new) result }
{
    let mut printer = Printer::new(writer);
    put_reply(reply, &mut printer);
    printer.hand_over()
}
