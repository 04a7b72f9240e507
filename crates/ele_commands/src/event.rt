//! Prints events. A contract sees an event as its command and a list of values, and a printer as its
//! outlet.
ghost use Rattle.std.specs.Prelude.{◌++◌, map};
ghost use Rattle.std.specs.List.{AllByRecursion, join_with_byte};
ghost use Rattle.ele_commands.specs.Command.{command_words};
ghost use Rattle.ele_commands.specs.EventText.{IsValue, event_text, event_words};
ghost use Rattle.ele_commands.specs.Parts.{parts_of};
ghost use Rattle.ele_output.specs.Front.{WritesText};
ghost use Rattle.ele_output.specs.Line.{line_text};
ghost use Rattle.ele_output.specs.Prints.{Prints};
ghost use Rattle.ele_commands.specs.Word.{IsWord, word_text};

use crate::command::Command;
use crate::word::Word::{self, Bytes, Moment, Name, Number, Path, Policy, Source, Tagged, Timed};
use crate::word::put_each;
use ele_model::Event;
use ele_output::{Printer, WriteFault, put_words};
use std::io::Write;

/// Writes the line of an event: the words of its command, and a word for each value. Returns a fault
/// if the writer fails: then it took a prefix of the line.
pub fn write_event_text<W: Write>(event: &Event, writer: &mut W) -> Result<(), WriteFault>
    ensures text { WritesText (line_text (event_words event.now))
        (W.contents writer.old) (W.contents writer.new) result }
    ensures values { AllByRecursion IsValue (parts_of event.now).1 }
{
    let mut printer = Printer::new(writer);
    put_event_line(event, &mut printer);
    printer.hand_over()
}

/// Prints the line of an event.
pub fn put_event_line<W: Write>(event: &Event, printer: &mut Printer<'_, W>)
    ensures text { Prints W.contents printer.old printer.new (line_text (event_words event.now)) }
    ensures values { AllByRecursion IsValue (parts_of event.now).1 }
{
    put_event(event, printer);
    printer.put(b"\n");
}

/// Prints the words of an event, without a line feed: those of its command, and a word for each
/// value.
pub fn put_event<W: Write>(event: &Event, printer: &mut Printer<'_, W>)
    ensures text { Prints W.contents printer.old printer.new (event_text event.now) }
    ensures values { AllByRecursion IsValue (parts_of event.now).1 }
{
    match event {
        Event::Clock(moment) => put_parts(Command::Clock, &[Moment(*moment)], printer),
        Event::Tick(seconds) => put_parts(Command::Tick, &[Number(*seconds)], printer),
        Event::MakeDir(path) => put_parts(Command::MakeDir, &[Path(path)], printer),
        Event::RemoveDir(path) => put_parts(Command::RemoveDir, &[Path(path)], printer),
        Event::Create(path) => put_parts(Command::Create, &[Path(path)], printer),
        Event::Link(from, to) => put_parts(Command::Link, &[Path(from), Path(to)], printer),
        Event::Unlink(path) => put_parts(Command::Unlink, &[Path(path)], printer),
        Event::Rename(from, to) => put_parts(Command::Rename, &[Path(from), Path(to)], printer),
        Event::Undelete(path) => put_parts(Command::Undelete, &[Path(path)], printer),
        Event::OpenWrite(path) => put_parts(Command::OpenWrite, &[Path(path)], printer),
        Event::OpenRead(tagged) => put_parts(Command::OpenRead, &[Tagged(tagged)], printer),
        Event::Write(handle, offset, bytes) => {
            put_parts(
                Command::Write,
                &[Number(handle.0), Number(*offset), Bytes(bytes.as_slice())],
                printer,
            )
        }
        Event::Truncate(handle, size) => {
            put_parts(
                Command::Truncate,
                &[Number(handle.0), Number(*size)],
                printer,
            )
        }
        Event::Close(handle) => put_parts(Command::Close, &[Number(handle.0)], printer),
        Event::Abandon(handle) => put_parts(Command::Abandon, &[Number(handle.0)], printer),
        Event::Save(path, bytes) => {
            put_parts(
                Command::Save,
                &[Path(path), Bytes(bytes.as_slice())],
                printer,
            )
        }
        Event::Revert(path, number) => {
            put_parts(Command::Revert, &[Path(path), Number(number.0)], printer)
        }
        Event::Restore(path, moment) => {
            put_parts(Command::Restore, &[Path(path), Moment(*moment)], printer)
        }
        Event::SetPolicy(path, policy) => {
            put_parts(
                Command::SetPolicy,
                &[Path(path), Policy(policy.get())],
                printer,
            )
        }
        Event::SetDefault(path, policy) => {
            put_parts(
                Command::Default,
                &[Path(path), Policy(policy.get())],
                printer,
            )
        }
        Event::GroupMake(name) => put_parts(Command::GroupMake, &[Name(name)], printer),
        Event::GroupDrop(name) => put_parts(Command::GroupDrop, &[Name(name)], printer),
        Event::GroupAdd(name, path) => {
            put_parts(Command::GroupAdd, &[Name(name), Path(path)], printer)
        }
        Event::GroupRemove(name, path) => {
            put_parts(Command::GroupRemove, &[Name(name), Path(path)], printer)
        }
        Event::Mark(name, moment, None) => {
            put_parts(Command::Mark, &[Name(name), Moment(*moment)], printer)
        }
        Event::Mark(name, moment, Some(end)) => {
            put_parts(
                Command::Mark,
                &[Name(name), Moment(*moment), Moment(*end)],
                printer,
            )
        }
        Event::Unmark(name, moment) => {
            put_parts(Command::Unmark, &[Name(name), Moment(*moment)], printer)
        }
        Event::CleanOne => put_parts(Command::Clean, &[], printer),
        Event::Note(bytes) => put_parts(Command::Note, &[Bytes(bytes.as_slice())], printer),
        Event::Read(source) => put_parts(Command::Read, &[Source(source)], printer),
        Event::Stat(tagged) => put_parts(Command::Stat, &[Tagged(tagged)], printer),
        Event::Versions(timed) => put_parts(Command::Versions, &[Timed(timed)], printer),
        Event::List(timed) => put_parts(Command::ListNames, &[Timed(timed)], printer),
        Event::Restorable => put_parts(Command::Restorable, &[], printer),
        Event::Due => put_parts(Command::Due, &[], printer),
        Event::UsageAll => put_parts(Command::Usage, &[], printer),
        Event::GroupsAll => put_parts(Command::Groups, &[], printer),
    }
}

// Prints the words of a command, and the words after them.
fn put_parts<W: Write>(command: Command, words: &[Word<'_>], printer: &mut Printer<'_, W>)
    ensures text { Prints W.contents printer.old printer.new
        (join_with_byte 32 (command_words command ++ map word_text words.now)) }
    ensures are { AllByRecursion IsWord words.now }
{
    put_command(command, printer);
    put_each(words, printer);
}

// Prints the words of a command.
fn put_command<W: Write>(command: Command, printer: &mut Printer<'_, W>)
    ensures { Prints W.contents printer.old printer.new
        (join_with_byte 32 (command_words command)) }
{
    let (first, second) = command.words();
    if second.is_empty() {
        printer.put(first.as_bytes());
    } else {
        put_words(first.as_bytes(), &[second.as_bytes()], printer);
    }
}
