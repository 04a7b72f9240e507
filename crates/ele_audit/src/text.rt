//! Prints the answers to an audit. A contract sees a printer as its outlet.
ghost use Rattle.std.specs.Prelude.{◌≡◌, ◌∷◌, ◌++◌, [], List, ℕ, codes, decimal};
ghost use Rattle.std.specs.List.{flat_map};
ghost use Rattle.ele_audit.specs.AuditText.{AreAnswers, IsAnswersText, gone_text, gone_words, handle_line, handles_text, path_or_dash, read_word, removed_line, why_gone_text, why_held_text};
ghost use Rattle.ele_name_paths.specs.LivePath.{names_in};
ghost use Rattle.ele_audit.specs.Open.{file_of};
ghost use Rattle.ele_output.specs.Line.{line_text};
ghost use Rattle.ele_output.specs.Prints.{Prints};
ghost use Rattle.ele_path.specs.PathText.{path_word};
ghost use Rattle.ele_printer.specs.HistoryText.{entry_line};
ghost use Rattle.ele_printer.specs.Printed.{IsReplyText, end_word};

use crate::hold_text::put_hold;
use crate::row::{OpenHandle, Removed};
use ele_commands::Word::{self, Number};
use ele_commands::{put_event_line, put_line_of};
use ele_holds::Hold;
use ele_model::{Entry, Fate, HandleRow, Key, Reads};
use ele_moment::{Moment, Name};
use ele_output::{Printer, put_with_number};
use ele_printer::{put_answer, put_fate};
use std::io::Write;

/// Prints how many entries were folded, how many versions were removed since, and a line for each.
pub fn put_gone<W: Write>(folded: u64, removed: &[Removed], printer: &mut Printer<'_, W>)
    ensures { Prints W.contents printer.old printer.new (gone_text folded removed.now) }
{
    let words = [Number(folded), Number(removed.len() as u64)];
    put_line_of(b"ok gone", &words, printer);
    put_removed_lines(removed, printer);
}

// Prints the line of each removed version.
fn put_removed_lines<W: Write>(removed: &[Removed], printer: &mut Printer<'_, W>)
    ensures { Prints W.contents printer.old printer.new (flat_map removed_line removed.now) }
{
    for row in removed {
        put_removed(row, printer);
    }
}

// Prints the line of a removed version.
fn put_removed<W: Write>(row: &Removed, printer: &mut Printer<'_, W>)
    ensures { Prints W.contents printer.old printer.new (removed_line row.now) }
{
    put_version(row.at, &row.key, printer);
    put_path(&row.path, printer);
    put_hold(&row.hold, printer);
    put_gone_words(row.key.ripe, &row.fate, printer);
}

// Prints a space, the fate of a removed version or since when it was due, and a line feed.
fn put_gone_words<W: Write>(ripe: Moment, fate: &Option<Fate>, printer: &mut Printer<'_, W>)
    ensures { Prints W.contents printer.old printer.new (32 ∷ line_text (gone_words ripe fate.now)) }
{
    match fate {
        None => put_line_of(b" due", &[Word::Moment(ripe)], printer),
        Some(fate) => put_fate(fate, printer),
    }
}

// Prints a dash, a moment, and the file and the number of a version.
fn put_version<W: Write>(at: Moment, key: &Key, printer: &mut Printer<'_, W>)
    ensures { Prints W.contents printer.old printer.new
        ((codes "-" ++ ((32 ∷ decimal at) ++ (32 ∷ decimal key.now.file))) ++ (32 ∷ decimal key.now.number)) }
{
    put_numbers(at.seconds(), file_number(key), printer);
    put_with_number(b" ", version_number(key), printer);
}

// The number of the key's file.
fn file_number(key: &Key) -> u64
    ensures { result ≡ key.now.file }
{
    key.file.0
}

// The number of the key's version.
fn version_number(key: &Key) -> u64
    ensures { result ≡ key.now.number }
{
    key.number.0
}

// Prints a dash and two numbers.
fn put_numbers<W: Write>(first: u64, second: u64, printer: &mut Printer<'_, W>)
    ensures { Prints W.contents printer.old printer.new
        (codes "-" ++ ((32 ∷ decimal first) ++ (32 ∷ decimal second))) }
{
    printer.put(b"-");
    put_with_number(b" ", first, printer);
    put_with_number(b" ", second, printer);
}

/// Prints when a version was removed, the mark that held it longer than its policy, and why it was due.
pub fn put_why_gone<W: Write>(removed: &Removed, printer: &mut Printer<'_, W>)
    ensures { Prints W.contents printer.old printer.new (why_gone_text removed.now) }
{
    put_with_number(b"ok why removed ", removed.at.seconds(), printer);
    put_hold(&removed.hold, printer);
    put_gone_words(removed.key.ripe, &removed.fate, printer);
}

/// Prints the mark that held a version after its policy had let it go, and the version's fate.
pub fn put_why_held<W: Write>(fate: &Fate, hold: &Hold, printer: &mut Printer<'_, W>)
    ensures { Prints W.contents printer.old printer.new (why_held_text fate.now hold.now) }
{
    printer.put(b"ok why");
    put_hold(&Some(*hold), printer);
    put_fate(fate, printer);
}

/// Prints how many handles are open, and a line for each.
pub fn put_handles<W: Write>(handles: &[OpenHandle], printer: &mut Printer<'_, W>)
    ensures { Prints W.contents printer.old printer.new (handles_text handles.now) }
{
    put_line_of(b"ok handles", &[Number(handles.len() as u64)], printer);
    put_handle_lines(handles, printer);
}

// Prints the line of each handle.
fn put_handle_lines<W: Write>(handles: &[OpenHandle], printer: &mut Printer<'_, W>)
    ensures { Prints W.contents printer.old printer.new (flat_map handle_line handles.now) }
{
    for handle in handles {
        put_handle(handle, printer);
    }
}

// Prints the line of a handle.
fn put_handle<W: Write>(handle: &OpenHandle, printer: &mut Printer<'_, W>)
    ensures { Prints W.contents printer.old printer.new (handle_line handle.now) }
{
    put_with_number(b"- ", handle_number(&handle.row), printer);
    put_file(&handle.row.reads, printer);
    put_read(&handle.row.reads, printer);
    put_opening(&handle.since, &handle.path, printer);
}

// The number of a handle.
fn handle_number(row: &HandleRow) -> u64
    ensures { result ≡ row.now.number }
{
    row.number.0
}

/// Prints a space and a moment, a space and a path, with `-` for none, and a line feed.
pub(crate) fn put_opening<W: Write>(
    since: &Option<Moment>,
    path: &Option<Vec<Name>>,
    printer: &mut Printer<'_, W>,
)
    ensures { Prints W.contents printer.old printer.new
        ((32 ∷ end_word since.now) ++ ((32 ∷ path_or_dash (names_in path.now)) ++ 10 ∷ [])) }
{
    put_since(since, printer);
    put_path(path, printer);
    printer.put(b"\n");
}

// Prints a space and the number of the file that is read.
fn put_file<W: Write>(reads: &Reads, printer: &mut Printer<'_, W>)
    ensures { Prints W.contents printer.old printer.new (32 ∷ decimal (file_of reads.now)) }
{
    match reads {
        Reads::Draft(file) => put_with_number(b" ", file.0, printer),
        Reads::Version(file, _) => put_with_number(b" ", file.0, printer),
    }
}

// Prints a space and what is read.
fn put_read<W: Write>(reads: &Reads, printer: &mut Printer<'_, W>)
    ensures { Prints W.contents printer.old printer.new (32 ∷ read_word reads.now) }
{
    match reads {
        Reads::Draft(_) => printer.put(b" draft"),
        Reads::Version(_, number) => put_with_number(b" ", number.0, printer),
    }
}

/// Prints a space and the seconds of a moment, or `-`.
pub fn put_since<W: Write>(since: &Option<Moment>, printer: &mut Printer<'_, W>)
    ensures { Prints W.contents printer.old printer.new (32 ∷ end_word since.now) }
{
    match since {
        Some(moment) => put_with_number(b" ", moment.seconds(), printer),
        None => printer.put(b" -"),
    }
}

/// Prints a space and a path, or `-`.
pub fn put_path<W: Write>(path: &Option<Vec<Name>>, printer: &mut Printer<'_, W>)
    ensures { Prints W.contents printer.old printer.new (32 ∷ path_or_dash (names_in path.now)) }
{
    match path {
        Some(names) => put_names(names.as_slice(), printer),
        None => printer.put(b" -"),
    }
}

// Prints a space and the names, each with a slash before it, or a slash for none.
fn put_names<W: Write>(names: &[Name], printer: &mut Printer<'_, W>)
    ensures { Prints W.contents printer.old printer.new (32 ∷ path_word names.now) }
{
    if names.is_empty() {
        return printer.put(b" /");
    }
    printer.put(b" ");
    for name in names {
        put_step(name.bytes(), printer);
    }
}

// Prints a slash and the bytes of a name.
fn put_step<W: Write>(name: &[u8], printer: &mut Printer<'_, W>)
    ensures { Prints W.contents printer.old printer.new (47 ∷ name.now) }
{
    printer.put(b"/");
    printer.put(name);
}

/// Prints how many entries were folded, how many are stored, and the line of each stored event with
/// its reply.
pub fn put_answers<W: Write>(folded: u64, entries: &[Entry], printer: &mut Printer<'_, W>)
    ensures { (text : List ℕ) × IsAnswersText folded entries.now text × Prints W.contents
        printer.old printer.new text }
{
    let words = [Number(folded), Number(entries.len() as u64)];
    put_line_of(b"ok answers", &words, printer);
    put_each_answer(entries, printer);
}

// Prints the line of each event, and its reply.
fn put_each_answer<W: Write>(entries: &[Entry], printer: &mut Printer<'_, W>)
    ensures { (text : List ℕ) × AreAnswers entries.now text × Prints W.contents printer.old
        printer.new text }
{
    for entry in entries {
        put_entry(entry, printer);
    }
}

// Prints the line of an event, and its reply.
fn put_entry<W: Write>(entry: &Entry, printer: &mut Printer<'_, W>)
    ensures { (reply : List ℕ) × IsReplyText entry.now.reply reply × Prints W.contents
        printer.old printer.new (entry_line entry.now ++ reply) }
{
    printer.put(b"- ");
    put_event_line(&entry.event, printer);
    put_answer(&entry.reply, printer);
}
