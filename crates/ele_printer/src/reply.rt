//! Prints replies. A contract sees a reply as itself, and a printer as its outlet.
ghost use Rattle.std.specs.Prelude.{◌++◌, ◌∷◌, [], List, ℕ, decimal};
ghost use Rattle.ele_output.specs.Prints.{Prints};
ghost use Rattle.ele_output.specs.Line.{line_text};
ghost use Rattle.ele_printer.specs.Printed.{bytes_text, key_words, closed_text, restorable_line, due_line, usage_line, usage_text, stop_text, pass_text, bad_text, IsAnswerText, IsReplyText};

use crate::fault::LineFault;
use crate::refusal::put_refusal;
use crate::row::{Row, put_rows};
use crate::rows::{put_directory, put_file, target_parts};
use ele_commands::Word::{Bytes, Moment, Name, Number, Plain};
use ele_commands::put_line_of;
use ele_model::{DeletedName, Key, PassEnd, Reply, Stop, Usage, VersionNo};
use ele_output::{Printer, put_number};
use std::io::Write;

/// Prints the lines of a reply, or of the stop in its place.
pub fn put_reply<W: Write>(reply: &Result<Reply, Stop>, printer: &mut Printer<'_, W>)
    ensures { (text : List ℕ) × IsAnswerText reply.now text × Prints W.contents printer.old
        printer.new text }
{
    match reply {
        Ok(reply) => put_answer(reply, printer),
        Err(stop) => put_stop(*stop, printer),
    }
}

/// Prints the line for a bad line: `bad`, and the number and the name of the fault.
pub fn put_fault<W: Write>(fault: LineFault, printer: &mut Printer<'_, W>)
    ensures { Prints W.contents printer.old printer.new (bad_text fault) }
{
    put_named(b"bad", fault.number(), fault.name(), printer);
}

/// Prints the line of a pass: how it ended, and the number of versions that it removed.
pub fn put_pass<W: Write>(end: &PassEnd, printer: &mut Printer<'_, W>)
    ensures { Prints W.contents printer.old printer.new (pass_text end.now) }
{
    match *end {
        PassEnd::Finished(removed) => put_line_of(b"ok pass finished", &[Number(removed)], printer),
        PassEnd::Budget(removed) => put_line_of(b"ok pass budget", &[Number(removed)], printer),
        PassEnd::Stopped(stop, removed) => {
            let number = Number(stop.number() as u64);
            let name = Plain(stop.name().as_bytes());
            let words = [number, name, Plain(b"removed"), Number(removed)];
            put_line_of(b"stop", &words, printer);
        }
    }
}

/// Prints the lines of a reply.
pub fn put_answer<W: Write>(reply: &Reply, printer: &mut Printer<'_, W>)
    ensures { (text : List ℕ) × IsReplyText reply.now text × Prints W.contents printer.old
        printer.new text }
{
    match reply {
        Reply::Done => printer.put(b"ok done\n"),
        Reply::Nothing => printer.put(b"ok nothing\n"),
        Reply::Now(moment) => {
            put_line_of(
                b"ok now",
                &[Moment(*moment), Plain(&moment.text())],
                printer,
            )
        }
        Reply::Directory(id) => put_line_of(b"ok directory", &[Number(id.0)], printer),
        Reply::File(file) => put_line_of(b"ok file", &[Number(file.0)], printer),
        Reply::Handle(handle) => put_line_of(b"ok handle", &[Number(handle.0)], printer),
        Reply::Version(number) => put_line_of(b"ok version", &[Number(number.0)], printer),
        Reply::Closed(made) => put_closed(*made, printer),
        Reply::Removed(key) => put_key(b"ok removed", *key, printer),
        Reply::Bytes(bytes) => put_bytes(bytes.as_slice(), printer),
        Reply::FileStat(stat) => put_file(stat.get(), printer),
        Reply::DirStat(row) => put_directory(row.get(), printer),
        Reply::Rows(versions) => put_rows(b"ok versions", versions.as_slice(), printer),
        Reply::NameList(names) => put_rows(b"ok names", names.as_slice(), printer),
        Reply::RestoreList(names) => put_rows(b"ok restorable", names.as_slice(), printer),
        Reply::DueList(keys) => put_rows(b"ok due", keys.as_slice(), printer),
        Reply::UsageList(usages) => put_usages(usages.get(), printer),
        Reply::GroupList(groups) => put_rows(b"ok groups", groups.as_slice(), printer),
        Reply::Refused(why) => put_refusal(why, printer),
    }
}

// Prints the line of a close, with the number of the version if it made one.
fn put_closed<W: Write>(made: Option<VersionNo>, printer: &mut Printer<'_, W>)
    ensures { Prints W.contents printer.old printer.new (closed_text made) }
{
    match made {
        Some(number) => put_line_of(b"ok closed version", &[Number(number.0)], printer),
        None => put_line_of(b"ok closed", &[], printer),
    }
}

/// Prints a number and a space, which precede a line.
pub fn put_in_front<W: Write>(number: u64, printer: &mut Printer<'_, W>)
    ensures { Prints W.contents printer.old printer.new (decimal number ++ 32 ∷ []) }
{
    put_number(number, printer);
    printer.put(b" ");
}

// Prints the line of bytes: their number, and their digits.
fn put_bytes<W: Write>(bytes: &[u8], printer: &mut Printer<'_, W>)
    ensures { Prints W.contents printer.old printer.new (bytes_text bytes.now) }
{
    put_line_of(
        b"ok bytes",
        &[Number(bytes.len() as u64), Bytes(bytes)],
        printer,
    );
}

// Prints a line of a first word and a key.
fn put_key<W: Write>(first: &[u8], key: Key, printer: &mut Printer<'_, W>)
    ensures { Prints W.contents printer.old printer.new
        (line_text (first.now ∷ key_words key)) }
{
    let words = [Moment(key.ripe), Number(key.file.0), Number(key.number.0)];
    put_line_of(first, &words, printer);
}

impl Row for Key {
    ghost row_line = { due_line };

    fn put_row<W: Write>(&self, printer: &mut Printer<'_, W>) {
        put_key(b"-", *self, printer);
    }
}

impl Row for DeletedName {
    ghost row_line = { restorable_line };

    fn put_row<W: Write>(&self, printer: &mut Printer<'_, W>) {
        let (kind, target) = target_parts(self.target);
        let words = [
            Number(self.directory.0),
            Name(&self.name),
            Plain(kind),
            Number(target),
        ];
        put_line_of(b"-", &words, printer);
    }
}

// Prints the usage of each kind of policy.
fn put_usages<W: Write>(usages: &[Usage; 4], printer: &mut Printer<'_, W>)
    ensures { Prints W.contents printer.old printer.new (usage_text usages.now) }
{
    let [one, all, safe, landmarks] = *usages;
    put_line_of(b"ok usage", &[Number(4)], printer);
    put_usage(b"one", one, printer);
    put_usage(b"all", all, printer);
    put_usage(b"safe", safe, printer);
    put_usage(b"landmarks", landmarks, printer);
}

// Prints the line of the usage of a kind of policy.
fn put_usage<W: Write>(kind: &[u8], usage: Usage, printer: &mut Printer<'_, W>)
    ensures { Prints W.contents printer.old printer.new (usage_line kind.now usage) }
{
    let (files, versions) = (Number(usage.files), Number(usage.versions));
    let (bytes, blocks) = (Number(usage.bytes), Number(usage.blocks));
    put_line_of(
        b"-",
        &[Plain(kind), files, versions, bytes, blocks],
        printer,
    );
}

/// Prints a line of a first word, a number and a name.
pub fn put_named<W: Write>(first: &[u8], number: u8, name: &str, printer: &mut Printer<'_, W>)
    ensures { Prints W.contents printer.old printer.new
        (line_text (first.now ∷ decimal number ∷ name.now ∷ [])) }
{
    put_line_of(
        first,
        &[Number(number as u64), Plain(name.as_bytes())],
        printer,
    );
}

/// Prints a line of a first word, a number and two other words.
pub fn put_placed<'w, W: Write>(
    first: &[u8],
    number: u64,
    middle: &'w [u8],
    last: &'w [u8],
    printer: &mut Printer<'_, W>,
)
    ensures { Prints W.contents printer.old printer.new
        (line_text (first.now ∷ decimal number ∷ middle.now ∷ last.now ∷ [])) }
{
    put_line_of(
        first,
        &[Number(number), Plain(middle), Plain(last)],
        printer,
    );
}

/// Prints the line of a stop: `stop`, its number and its name.
pub fn put_stop<W: Write>(stop: Stop, printer: &mut Printer<'_, W>)
    ensures { Prints W.contents printer.old printer.new (stop_text stop) }
{
    put_named(b"stop", stop.number(), stop.name(), printer);
}
