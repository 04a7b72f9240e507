//! Prints versions, directories and names. A contract sees each as itself, and a printer as its
//! outlet.
ghost use Rattle.std.specs.Prelude.{◌≡◌, ◌∷◌, [], decimal};
ghost use Rattle.ele_commands.specs.Word.{word_text};
ghost use Rattle.ele_output.specs.Prints.{Prints};
ghost use Rattle.ele_printer.specs.Printed.{end_word, file_text, directory_text, target_words, version_line, name_line};

use crate::row::Row;
use ele_commands::Word::{self, Number, Plain, Policy};
use ele_commands::put_line_of;
use ele_model::{DirectoryRow, FileStat, KeptName, Target, VersionInfo};
use ele_moment::Moment;
use ele_output::Printer;
use std::io::Write;

/// Prints the line of a file's version, with the policy of the file.
pub(crate) fn put_file<W: Write>(stat: &FileStat, printer: &mut Printer<'_, W>)
    ensures { Prints W.contents printer.old printer.new (file_text stat.now) }
{
    let info = &stat.info;
    let words = [
        Number(stat.file.0),
        Plain(b"version"),
        Number(info.number.0),
        Plain(b"opened"),
        Word::Moment(info.opened),
        Plain(b"closed"),
        Word::Moment(info.closed),
        Plain(b"ended"),
        end_of(info.ended),
        Plain(b"length"),
        Number(info.length),
        Plain(b"policy"),
        Policy(&stat.policy),
    ];
    put_line_of(b"ok file", &words, printer);
}

/// Prints the line of a directory, with its default policy.
pub(crate) fn put_directory<W: Write>(row: &DirectoryRow, printer: &mut Printer<'_, W>)
    ensures { Prints W.contents printer.old printer.new (directory_text row.now) }
{
    let words = [Number(row.id.0), Plain(b"default"), Policy(&row.default)];
    put_line_of(b"ok directory", &words, printer);
}

// Returns the word of the moment at which a version ended: `-` for none.
fn end_of(ended: Option<Moment>) -> Word<'static>
    ensures { word_text result ≡ end_word ended }
{
    match ended {
        Some(moment) => Word::Moment(moment),
        None => Plain(b"-"),
    }
}

impl Row for VersionInfo {
    ghost row_line = { version_line };

    fn put_row<W: Write>(&self, printer: &mut Printer<'_, W>) {
        let (opened, closed) = (Word::Moment(self.opened), Word::Moment(self.closed));
        let (number, length) = (Number(self.number.0), Number(self.length));
        let words = [number, opened, closed, end_of(self.ended), length];
        put_line_of(b"-", &words, printer);
    }
}

/// Returns `file` or `directory`, and the number of the file or directory.
pub(crate) fn target_parts(target: Target) -> (&'static [u8], u64)
    ensures { target_words target ≡ result.0.now ∷ decimal result.1 ∷ [] }
{
    match target {
        Target::File(file) => (b"file", file.0),
        Target::Directory(directory) => (b"directory", directory.0),
    }
}

impl Row for (KeptName, Target) {
    ghost row_line = { name_line };

    fn put_row<W: Write>(&self, printer: &mut Printer<'_, W>) {
        let (kind, target) = target_parts(self.1);
        let words = [Word::Name(&self.0), Plain(kind), Number(target)];
        put_line_of(b"-", &words, printer);
    }
}
