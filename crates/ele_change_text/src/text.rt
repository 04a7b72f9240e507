//! Prints what changed between two moments. A contract sees a printer as its outlet.
ghost use Rattle.std.specs.Prelude.{◌≡◌, ◌∷◌, ◌++◌, [], codes, decimal, length};
ghost use Rattle.std.specs.List.{flat_map};
ghost use Rattle.ele_change_text.specs.ChangeText.{change_line, changes_text, kind_word, target_number, target_word};
ghost use Rattle.ele_output.specs.Line.{line_text};
ghost use Rattle.ele_output.specs.Prints.{Prints};
ghost use Rattle.ele_printer.specs.Printed.{end_word};

use ele_audit::put_path;
use ele_change_paths::{Difference, PathChange};
use ele_changes::ChangeKind;
use ele_commands::Word::Number;
use ele_commands::put_line_of;
use ele_model::{Refusal, Target};
use ele_moment::VersionNo;
use ele_output::{Printer, put_with_number};
use ele_printer::put_why;
use std::io::Write;

/// Prints how many changes there are, and a line for each; or the refusal in their place.
pub fn put_changes<W: Write>(found: &Result<Difference, Refusal>, printer: &mut Printer<'_, W>)
    ensures { Prints W.contents printer.old printer.new (changes_text found.now) }
{
    match found {
        Ok(found) => put_all(found.rows.as_slice(), printer),
        Err(refusal) => put_why(&Err(*refusal), printer),
    }
}

// Prints how many changes there are, and a line for each.
fn put_all<W: Write>(rows: &[PathChange], printer: &mut Printer<'_, W>)
    ensures { Prints W.contents printer.old printer.new
        (line_text (codes "ok changes" ∷ decimal (length rows.now) ∷ []) ++ flat_map change_line rows.now) }
{
    put_line_of(b"ok changes", &[Number(rows.len() as u64)], printer);
    put_lines(rows, printer);
}

// Prints the line of each change.
fn put_lines<W: Write>(rows: &[PathChange], printer: &mut Printer<'_, W>)
    ensures { Prints W.contents printer.old printer.new (flat_map change_line rows.now) }
{
    for row in rows {
        put_change(row, printer);
    }
}

// Prints the line of a change.
fn put_change<W: Write>(row: &PathChange, printer: &mut Printer<'_, W>)
    ensures { Prints W.contents printer.old printer.new (change_line row.now) }
{
    put_kind(row.change.kind, printer);
    put_target(&row.change.target, printer);
    put_version(&row.change.before, printer);
    put_version(&row.change.after, printer);
    put_path(&row.from, printer);
    put_path(&row.to, printer);
    printer.put(b"\n");
}

// Prints a dash, a space and the word of a kind.
fn put_kind<W: Write>(kind: ChangeKind, printer: &mut Printer<'_, W>)
    ensures { Prints W.contents printer.old printer.new (codes "- " ++ kind_word kind) }
{
    printer.put(b"- ");
    printer.put(kind_word(kind).as_bytes());
}

// The word of a kind.
fn kind_word(kind: ChangeKind) -> &'static str
    ensures { result.now ≡ kind_word kind }
{
    match kind {
        ChangeKind::Made => "made",
        ChangeKind::Back => "back",
        ChangeKind::Linked => "linked",
        ChangeKind::Renamed => "renamed",
        ChangeKind::Deleted => "deleted",
        ChangeKind::Unlinked => "unlinked",
        ChangeKind::Saved => "saved",
        ChangeKind::Forgotten => "forgotten",
    }
}

// Prints a space before each of: what a target is, and its number.
fn put_target<W: Write>(target: &Target, printer: &mut Printer<'_, W>)
    ensures { Prints W.contents printer.old printer.new
        (32 ∷ target_word target.now ++ (32 ∷ decimal (target_number target.now))) }
{
    match target {
        Target::File(file) => put_with_number(b" file ", file.0, printer),
        Target::Directory(directory) => put_with_number(b" directory ", directory.0, printer),
    }
}

// Prints a space and the number of a version, or `-`.
fn put_version<W: Write>(number: &Option<VersionNo>, printer: &mut Printer<'_, W>)
    ensures { Prints W.contents printer.old printer.new (32 ∷ end_word number.now) }
{
    match number {
        Some(number) => put_with_number(b" ", number.0, printer),
        None => printer.put(b" -"),
    }
}
