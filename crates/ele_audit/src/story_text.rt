//! Prints the story of a file. A contract sees a printer as its outlet.
ghost use Rattle.std.specs.Prelude.{◌≡◌, ◌+◌, ◌++◌, ◌∷◌, [], Ok, Some, codes, decimal, length};
ghost use Rattle.std.specs.List.{flat_map};
ghost use Rattle.ele_audit.specs.HoldText.{spaced};
ghost use Rattle.ele_audit.specs.StoryText.{fate_or_dash, info_words, name_story_line, removed_words, story_text, version_story_line};
ghost use Rattle.ele_output.specs.Line.{line_text};
ghost use Rattle.ele_output.specs.Prints.{Prints};

use crate::hold_text::put_hold;
use crate::story_row::{NameStory, Story, VersionStory};
use crate::text::{put_opening, put_since};
use ele_commands::Word::Number;
use ele_commands::put_line_of;
use ele_model::{Fate, Refusal, VersionInfo};
use ele_moment::Moment;
use ele_output::{Printer, put_with_number};
use ele_printer::{put_fate, put_why};
use std::io::Write;

/// Prints the file of the story, how many lines there are, and a line for each version and then for
/// each name; or the refusal in its place.
pub fn put_story<W: Write>(told: &Result<Story, Refusal>, printer: &mut Printer<'_, W>)
    ensures { Prints W.contents printer.old printer.new (story_text told.now) }
{
    match told {
        Ok(story) => put_whole(story, printer),
        Err(refusal) => put_why(&Err(*refusal), printer),
    }
}

// Prints the same of a story.
fn put_whole<W: Write>(story: &Story, printer: &mut Printer<'_, W>)
    ensures { Prints W.contents printer.old printer.new (story_text (Ok story.now)) }
{
    put_lines(
        file_number(story),
        story.versions.as_slice(),
        story.names.as_slice(),
        printer,
    );
}

// Prints the number of a file, how many rows there are, and the line of each.
fn put_lines<W: Write>(
    file: u64,
    versions: &[VersionStory],
    names: &[NameStory],
    printer: &mut Printer<'_, W>,
)
    ensures { Prints W.contents printer.old printer.new
        (line_text (codes "ok story" ∷ decimal file ∷ decimal (length versions.now + length names.now) ∷ [])
        ++ (flat_map version_story_line versions.now ++ flat_map name_story_line names.now)) }
{
    let words = [Number(file), Number(count_lines(versions, names))];
    put_line_of(b"ok story", &words, printer);
    put_versions(versions, printer);
    put_names(names, printer);
}

// The number of the story's file.
fn file_number(story: &Story) -> u64
    ensures { result ≡ story.now.file }
{
    story.file.0
}

// How many rows there are.
fn count_lines(versions: &[VersionStory], names: &[NameStory]) -> u64
    ensures { result ≡ length versions.now + length names.now }
{
    versions.len() as u64 + names.len() as u64
}

// Prints the line of each version.
fn put_versions<W: Write>(rows: &[VersionStory], printer: &mut Printer<'_, W>)
    ensures { Prints W.contents printer.old printer.new (flat_map version_story_line rows.now) }
{
    for row in rows {
        put_version(row, printer);
    }
}

// Prints the line of each name.
fn put_names<W: Write>(names: &[NameStory], printer: &mut Printer<'_, W>)
    ensures { Prints W.contents printer.old printer.new (flat_map name_story_line names.now) }
{
    for name in names {
        put_name(name, printer);
    }
}

// Prints the line of a version.
fn put_version<W: Write>(row: &VersionStory, printer: &mut Printer<'_, W>)
    ensures { Prints W.contents printer.old printer.new (version_story_line row.now) }
{
    put_with_number(b"- version ", version_number(row), printer);
    put_info(&row.info, printer);
    put_removed_at(&row.removed, printer);
    put_hold(&row.hold, printer);
    put_fate_or_dash(&row.fate, printer);
}

// The number of a version.
fn version_number(row: &VersionStory) -> u64
    ensures { result ≡ row.now.number }
{
    row.number.0
}

// Prints a space before each of: when a version closed, when it ended, and its length.
fn put_info<W: Write>(info: &Option<VersionInfo>, printer: &mut Printer<'_, W>)
    ensures { Prints W.contents printer.old printer.new (spaced (info_words info.now)) }
{
    match info {
        Some(info) => put_known(info, printer),
        None => printer.put(b" - - -"),
    }
}

// Prints the same of what is known.
fn put_known<W: Write>(info: &VersionInfo, printer: &mut Printer<'_, W>)
    ensures { Prints W.contents printer.old printer.new (spaced (info_words (Some info.now))) }
{
    put_with_number(b" ", info.closed.seconds(), printer);
    put_since(&info.ended, printer);
    put_with_number(b" ", info.length, printer);
}

// Prints when a version was removed, if it was.
fn put_removed_at<W: Write>(removed: &Option<Moment>, printer: &mut Printer<'_, W>)
    ensures { Prints W.contents printer.old printer.new (spaced (removed_words removed.now)) }
{
    match removed {
        Some(moment) => put_with_number(b" removed ", moment.seconds(), printer),
        None => {}
    }
}

/// Prints a space, a fate or a dash, and a line feed.
pub fn put_fate_or_dash<W: Write>(fate: &Option<Fate>, printer: &mut Printer<'_, W>)
    ensures { Prints W.contents printer.old printer.new (32 ∷ line_text (fate_or_dash fate.now)) }
{
    match fate {
        Some(fate) => put_fate(fate, printer),
        None => printer.put(b" -\n"),
    }
}

// Prints the line of a name.
fn put_name<W: Write>(name: &NameStory, printer: &mut Printer<'_, W>)
    ensures { Prints W.contents printer.old printer.new (name_story_line name.now) }
{
    put_with_number(b"- name ", name.birth.seconds(), printer);
    put_opening(&name.death, &name.path, printer);
}
