//! Prints paths and their tags. A contract sees a path as the list of its names, and a printer as
//! its outlet.
ghost use Rattle.std.specs.Prelude.{◌≡◌, ◌∷◌};
ghost use Rattle.ele_commands.specs.EventText.{IsTag};
ghost use Rattle.ele_output.specs.Prints.{Prints};
ghost use Rattle.ele_path.specs.PathAt.{tag_at};
ghost use Rattle.ele_path.specs.PathText.{path_word, tag_text};

use ele_moment::Moment;
use ele_output::{Printer, put_with_number};
use ele_path::{Path, Tag};
use std::io::Write;

/// Prints a space and a path: a slash for the root, otherwise a slash before each name.
pub(crate) fn put_path<W: Write>(path: &Path, printer: &mut Printer<'_, W>)
    ensures { Prints W.contents printer.old printer.new (32 ∷ path_word path.now) }
{
    printer.put(b" ");
    let text = path.text();
    if text.is_empty() {
        return printer.put(b"/");
    }
    printer.put(text);
}

/// Prints the tag that follows a path: `@` and a moment, `#` and a version's number, or nothing.
pub(crate) fn put_tag<W: Write>(tag: Tag, printer: &mut Printer<'_, W>)
    ensures { Prints W.contents printer.old printer.new (tag_text tag) }
{
    match tag {
        Tag::Now => printer.put(b""),
        Tag::At(moment) => put_with_number(b"@", moment.seconds(), printer),
        Tag::Number(number) => put_with_number(b"#", number.0, printer),
    }
}

/// Returns the tag of a moment, or of now if there is none.
pub(crate) fn tag_of(moment: Option<Moment>) -> Tag
    ensures { result ≡ tag_at moment }
{
    match moment {
        Some(moment) => Tag::At(moment),
        None => Tag::Now,
    }
}

/// Its contract says that the moment or number of a tag is in range.
pub(crate) fn lemma_tag(tag: Tag)
    ensures { IsTag tag }
{
    match tag {
        Tag::At(moment) => {
            moment.lemma_in_range();
        }
        Tag::Now | Tag::Number(_) => {}
    }
}
