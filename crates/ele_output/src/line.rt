//! Words in a line.
ghost use Rattle.std.specs.Prelude.{◌∷◌, [], map};
ghost use Rattle.std.specs.List.{join_with_byte};
ghost use Rattle.ele_output.specs.Line.{line_text};
ghost use Rattle.ele_output.specs.Prints.{Prints};

use crate::printer::Printer;
use std::io::Write;

/// Prints words with a space between each two, and a line feed.
pub fn put_line<W: Write>(first: &[u8], words: &[&[u8]], printer: &mut Printer<'_, W>)
    ensures { Prints W.contents printer.old printer.new
        (line_text (first.now ∷ map (λ word. word.now) words.now)) }
{
    put_words(first, words, printer);
    printer.put_byte(b'\n');
}

/// Prints words with a space between each two.
pub fn put_words<W: Write>(first: &[u8], words: &[&[u8]], printer: &mut Printer<'_, W>)
    ensures { Prints W.contents printer.old printer.new
        (join_with_byte 32 (first.now ∷ map (λ word. word.now) words.now)) }
{
    printer.put(first);
    for word in words {
        put_word(word, printer);
    }
}

/// Prints a space and a word.
pub fn put_word<W: Write>(word: &[u8], printer: &mut Printer<'_, W>)
    ensures { Prints W.contents printer.old printer.new (32 ∷ word.now) }
{
    printer.put_byte(b' ');
    printer.put(word);
}
