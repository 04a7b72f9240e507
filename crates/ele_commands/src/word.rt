//! The words of a line. A contract sees each as its bytes, and a printer as its outlet.
ghost use Rattle.std.specs.Prelude.{◌<◌, ◌^◌, ◌∷◌, All, map};
ghost use Rattle.std.specs.List.{AllByRecursion, flat_map};
ghost use Rattle.ele_commands.specs.EventText.{IsSource, IsTag, source_word};
ghost use Rattle.ele_commands.specs.Word.{IsWord, word_text};
ghost use Rattle.ele_output.specs.Line.{line_text};
ghost use Rattle.ele_output.specs.Prints.{Prints};
ghost use Rattle.ele_path.specs.Path.{IsPath};
ghost use Rattle.ele_path.specs.PathAt.{tag_at};
ghost use Rattle.ele_path.specs.PathText.{tagged_word};

use crate::byte_words::put_byte_word;
use crate::path_words::{lemma_tag, put_path, put_tag, tag_of};
use crate::policy_words::put_policy;
use ele_model::Source;
use ele_moment::Moment;
use ele_output::{Printer, put_with_number, put_word};
use ele_path::{KeptName, Path, PathAt, Tag, TaggedPath};
use ele_policy::Policy;
use std::io::Write;

/// A word of a line.
#[derive(Clone, Copy)]
pub enum Word<'w> {
    /// Bytes as they are.
    Plain(&'w [u8]),
    /// A number.
    Number(u64),
    /// A moment.
    Moment(Moment),
    /// A name.
    Name(&'w KeptName),
    /// A path.
    Path(&'w Path),
    /// A path with a tag.
    Tagged(&'w TaggedPath),
    /// A path at a moment.
    Timed(&'w PathAt),
    /// What a read reads: a path with a tag, or a handle.
    Source(&'w Source),
    /// Bytes in hexadecimal digits.
    Bytes(&'w [u8]),
    /// A policy.
    Policy(&'w Policy),
}

impl Word<'_> {
    // Its contract says that the value of the word is in the range of its type.
    fn lemma_word(&self)
        ensures { IsWord self.now }
    {
        match self {
            Word::Plain(_) => {}
            Word::Number(number) => lemma_number(*number),
            Word::Moment(moment) => {
                moment.lemma_in_range();
            }
            Word::Name(name) => {
                name.bytes();
            }
            Word::Path(path) => {
                path.names();
            }
            Word::Tagged(tagged) => lemma_tagged(tagged),
            Word::Timed(timed) => lemma_timed(timed),
            Word::Source(source) => lemma_source(source),
            Word::Bytes(bytes) => lemma_bytes(bytes),
            Word::Policy(policy) => policy.lemma_valid(),
        }
    }

    // Prints a space and the word.
    fn put<W: Write>(&self, printer: &mut Printer<'_, W>)
        ensures { Prints W.contents printer.old printer.new (32 ∷ word_text self.now) }
    {
        match self {
            Word::Plain(bytes) => put_word(bytes, printer),
            Word::Number(number) => put_with_number(b" ", *number, printer),
            Word::Moment(moment) => put_with_number(b" ", moment.seconds(), printer),
            Word::Name(name) => put_word(name.bytes(), printer),
            Word::Path(path) => put_path(path, printer),
            Word::Tagged(tagged) => put_tagged(tagged.path(), tagged.tag(), printer),
            Word::Timed(timed) => put_tagged(&timed.path, tag_of(timed.moment), printer),
            Word::Source(source) => put_source(source, printer),
            Word::Bytes(bytes) => put_byte_word(bytes, printer),
            Word::Policy(policy) => put_policy(policy, printer),
        }
    }
}

/// Prints a space and the word, for each word.
pub(crate) fn put_each<W: Write>(words: &[Word<'_>], printer: &mut Printer<'_, W>)
    ensures text { Prints W.contents printer.old printer.new
        (flat_map (λ word. 32 ∷ word_text word) words.now) }
    ensures are { AllByRecursion IsWord words.now }
{
    for word in words {
        word.lemma_word();
        word.put(printer);
    }
}

/// Prints a line: first the bytes, then a space and the word for each word, then a line feed.
pub fn put_line_of<W: Write>(first: &[u8], words: &[Word<'_>], printer: &mut Printer<'_, W>)
    ensures { Prints W.contents printer.old printer.new
        (line_text (first.now ∷ map word_text words.now)) }
{
    printer.put(first);
    put_each(words, printer);
    printer.put_byte(b'\n');
}

// Prints a space, a path and its tag.
#[inline(never)]
fn put_tagged<W: Write>(path: &Path, tag: Tag, printer: &mut Printer<'_, W>)
    ensures { Prints W.contents printer.old printer.new (32 ∷ tagged_word path.now tag) }
{
    put_path(path, printer);
    put_tag(tag, printer);
}

// Prints a space, and a path with a tag or the number of a handle.
#[inline(never)]
fn put_source<W: Write>(source: &Source, printer: &mut Printer<'_, W>)
    ensures { Prints W.contents printer.old printer.new (32 ∷ source_word source.now) }
{
    match source {
        Source::Tagged(tagged) => put_tagged(tagged.path(), tagged.tag(), printer),
        Source::Of(handle) => put_with_number(b" ", handle.0, printer),
    }
}

// Its contract says that a path with a tag is valid.
fn lemma_tagged(tagged: &TaggedPath)
    ensures { IsPath tagged.now.path × IsTag tagged.now.tag }
{
    tagged.path().names();
    lemma_tag(tagged.tag());
}

// Its contract says that a path at a moment is valid.
fn lemma_timed(timed: &PathAt)
    ensures { IsPath timed.now.path × IsTag (tag_at timed.now.moment) }
{
    timed.path.names();
    lemma_tag(tag_of(timed.moment));
}

// Its contract says that a path with a tag is valid, or that a handle has 64 bits.
fn lemma_source(source: &Source)
    ensures { IsSource source.now }
{
    match source {
        Source::Tagged(tagged) => lemma_tagged(tagged),
        Source::Of(handle) => lemma_number(handle.0),
    }
}

// Its contract says that a number is below 2 ^ 64.
fn lemma_number(number: u64)
    ensures { number < 2 ^ 64 }
{}

// Its contract says that each byte is below 256.
fn lemma_bytes(bytes: &[u8])
    ensures { All (λ byte. byte < 256) bytes.now }
{}
