//! Paths with tags. A contract sees one as the record of its path, a list of names, and its tag.
ghost use Rattle.std.specs.Prelude.{◌≡◌, ◌⊎◌, IsTrue, Some, Ok, Err, IfOk, IfErr};
ghost use Rattle.std.specs.List.{position, position_or_len};
ghost use Rattle.ele_path.specs.Begins.{is_tag_text};
ghost use Rattle.ele_path.specs.PathText.{tag_text, tagged_word};
ghost use Rattle.ele_path.specs.Tagged.{is_mark, SpellsTag, SpellsTaggedPath};
ghost use Rattle.ele_path.specs.TaggedFault.{IsTagFault, IsTaggedFault};
ghost use Rattle.ele_path.specs.declared.tagged.Tag.{Tag};
ghost use Rattle.ele_path.specs.declared.tagged.TaggedPath.{TaggedPath};

use crate::fault::PathFault;
use crate::path::Path;
use ele_moment::{BadMoment, Moment, VersionNo, read_number};
use std::alloc::Global;
use std::fmt;

/// Which version is meant. It is displayed as in a word, after the path: nothing, `@12` or `#3`.
#[derive(Clone, Copy, PartialEq, Eq)]
pub enum Tag {
    /// The current one.
    Now,
    /// The one that was current at the moment.
    At(Moment),
    /// The version with that number.
    Number(VersionNo),
}

/// A path, and which version of its target is meant. It is displayed as both, `/f@12`.
#[derive(Drop)]
pub struct TaggedPath {
    path: Path,
    tag: Tag,
}

impl TaggedPath {
    /// Makes a path with a tag.
    /// Cost: constant time.
    pub fn new(path: Path, tag: Tag) -> TaggedPath
        ensures path { result.path ≡ path }
        ensures tag { result.tag ≡ tag }
    {
        TaggedPath { path, tag }
    }

    /// Reads the path and the tag that a word spells: a path, then nothing for now, `@` and a
    /// moment, or `#` and the number of a version.
    ///
    /// It cuts the word at its first `@` or `#`. It reports a fault of the path first, as
    /// `Path::read` does. `BadMoment` if no moment follows `@`, and `BadPath` if no number follows
    /// `#`. `NoMemory` is possible in place of any other answer.
    /// Cost: grows with the bytes of the word; takes memory for those of the path if they
    /// are more than 22.
    pub fn read(alloc: Global, word: &[u8]) -> Result<TaggedPath, PathFault>
        ensures found { IfOk result (SpellsTaggedPath word.now) }
        ensures only { (value : TaggedPath) → SpellsTaggedPath word.now value
            → (result ≡ Ok value) ⊎ (result ≡ Err PathFault.NoMemory) }
        ensures fault { IfErr result
            (λ fault. (fault ≡ PathFault.NoMemory) ⊎ IsTaggedFault word.now fault) }
    {
        let (path, tag) = word.split_at(path_length(word));
        let path = Path::read(alloc, path)?;
        let tag = read_tag(tag)?;
        Ok(TaggedPath { path, tag })
    }

    /// Returns the path.
    /// Cost: constant time.
    pub fn path(&self) -> &Path
        ensures { result.now ≡ self.now.path }
    {
        &self.path
    }

    /// Returns the tag.
    /// Cost: constant time.
    pub fn tag(&self) -> Tag
        ensures { result ≡ self.now.tag }
    {
        self.tag
    }
}

impl fmt::Display for Tag {
    ghost output = { λ tag. Some (tag_text tag) };

    fn fmt<W: fmt::Write>(&self, f: &mut fmt::Formatter<W>) -> fmt::Result {
        match self {
            Tag::Now => Ok(()),
            Tag::At(moment) => write!(f, "@{moment}"),
            Tag::Number(VersionNo(number)) => write!(f, "#{number}"),
        }
    }
}

impl fmt::Display for TaggedPath {
    ghost output = { λ tagged. Some (tagged_word tagged.path tagged.tag) };

    fn fmt<W: fmt::Write>(&self, f: &mut fmt::Formatter<W>) -> fmt::Result {
        let (path, tag) = (&self.path, &self.tag);
        write!(f, "{path}{tag}")
    }
}

// Returns how many bytes are before the first mark of a tag, or in all.
pub(crate) fn path_length(word: &[u8]) -> usize
    ensures { result ≡ position_or_len is_mark word.now }
{
    match mark_in(word) {
        Some(place) => place,
        None => word.len(),
    }
}

// The place of the first mark of a tag.
fn mark_in(word: &[u8]) -> Option<usize>
    ensures { result ≡ position is_mark word.now }
{
    word.iter().position(|byte| *byte == b'@' || *byte == b'#')
}

// The tag of a text that is empty or begins with a mark.
fn read_tag(text: &[u8]) -> Result<Tag, PathFault>
    requires { IsTrue (is_tag_text text.now) }
    ensures found { IfOk result (SpellsTag text.now) }
    ensures only { (tag : Tag) → SpellsTag text.now tag → result ≡ Ok tag }
    ensures fault { IfErr result (IsTagFault text.now) }
{
    match text.split_first() {
        None => Ok(Tag::Now),
        Some((b'@', moment)) => match Moment::read(moment) {
            Ok(moment) => Ok(Tag::At(moment)),
            Err(BadMoment) => Err(PathFault::BadMoment),
        },
        Some((_, number)) => match read_number(number) {
            Some(number) => Ok(Tag::Number(VersionNo(number))),
            None => Err(PathFault::BadPath),
        },
    }
}
