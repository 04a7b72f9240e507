//! Paths and tags as bytes.
//! A contract sees the path as its names, the tag, and bytes.
ghost use Rattle.std.specs.Prelude.{◌≡◌, ◌++◌, OnOk, length};
ghost use Rattle.ele_checkpoint.specs.Reading.{Gives};
ghost use Rattle.ele_checkpoint.specs.PartsRead.{name_at};
ghost use Rattle.ele_checkpoint.specs.Values.{string_text};
ghost use Rattle.ele_journal.specs.Events.{names_text, tag_text};
ghost use Rattle.ele_journal.specs.EventsRead.{names_at, tag_at};

use crate::items::{Item, list_of};
use ele_checkpoint::number::{number_of, put_number};
use ele_checkpoint::value::{moment_of, name_of, put_moment, put_string};
use ele_checkpoint::{Flaw, Stop, wrong};
use ele_moment::{Name, NoMemory, VersionNo};
use ele_path::{Path, PathFault, Tag};
use std::alloc::Global;

impl Item for Name {
    ghost spelling = { string_text };

    ghost reading = { name_at };

    fn put(&self, out: &mut Vec<u8>) -> Result<(), NoMemory> {
        put_string(out, self.bytes())
    }

    fn get(_alloc: Global, bytes: &[u8]) -> Result<(Name, &[u8]), Stop> {
        name_of(bytes)
    }
}

/// Adds the names of a path.
pub(crate) fn put_path(out: &mut Vec<u8>, path: &Path) -> Result<(), NoMemory>
    ensures { OnOk result (out.new.items ≡ out.old.items ++ names_text path.now) }
{
    put_number(out, count_of(path))?;
    for name in path.names() {
        name.put(out)?;
    }
    Ok(())
}

// How many names the path has.
fn count_of(path: &Path) -> u64
    ensures { result ≡ length path.now }
{
    path.names().count() as u64
}

/// Reads a path. The bytes after it follow in the result.
#[tactic(auto, unfolding(crate::specs::EventsRead::names_at))]
pub(crate) fn path_of(alloc: Global, bytes: &[u8]) -> Result<(Path, &[u8]), Stop>
    ensures { Gives (λ x. (x.0, x.1.now)) result (names_at bytes.now) }
{
    let (names, rest) = taken!(list_of::<Name>(alloc, bytes));
    match Path::new(alloc, names.as_slice()) {
        Ok(path) => Ok((path, rest)),
        Err(PathFault::NoMemory) => Err(Stop::Memory),
        Err(_) => Err(wrong(bytes, Flaw::TooLarge)),
    }
}

/// Adds a tag.
pub(crate) fn put_tag(out: &mut Vec<u8>, tag: Tag) -> Result<(), NoMemory>
    ensures { OnOk result (out.new.items ≡ out.old.items ++ tag_text tag) }
{
    match tag {
        Tag::Now => {
            out.push(0)?;
            Ok(())
        }
        Tag::At(moment) => {
            out.push(1)?;
            put_moment(out, moment)
        }
        Tag::Number(version) => {
            out.push(2)?;
            put_number(out, version.0)
        }
    }
}

/// Reads a tag.
#[tactic(auto, unfolding(crate::specs::EventsRead::tag_at))]
pub(crate) fn tag_of(bytes: &[u8]) -> Result<(Tag, &[u8]), Stop>
    ensures { Gives (λ x. (x.0, x.1.now)) result (tag_at bytes.now) }
{
    match bytes {
        [] => Err(wrong(bytes, Flaw::Short)),
        [0, rest @ ..] => Ok((Tag::Now, rest)),
        [1, rest @ ..] => {
            let (moment, rest) = taken!(moment_of(rest));
            Ok((Tag::At(moment), rest))
        }
        [2, rest @ ..] => {
            let (version, rest) = number_of(rest)?;
            Ok((Tag::Number(VersionNo(version)), rest))
        }
        [_, ..] => Err(wrong(bytes, Flaw::Choice)),
    }
}
