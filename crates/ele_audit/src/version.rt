//! The removed version that a path with a number means. A contract sees it as its row.
ghost use Rattle.std.specs.Prelude.{◌≡◌, IfOk, OnErr, find, option_and_then};
ghost use Rattle.std.specs.List.{list_any};
ghost use Rattle.std.specs.Result.{result_ok};
ghost use Rattle.ele_audit.specs.Removals.{IsRemovedVersion, MayBeRemoved, removes_number};
ghost use Rattle.ele_audit.specs.Rows.{is_row_of};
ghost use Rattle.ele_path.specs.declared.tagged.Tag.TheVariants as tag;
ghost use Rattle.ele_model.specs.Walk.{file_now, live_target, walk_now};

use crate::gone::removed;
use crate::row::Removed;
use ele_history::History;
use ele_model::{Entry, Explain, FromFlat, NameRow, NoMemory, Reply, Target};
use ele_moment::{DirId, FileId, Name, VersionNo};
use ele_path::{Path, Tag, TaggedPath};
use std::alloc::Global;

/// Returns the removed version that the path and the number in its tag mean now. None if the tag is
/// another one, if the path leads to no file, or if no stored entry removed that version.
///
/// `NoMemory` if memory is refused. If no stored entry removed a version with that number, it takes
/// none.
/// Cost: that of `removed`, a copy of the rows of names, and a scan of these for each name.
pub fn removed_version<C: Explain + FromFlat>(
    alloc: Global,
    tagged: &TaggedPath,
    history: &History<C>,
) -> Result<Option<Removed>, NoMemory>
    ensures ok { IfOk result (λ row. IsRemovedVersion history.now tagged.now row) }
    ensures err { OnErr result (MayBeRemoved history.now tagged.now.tag) }
{
    match tagged.tag() {
        Tag::Number(number) => numbered(alloc, tagged, number, history),
        Tag::Now | Tag::At(_) => Ok(None),
    }
}

// The removed version of that number, which the tag has.
fn numbered<C: Explain + FromFlat>(
    alloc: Global,
    tagged: &TaggedPath,
    number: VersionNo,
    history: &History<C>,
) -> Result<Option<Removed>, NoMemory>
    requires { tagged.now.tag ≡ tag.Number number }
    ensures ok { IfOk result (λ row. IsRemovedVersion history.now tagged.now row) }
    ensures err { OnErr result (MayBeRemoved history.now (tag.Number number)) }
{
    if !removes_any(history.entries(), number) {
        return Ok(None);
    }
    let rows = removed(alloc, history)?;
    let names = history.core().name_rows()?;
    let file = file_at(&names, tagged.path());
    Ok(row_in(rows, file, number))
}

// Whether one of the entries removed a version with that number.
fn removes_any(entries: &[Entry], number: VersionNo) -> bool
    ensures { result ≡ list_any (λ entry. removes_number number entry.reply) entries.now }
{
    entries
        .iter()
        .any(|entry| removes_number(&entry.reply, number))
}

// Whether the reply removed a version with that number.
fn removes_number(reply: &Reply, number: VersionNo) -> bool
    ensures { result ≡ removes_number number reply.now }
{
    match reply {
        Reply::Removed(key) => key.number == number,
        _ => false,
    }
}

// The row of the file's version with that number, if there is a file.
fn row_in(rows: Vec<Removed>, file: Option<FileId>, number: VersionNo) -> Option<Removed>
    ensures { result ≡ option_and_then (λ file. find (is_row_of file number) rows.items) file }
{
    match file {
        Some(file) => row_of(rows, file, number),
        None => None,
    }
}

// The row of the file's version with that number.
fn row_of(rows: Vec<Removed>, file: FileId, number: VersionNo) -> Option<Removed>
    ensures { result ≡ find (is_row_of file number) rows.items }
{
    rows.into_iter()
        .find(|row| row.key.file == file && row.key.number == number)
}

/// Returns the file that the path leads to. None if it leads to none.
pub(crate) fn file_at(rows: &[NameRow], path: &Path) -> Option<FileId>
    ensures { result ≡ result_ok (file_now rows.now path.now) }
{
    match walk(rows, path)? {
        Target::File(file) => Some(file),
        Target::Directory(_) => None,
    }
}

// What the path leads to.
fn walk(rows: &[NameRow], path: &Path) -> Option<Target>
    ensures { result ≡ result_ok (walk_now rows.now path.now) }
{
    let mut at = Target::Directory(DirId(0));
    for name in path.names() {
        let Target::Directory(directory) = at else {
            return None;
        };
        at = target_of(rows, directory, &name)?;
    }
    Some(at)
}

// What the live name in the directory means.
fn target_of(rows: &[NameRow], directory: DirId, name: &Name) -> Option<Target>
    ensures { result ≡ live_target rows.now directory name.now }
{
    rows.iter()
        .find(|row| row.directory == directory && row.name == *name && row.death.is_none())
        .map(|row| row.target)
}
