//! The file of a story: the one that a path names, or named last. A contract sees the names as rows.
ghost use Rattle.std.specs.Prelude.{◌≡◌, None, Some, cond};
ghost use Rattle.std.specs.Option.{option_map, option_or};
ghost use Rattle.ele_audit.specs.Story.{file_last, file_told, last_meant};
ghost use Rattle.ele_lists.specs.Last.{last_passing};
ghost use Rattle.ele_model.specs.NameRows.{is_named};
ghost use Rattle.ele_model.specs.Walk.{walk_by};
ghost use Rattle.ele_model.specs.World.{root};
ghost use Rattle.ele_model.specs.declared.rows.Target.TheVariants.{Directory};

use crate::version::file_at;
use ele_model::{NameRow, Refusal, Target};
use ele_moment::{DirId, FileId, Name};
use ele_path::Path;

/// Returns the file that the path names now, or if it names none, that it named last. Refused:
/// `NoEntry`, `NotDirectory`, `IsDirectory`.
/// Cost: scans the rows for each name of the path, at most twice.
pub(crate) fn file_told(rows: &[NameRow], path: &Path) -> Result<FileId, Refusal>
    ensures { result ≡ file_told rows.now path.now }
{
    match file_at(rows, path) {
        Some(file) => Ok(file),
        None => file_last(rows, path),
    }
}

// The file that the path named last.
fn file_last(rows: &[NameRow], path: &Path) -> Result<FileId, Refusal>
    ensures { result ≡ file_last rows.now path.now }
{
    let target = walk_last(rows, path)?;
    match target {
        Target::File(file) => Ok(file),
        Target::Directory(_) => Err(Refusal::IsDirectory),
    }
}

// What the path led to last.
fn walk_last(rows: &[NameRow], path: &Path) -> Result<Target, Refusal>
    ensures { result ≡ walk_by (last_meant rows.now) (Directory root) path.now }
{
    let mut at = Target::Directory(DirId(0));
    for name in path.names() {
        let Target::Directory(directory) = at else {
            return Err(Refusal::NotDirectory);
        };
        let Some(target) = last_meant(rows, directory, &name) else {
            return Err(Refusal::NoEntry);
        };
        at = target;
    }
    Ok(at)
}

// What the name in the directory means, or meant last.
fn last_meant(rows: &[NameRow], directory: DirId, name: &Name) -> Option<Target>
    ensures { result ≡ last_meant rows.now directory name.now }
{
    newest(rows, directory, name).map(|row| row.target)
}

// The newest row of the name in the directory.
fn newest(rows: &[NameRow], directory: DirId, name: &Name) -> Option<NameRow>
    ensures { result ≡ last_passing (is_named directory name.now) rows.now }
{
    let mut last = None;
    for row in rows {
        last = later(row, directory, name, last);
    }
    last
}

// The row, if it is one of the name, else the one before it.
fn later(row: &NameRow, directory: DirId, name: &Name, before: Option<NameRow>) -> Option<NameRow>
    ensures { result ≡ option_or (cond (is_named directory name.now row.now) (Some row.now) None)
        before }
{
    if row.directory == directory && row.name == *name {
        return Some(*row);
    }
    before
}
