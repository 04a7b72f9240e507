//! The version that a path and its tag mean, among the rows of a world. A contract sees it as its row.
ghost use Rattle.std.specs.Prelude.{◌≡◌, find};
ghost use Rattle.std.specs.Option.{option_copied, option_map};
ghost use Rattle.std.specs.Result.{result_ok};
ghost use Rattle.ele_model.specs.NameRows.{target_at};
ghost use Rattle.ele_model.specs.Tagged.{had_life, version_at, version_meant, walk_meant};
ghost use Rattle.ele_model.specs.Walk.{file_at};
ghost use Rattle.ele_model.specs.WalkAt.{walk_at, walk_covering};
ghost use Rattle.ele_model.specs.World.{is_file, next_of, root};
ghost use Rattle.ele_model.specs.declared.rows.Target.TheVariants.{Directory};

use crate::story_info::row_of;
use crate::version::file_at;
use ele_model::{FileRow, Flat, NameRow, Target, VersionRow};
use ele_moment::{DirId, FileId, Moment, Name, VersionNo};
use ele_path::{Path, Tag, TaggedPath};

/// Returns the version that the path and its tag mean. None if they mean none.
/// Cost: scans the names for each name of the path, then the files and the versions.
#[tactic(auto, using(crate::proofs::VersionMeant::found_is))]
pub(crate) fn version_at<'w>(world: &'w Flat, tagged: &TaggedPath) -> Option<&'w VersionRow>
    ensures { option_copied result ≡ result_ok (version_at world.entry.now tagged.now) }
{
    let file = file_meant(world, tagged.path(), tagged.tag())?;
    version_meant(
        world.files.as_slice(),
        world.versions.as_slice(),
        file,
        tagged.tag(),
    )
}

// The file that the path leads to by the names of the tag's moment, or of now.
fn file_meant(world: &Flat, path: &Path, tag: Tag) -> Option<FileId>
    ensures { result ≡ result_ok (file_at (walk_meant world.entry.now path.now tag)) }
{
    let rows = world.names.as_slice();
    match tag {
        Tag::At(moment) => file_then(rows, moment, world.now, path),
        Tag::Now | Tag::Number(_) => file_at(rows, path),
    }
}

// The file that the path led to at the moment, which isn't after now.
fn file_then(rows: &[NameRow], moment: Moment, now: Moment, path: &Path) -> Option<FileId>
    ensures { result ≡ result_ok (file_at (walk_at rows.now moment now path.now)) }
{
    if now < moment {
        return None;
    }
    match walk_then(rows, moment, path)? {
        Target::File(file) => Some(file),
        Target::Directory(_) => None,
    }
}

// What the path led to at the moment.
fn walk_then(rows: &[NameRow], moment: Moment, path: &Path) -> Option<Target>
    ensures { result ≡ result_ok (walk_covering rows.now moment (Directory root) path.now) }
{
    let mut at = Target::Directory(DirId(0));
    for name in path.names() {
        let Target::Directory(directory) = at else {
            return None;
        };
        at = target_then(rows, moment, directory, &name)?;
    }
    Some(at)
}

// What the name in the directory meant at the moment.
fn target_then(rows: &[NameRow], moment: Moment, directory: DirId, name: &Name) -> Option<Target>
    ensures { result ≡ target_at rows.now moment directory name.now }
{
    rows.iter()
        .find(|row| {
            row.directory == directory
                && row.name == *name
                && row.birth <= moment
                && row.death.is_none_or(|death| moment < death)
        })
        .map(|row| row.target)
}

// The file's version that the tag means; without a tag it is the current one.
#[tactic(auto, using(crate::proofs::VersionMeant::held_ok))]
fn version_meant<'r>(
    files: &[FileRow],
    versions: &'r [VersionRow],
    file: FileId,
    tag: Tag,
) -> Option<&'r VersionRow>
    ensures { option_copied result ≡ result_ok (version_meant files.now versions.now file tag) }
{
    let next = next_of(files, file);
    match tag {
        Tag::Now => row_of(versions, file, VersionNo(next.saturating_sub(1))),
        Tag::At(moment) => living(versions, file, moment),
        Tag::Number(number) => {
            if number.0 == 0 || number.0 >= next {
                return None;
            }
            row_of(versions, file, number)
        }
    }
}

// The number that the file's next version gets, or 0 if there is no such file.
#[tactic(auto, using(crate::proofs::VersionMeant::next_is))]
fn next_of(files: &[FileRow], file: FileId) -> u64
    ensures { result ≡ next_of files.now file }
{
    match next_if(files, file) {
        Some(next) => next.0,
        None => 0,
    }
}

// The number that the file's next version gets. None if there is no such file.
fn next_if(files: &[FileRow], file: FileId) -> Option<VersionNo>
    ensures { result ≡ option_map (λ row. row.next) (find (is_file file) files.now) }
{
    files.iter().find(|row| row.id == file).map(|row| row.next)
}

// The file's version that lived at the moment.
fn living(versions: &[VersionRow], file: FileId, moment: Moment) -> Option<&VersionRow>
    ensures { option_copied result ≡ find (had_life file moment) versions.now }
{
    versions.iter().find(|row| had_life(row, file, moment))
}

// Whether the row is a version of the file that lived at the moment.
fn had_life(row: &VersionRow, file: FileId, moment: Moment) -> bool
    ensures { result ≡ had_life file moment row.now }
{
    row.file == file && row.closed <= moment && row.ended.is_none_or(|end| moment < end)
}
