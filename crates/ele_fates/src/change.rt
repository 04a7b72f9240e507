//! Changes of groups, and how long marks hold a version before and after one.
ghost use Rattle.std.specs.Prelude.{◌≡◌, ◌==◌, Some, false, true};
ghost use Rattle.std.specs.List.{list_any};
ghost use Rattle.std.specs.Option.{option_map_or};
ghost use Rattle.std.specs.Str.{bytes_eq};
ghost use Rattle.ele_fates.specs.Change.{HasLeaving, cover_after, files_of};
ghost use Rattle.ele_lists.specs.Lists.{AllLater};
ghost use Rattle.ele_model.specs.Cover.{cover_by, cover_of, longer};
ghost use Rattle.ele_model.specs.GroupRows.{group_named};
ghost use Rattle.ele_model.specs.declared.cover.Cover.TheVariants.{Free};

use ele_groups::Groups;
use ele_model::{Cover, FileId, MarkRow, Moment, Name};

/// A change of the group of that name, after which marks hold versions for longer, or less long.
#[derive(Clone, Copy)]
pub enum GroupChange {
    /// It gets this mark.
    Marked(Name, MarkRow),
    /// Its mark of that moment is removed.
    Unmarked(Name, Moment),
    /// The file joins it.
    Joined(Name, FileId),
    /// The file leaves it.
    Left(Name, FileId),
    /// It is removed.
    Dropped(Name),
}

// How long the group of that name holds the version, or `rest` if that is longer. If `rest` has no
// end, the group isn't asked.
fn with_group(groups: &Groups, name: &Name, rest: &Cover, closed: Moment, ended: Moment) -> Cover
    ensures { result ≡ longer (option_map_or (λ row. cover_by closed (Some ended) row.marks)
        (group_named groups.now name.now) Free) rest.now }
{
    match rest {
        Cover::Always => Cover::Always,
        _ => {
            let of_group = groups.cover_by_group(name, closed, Some(ended));
            of_group.longer(*rest)
        }
    }
}

/// Returns how long marks hold a version of the file that closed and ended then, before the change
/// and after it. If the change removes marks, it looks at all groups of the file for the others, and
/// at this group alone for the removed ones.
#[tactic(auto, using(crate::proofs::Words::nat_tests, crate::proofs::OtherGroups::longer_again, crate::proofs::OtherGroups::members_have))]
pub fn covers(
    groups: &Groups,
    change: &GroupChange,
    file: FileId,
    closed: Moment,
    ended: Moment,
) -> (Cover, Cover)
    requires named { AllLater
        (λ earlier later. bytes_eq earlier.name later.name ≡ false) groups.now }
    requires leaving { HasLeaving change.now groups.now }
    requires member { list_any (λ member. member == file) (files_of change.now groups.now) ≡ true }
    ensures was { result.0 ≡ cover_of groups.now file closed (Some ended) }
    ensures is { result.1 ≡ cover_after change.now groups.now file closed (Some ended) }
{
    match change {
        GroupChange::Marked(_, mark) => {
            let was = &groups.cover(file, closed, Some(ended));
            (*was, Cover::until(mark.until).longer(*was))
        }
        GroupChange::Joined(name, _) => {
            let was = &groups.cover(file, closed, Some(ended));
            (*was, with_group(groups, name, was, closed, ended))
        }
        GroupChange::Unmarked(name, mark) => {
            let is = &groups.cover_without(name, Some(*mark), file, closed, Some(ended));
            (with_group(groups, name, is, closed, ended), *is)
        }
        GroupChange::Left(name, _) | GroupChange::Dropped(name) => {
            let is = &groups.cover_without(name, None, file, closed, Some(ended));
            (with_group(groups, name, is, closed, ended), *is)
        }
    }
}
