//! The groups that have a file, and their marks in force.
ghost use Rattle.std.specs.Prelude.{◌≡◌, ◌&&◌, false, Some, IfSome, IfNone, find, slice_get};
ghost use Rattle.std.specs.Str.{bytes_eq};
ghost use Rattle.ele_fates.specs.Fate.{MarksAt};
ghost use Rattle.ele_lists.specs.Lists.{AllLater};
ghost use Rattle.ele_model.specs.Cover.{cover_of};
ghost use Rattle.ele_model.specs.Fate.{IsMarkedBy};
ghost use Rattle.ele_model.specs.GroupRows.{has_covering, is_marked, is_member, keeps_at};

use ele_groups::Groups;
use ele_model::{Cover, FileId, MarkRow, Moment, Name};

// Whether the mark covers what was current from `closed` until `ended`, and is in force.
fn keeps_at(closed: Moment, ended: Moment, now: Moment, mark: &MarkRow) -> bool
    ensures { result ≡ keeps_at closed (Some ended) now mark.now }
{
    closed <= mark.at && mark.at < ended && mark.until.is_none_or(|end| now < end)
}

// The first of the marks that covers it and is in force.
fn first_keeping(marks: &[MarkRow], closed: Moment, ended: Moment, now: Moment) -> Option<MarkRow>
    ensures { result ≡ find (keeps_at closed (Some ended) now) marks.now }
{
    marks
        .iter()
        .copied()
        .find(|mark| keeps_at(closed, ended, now, mark))
}

// The name and the first covering mark of the group at that place, if the group has the file and
// such a mark.
fn mark_at(
    groups: &Groups,
    place: usize,
    file: FileId,
    closed: Moment,
    ended: Moment,
    now: Moment,
) -> Option<(Name, MarkRow)>
    requires named { AllLater
        (λ earlier later. bytes_eq earlier.name later.name ≡ false) groups.now }
    ensures some { IfSome result
        (λ by. MarksAt groups.now place file closed (Some ended) now by.0 by.1) }
    ensures none { IfNone result (IfSome (slice_get groups.now place)
        (λ group. (is_member file group && has_covering closed (Some ended) now group) ≡ false)) }
{
    let (name, _files, marks) = groups.group(place)?;
    if !groups.is_member(name, file) {
        return None;
    }
    let mark = first_keeping(marks, closed, ended, now)?;
    Some((*name, mark))
}

/// Returns the first group, in order of making, that has the file and a covering mark in force, by
/// its name, and its first such mark. `cover` is the cover of all marks together. None if there is
/// no such mark.
#[tactic(auto, using(ele_model::proofs::GroupMarks::marked_lasts))]
pub fn first_mark(
    groups: &Groups,
    cover: &Cover,
    file: FileId,
    closed: Moment,
    ended: Moment,
    now: Moment,
) -> Option<(Name, MarkRow)>
    requires named { AllLater
        (λ earlier later. bytes_eq earlier.name later.name ≡ false) groups.now }
    requires cover { cover.now ≡ cover_of groups.now file closed (Some ended) }
    ensures some { IfSome result
        (λ by. IsMarkedBy groups.now file closed (Some ended) now by.0 by.1) }
    ensures none { IfNone result (is_marked groups.now file closed (Some ended) now ≡ false) }
{
    // The cover looks at the file's groups only, and most versions aren't marked.
    if !cover.lasts(now) {
        return None;
    }
    for place in 0..groups.len() {
        if let Some((name, mark)) = mark_at(groups, place, file, closed, ended, now) {
            return Some((name, mark));
        }
    }
    None
}
