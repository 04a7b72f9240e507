//! The mark that held a version until it became due. A contract sees plain data.
ghost use Rattle.std.specs.Prelude.{◌≡◌, IfOk, find};
ghost use Rattle.std.specs.List.{list_any};
ghost use Rattle.std.specs.Option.{option_copied};
ghost use Rattle.ele_holds.specs.Hold.{has_last, hold_in, hold_of, hold_until, is_last};

use crate::policy::lets_go_before;
use ele_model::{Flat, GroupRow, MarkRow, NoMemory, VersionRow, is_member};
use ele_moment::{Moment, Name};

/// A mark, and the name of its group.
#[derive(Clone, Copy, PartialEq, Eq)]
pub struct Hold {
    pub group: Name,
    pub mark: MarkRow,
}

/// Returns the mark that held the version until it became due at that moment: of the first group
/// that has the file and a mark on the version which ended then, its first such mark. None if there
/// is no such mark, or if the version's policy alone had kept it as long.
///
/// `NoMemory` if memory is refused; without such a mark it takes none.
/// Cost: scans the groups with their marks, and if there is such a mark, the files, names and
/// versions.
pub fn hold_of(world: &Flat, row: &VersionRow, since: Moment) -> Result<Option<Hold>, NoMemory>
    ensures { IfOk result (λ hold. hold ≡ hold_of world.entry.now row.now since) }
{
    let Some(hold) = hold_until(world.groups.as_slice(), row, since) else {
        return Ok(None);
    };
    let held_longer = lets_go_before(world, row, since)?;
    Ok(held_longer.then_some(hold))
}

// The first mark on the version that ended at the moment, of the first group that has one.
fn hold_until(groups: &[GroupRow], row: &VersionRow, at: Moment) -> Option<Hold>
    ensures { result ≡ hold_until groups.now row.now at }
{
    match group_until(groups, row, at) {
        Some(group) => hold_in(group, row, at),
        None => None,
    }
}

// The first group that has the version's file, and a mark on the version that ended at the moment.
fn group_until<'g>(groups: &'g [GroupRow], row: &VersionRow, at: Moment) -> Option<&'g GroupRow>
    ensures { option_copied result ≡ find (has_last row.now at) groups.now }
{
    groups.iter().find(|group| has_last(group, row, at))
}

// The first mark of the group on the version that ended at the moment.
fn hold_in(group: &GroupRow, row: &VersionRow, at: Moment) -> Option<Hold>
    ensures { result ≡ hold_in row.now at group.now }
{
    match last_mark(group.marks.as_slice(), row, at) {
        Some(mark) => Some(Hold {
            group: group.name,
            mark,
        }),
        None => None,
    }
}

// Whether the group has the version's file, and a mark on the version that ended at the moment.
fn has_last(group: &GroupRow, row: &VersionRow, at: Moment) -> bool
    ensures { result ≡ has_last row.now at group.now }
{
    is_member(group, row.file) && any_last(group.marks.as_slice(), row, at)
}

// Whether one of the marks was made while the version was current, and ended at the moment.
fn any_last(marks: &[MarkRow], row: &VersionRow, at: Moment) -> bool
    ensures { result ≡ list_any (is_last row.now at) marks.now }
{
    marks.iter().any(|mark| is_last(mark, row, at))
}

// The first of the marks that was made while the version was current, and ended at the moment.
fn last_mark(marks: &[MarkRow], row: &VersionRow, at: Moment) -> Option<MarkRow>
    ensures { result ≡ find (is_last row.now at) marks.now }
{
    marks.iter().copied().find(|mark| is_last(mark, row, at))
}

// Whether the mark was made while the version was current, and ended at the moment.
fn is_last(mark: &MarkRow, row: &VersionRow, at: Moment) -> bool
    ensures { result ≡ is_last row.now at mark.now }
{
    row.closed <= mark.at
        && row.ended.is_none_or(|end| mark.at < end)
        && mark.until.is_some_and(|until| until == at)
}
