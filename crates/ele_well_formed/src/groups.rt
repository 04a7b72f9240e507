//! The groups: their files, their marks, and their names.
//! A contract sees the part of a world that says so.
ghost use Rattle.std.specs.Prelude.{◌≡◌, ◌==◌, ◌<◌, ◌↔◌, false, IfNone, IfSome, IfOk, IsTrue, map};
ghost use Rattle.std.specs.List.{AllByRecursion};
ghost use Rattle.std.specs.Str.{bytes_eq};
ghost use Rattle.ele_lists.specs.Keys.{Rises};
ghost use Rattle.ele_lists.specs.Lists.{AllLater};
ghost use Rattle.ele_model.specs.WellFormed.{IsGroup};
ghost use Rattle.ele_model.specs.World.{next_of};
ghost use Rattle.ele_well_formed.specs.Means.{AreMarks, AreMembers, AreNamesApart, IsMark};
ghost use Rattle.ele_well_formed.specs.Wrong.{IsMisplaced, IsWrong};

use crate::files::next_of;
use crate::sets::are_different;
use crate::test::{Test, all_fit};
use ele_model::{FileId, FileRow, GroupRow, MarkRow, Moment, Name, NoMemory};
use std::alloc::Global;
use std::collections::BTreeSet;

// The test that a group's file is there, beside all files.
#[derive(Drop)]
struct MemberTest<'a> {
    files: &'a [FileRow],
}

impl<'a> Test<FileId> for MemberTest<'a> {
    ghost use Rattle.std.specs.Prelude.{◌<◌};
    ghost use Rattle.ele_lists.specs.Keys.{Rises};
    ghost use Rattle.ele_model.specs.World.{next_of};

    ghost ready = { λ test. Rises (λ row. row.id) test.files.now };

    ghost fits = { λ test member. 0 < next_of test.files.now member };

    fn fits(&self, member: &FileId) -> bool {
        next_of(self.files, *member).0 > 0
    }
}

// The test of a mark at a moment.
#[derive(Drop)]
struct MarkTest {
    moment: Moment,
}

impl Test<MarkRow> for MarkTest {
    ghost use Rattle.ele_well_formed.specs.Means.{IsMark};

    ghost ready = { λ test. Unit {0} };

    ghost fits = { λ test mark. IsMark test.moment mark };

    fn fits(&self, mark: &MarkRow) -> bool {
        let lasting = match mark.until {
            Some(end) => mark.at < end,
            None => true,
        };
        mark.at < self.moment && lasting
    }
}

// The moments of marks, in seconds.
fn moments_of(marks: &[MarkRow], alloc: Global) -> Result<Vec<u64>, NoMemory>
    ensures { IfOk result (λ moments. moments.items ≡ map (λ mark. mark.at) marks.now) }
{
    Ok(marks.iter().map(|mark| mark.at.seconds()).collect(alloc)?)
}

// Whether the group's marks fit, and it has one at most at a moment.
//
// `NoMemory` if memory is refused.
fn marks_fit(marks: &[MarkRow], moment: Moment, alloc: Global) -> Result<bool, NoMemory>
    ensures { IfOk result (λ fit. IsTrue fit ↔ AreMarks moment marks.now) }
{
    if !all_fit(marks, &MarkTest { moment }) {
        return Ok(false);
    }
    let moments = moments_of(marks, alloc)?;
    are_different(&moments, alloc)
}

// Whether the group's files are there, and it has each once.
//
// `NoMemory` if memory is refused.
fn members_fit(members: &[FileId], files: &[FileRow], alloc: Global) -> Result<bool, NoMemory>
    requires { Rises (λ row. row.id) files.now }
    ensures { IfOk result (λ fit. IsTrue fit ↔ AreMembers files.now members.now) }
{
    if !all_fit(members, &MemberTest { files }) {
        return Ok(false);
    }
    let numbers: Vec<u64> = members.iter().map(|member| member.0).collect(alloc)?;
    are_different(&numbers, alloc)
}

// Whether the group fits by itself.
//
// `NoMemory` if memory is refused.
fn is_group(
    row: &GroupRow,
    files: &[FileRow],
    moment: Moment,
    alloc: Global,
) -> Result<bool, NoMemory>
    requires { Rises (λ row. row.id) files.now }
    ensures { IfOk result (λ fits. IsTrue fits ↔ IsGroup files.now moment row.now) }
{
    if !members_fit(row.members.as_slice(), files, alloc)? {
        return Ok(false);
    }
    marks_fit(row.marks.as_slice(), moment, alloc)
}

/// Returns the place of a group that doesn't fit by itself.
///
/// `NoMemory` if memory is refused.
pub fn wrong_group(
    rows: &[GroupRow],
    files: &[FileRow],
    moment: Moment,
    alloc: Global,
) -> Result<Option<usize>, NoMemory>
    requires { Rises (λ row. row.id) files.now }
    ensures none { IfOk result (λ found. IfNone found
        (AllByRecursion (IsGroup files.now moment) rows.now)) }
    ensures some { IfOk result (λ found. IfSome found
        (IsWrong (IsGroup files.now moment) rows.now)) }
{
    for at in 0..rows.len() {
        if !is_group(&rows[at], files, moment, alloc)? {
            return Ok(Some(at));
        }
    }
    Ok(None)
}

/// Returns the place of a group with the name of an earlier one.
///
/// `NoMemory` if memory is refused.
pub fn second_group(rows: &[GroupRow], alloc: Global) -> Result<Option<usize>, NoMemory>
    ensures none { IfOk result (λ found. IfNone found (AllLater AreNamesApart rows.now)) }
    ensures some { IfOk result (λ found. IfSome found (IsMisplaced AreNamesApart rows.now)) }
{
    let mut seen: BTreeSet<Name> = BTreeSet::new(alloc);
    for at in 0..rows.len() {
        if !seen.insert(rows[at].name)? {
            return Ok(Some(at));
        }
    }
    Ok(None)
}
