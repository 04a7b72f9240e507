//! Rows of groups, in numbers.
ghost use Rattle.std.specs.Prelude.{◌≡◌};
ghost use Rattle.std.specs.Option.{option_copied};
ghost use Rattle.std.specs.Result.{result_map_both};
ghost use Rattle.ele_c_values.specs.Kept.{counts_in, group_in, mark_in, member_in};
ghost use Rattle.ele_c_values.specs.Numbers.{mark_numbers};

use crate::codes::{NO_RESULT, NO_ROW, or_never};
use crate::numbers::{NONE, Numbers};
use ele_model::{GroupRow, MarkRow, Reply};

fn group_in(reply: Option<&Reply>, index: u64) -> Result<&GroupRow, i32>
    ensures { result_map_both (λ group. group.now) (λ code. code) result
        ≡ group_in (option_copied reply.entry) index }
{
    match reply {
        Some(Reply::GroupList(groups)) => match groups.as_slice().get(index as usize) {
            Some(group) => Ok(group),
            None => Err(NO_ROW),
        },
        _ => Err(NO_RESULT),
    }
}

// `elephant_group_row`: name_length, members, marks.
pub(crate) fn group_at(reply: Option<&Reply>, index: u64) -> Result<Numbers, i32>
    ensures { result ≡ counts_in (group_in (option_copied reply.entry) index) }
{
    match group_in(reply, index) {
        Ok(group) => Ok(Numbers {
            first: group.name.bytes().len() as u64,
            second: group.members.as_slice().len() as u64,
            third: group.marks.as_slice().len() as u64,
            ..NONE
        }),
        Err(code) => Err(code),
    }
}

/// The number of a member's file.
pub(crate) fn member_at(reply: Option<&Reply>, index: u64, member: u64) -> Result<Numbers, i32>
    ensures { result ≡ member_in (group_in (option_copied reply.entry) index) member }
{
    match group_in(reply, index) {
        Ok(group) => match group.members.as_slice().get(member as usize) {
            Some(file) => Ok(Numbers {
                first: file.0,
                ..NONE
            }),
            None => Err(NO_ROW),
        },
        Err(code) => Err(code),
    }
}

// `elephant_mark_row`: moment, until.
pub(crate) fn mark_numbers(mark: &MarkRow) -> Numbers
    ensures { result ≡ mark_numbers mark.now }
{
    Numbers {
        first: mark.at.seconds(),
        second: or_never(mark.until),
        ..NONE
    }
}

/// The row of a mark.
pub(crate) fn mark_at(reply: Option<&Reply>, index: u64, mark: u64) -> Result<Numbers, i32>
    ensures { result ≡ mark_in (group_in (option_copied reply.entry) index) mark }
{
    match group_in(reply, index) {
        Ok(group) => match group.marks.as_slice().get(mark as usize) {
            Some(mark) => Ok(mark_numbers(mark)),
            None => Err(NO_ROW),
        },
        Err(code) => Err(code),
    }
}
