//! Copies of replies.
ghost use Rattle.std.specs.Prelude.{◌≡◌, IfOk, IsOk, false};
ghost use Rattle.ele_model.specs.ReadersStay.{needs_memory};

use crate::list::{DeletedNameList, GroupList, NameList};
use crate::reply::Reply;
use crate::rows::{DeletedName, GroupRow};
use ele_lists::ListOf;
use ele_moment::NoMemory;
use std::alloc::Global;

/// A copy of plain items.
fn copy_list<T: Copy + Drop>(alloc: Global, items: &ListOf<T>) -> Result<ListOf<T>, NoMemory>
    ensures { IfOk result (λ copied. copied ≡ items.now) }
{
    Ok(ListOf::from_vec(Vec::from_slice(alloc, items.as_slice())?))
}

/// A copy of a group, with lists of its own.
fn copy_group(alloc: Global, group: &GroupRow) -> Result<GroupRow, NoMemory>
    ensures { IfOk result (λ copied. copied ≡ group.now) }
{
    Ok(GroupRow {
        name: group.name,
        members: copy_list(alloc, &group.members)?,
        marks: copy_list(alloc, &group.marks)?,
    })
}

/// A copy of groups, in their order.
fn copy_groups(alloc: Global, groups: &GroupList) -> Result<GroupList, NoMemory>
    ensures { IfOk result (λ copied. copied ≡ groups.now) }
{
    let mut rows = Vec::new(alloc);
    for group in groups.as_slice() {
        rows.push(copy_group(alloc, group)?)?;
    }
    Ok(ListOf::from_vec(rows))
}

/// A copy of names, in their order.
fn copy_names(alloc: Global, names: &NameList) -> Result<NameList, NoMemory>
    ensures { IfOk result (λ copied. copied ≡ names.now) }
{
    let mut rows = Vec::new(alloc);
    for (name, target) in names.as_slice() {
        rows.push((name.copy(alloc)?, *target))?;
    }
    Ok(ListOf::from_vec(rows))
}

/// A copy of a deleted name.
fn copy_name(alloc: Global, row: &DeletedName) -> Result<DeletedName, NoMemory>
    ensures { IfOk result (λ copied. copied ≡ row.now) }
{
    Ok(DeletedName {
        directory: row.directory,
        name: row.name.copy(alloc)?,
        target: row.target,
    })
}

/// A copy of deleted names, in their order.
fn copy_deleted(alloc: Global, names: &DeletedNameList) -> Result<DeletedNameList, NoMemory>
    ensures { IfOk result (λ copied. copied ≡ names.now) }
{
    let mut rows = Vec::new(alloc);
    for row in names.as_slice() {
        rows.push(copy_name(alloc, row)?)?;
    }
    Ok(ListOf::from_vec(rows))
}

impl Reply {
    /// Returns a copy of the reply.
    ///
    /// `NoMemory` if memory is refused. Only replies with a list or a boxed value take memory.
    /// Cost: grows with the list or the bytes of the reply, which it copies; constant time for all
    /// other replies.
    pub fn copy(&self, alloc: Global) -> Result<Reply, NoMemory>
        ensures same { IfOk result (λ reply. reply ≡ self.now) }
        ensures ready { needs_memory self.now ≡ false → IsOk result }
    {
        Ok(match self {
            Reply::Done => Reply::Done,
            Reply::Nothing => Reply::Nothing,
            Reply::Now(moment) => Reply::Now(*moment),
            Reply::Directory(id) => Reply::Directory(*id),
            Reply::File(id) => Reply::File(*id),
            Reply::Handle(handle) => Reply::Handle(*handle),
            Reply::Version(number) => Reply::Version(*number),
            Reply::Closed(number) => Reply::Closed(*number),
            Reply::Removed(key) => Reply::Removed(*key),
            Reply::Bytes(bytes) => Reply::Bytes(copy_list(alloc, bytes)?),
            Reply::FileStat(stat) => Reply::FileStat(stat.copy(alloc)?),
            Reply::DirStat(row) => Reply::DirStat(row.copy(alloc)?),
            Reply::Rows(rows) => Reply::Rows(copy_list(alloc, rows)?),
            Reply::NameList(names) => Reply::NameList(copy_names(alloc, names)?),
            Reply::RestoreList(names) => Reply::RestoreList(copy_deleted(alloc, names)?),
            Reply::DueList(keys) => Reply::DueList(copy_list(alloc, keys)?),
            Reply::UsageList(usage) => Reply::UsageList(usage.copy(alloc)?),
            Reply::GroupList(groups) => Reply::GroupList(copy_groups(alloc, groups)?),
            Reply::Refused(refusal) => Reply::Refused(*refusal),
        })
    }
}
