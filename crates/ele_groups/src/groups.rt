//! All groups.
//! A contract sees them as the list of their rows in order of making.
ghost use Rattle.std.specs.Prelude.{◌≡◌, ◌<◌, [], Some, None, false, length, filter, slice_get, is_some, IsTrue, IfSome, IfNone, IfOk, IfErr, OnOk, OnErr};
ghost use Rattle.std.specs.Map.{values_of};
ghost use Rattle.std.specs.Option.{option_copied, option_map_or};
ghost use Rattle.ele_model.specs.GroupRows.{group_named, has_group, has_member, is_marked_at, is_member, with_group, without_group, with_member, without_member, with_mark, without_mark, forgotten};
ghost use Rattle.ele_model.specs.Cover.{cover_by, cover_of};
ghost use Rattle.ele_model.specs.declared.cover.Cover.TheVariants.{Free};
ghost use Rattle.ele_model.specs.GroupsAsked.{members_of, marks_of, cover_without};
ghost use Rattle.ele_groups.specs.Faults.{make_fault, drop_fault, add_fault, remove_fault, mark_fault, unmark_fault, Fails, answer_of};
ghost use Rattle.ele_groups.specs.Rows.{HasOnce, row_of};
ghost use Rattle.ele_lists.specs.Lists.{AllLater};
ghost use Rattle.std.specs.List.{AllByRecursion};
ghost use Rattle.std.specs.Str.{bytes_eq};

use crate::covering::{cover, cover_at};
use crate::fault::GroupFault;
use crate::group::Group;
use crate::memberships::{Membership, Memberships};
use crate::rows::{add_to, mark_at, put_row, remove_from, unmark_at};
use crate::span::{Except, Span};
use ele_lists::ListOf;
use ele_model::{Cover, GroupRow, MarkRow};
use ele_moment::{FileId, Moment, Name, NoMemory};
use indexmap::IndexMap;
use std::alloc::Global;
use std::marker::Model;

/// All groups by name, in order of making, and the names of each file's groups.
#[derive(Drop)]
pub struct Groups {
    rows: IndexMap<Name, Group>,
    memberships: Memberships,
    alloc: Global,
}

impl Model for Groups {
    ghost use Rattle.std.specs.Prelude.{List};
    ghost use Rattle.std.specs.Map.{values_of};
    ghost use Rattle.ele_model.specs.declared.rows.GroupRow.{GroupRow};
    ghost use Rattle.ele_groups.specs.Kept.{AreKept};

    ghost Value = { List GroupRow };

    ghost view = { λ groups. values_of groups.rows.entries };

    ghost invariant = { λ groups. AreKept groups.rows.entries groups.memberships };
}

impl Groups {
    /// Makes an empty list of groups. It takes no memory; later calls take theirs from `alloc`.
    pub fn new(alloc: Global) -> Groups
        ensures { result ≡ [] }
    {
        Groups {
            rows: IndexMap::new(alloc),
            memberships: Memberships::new(alloc),
            alloc,
        }
    }

    /// Makes the groups of these rows, in their order. No two rows have one name, and each has its
    /// files and the moments of its marks once.
    ///
    /// `NoMemory` if memory is refused.
    /// Cost: the rows and their files, and their marks times the logarithm of how many a group has.
    pub fn from_rows(alloc: Global, rows: &[GroupRow]) -> Result<Groups, NoMemory>
        requires named { AllLater
            (λ earlier later. bytes_eq earlier.name later.name ≡ false) rows.now }
        requires once { AllByRecursion HasOnce rows.now }
        ensures { IfOk result (λ groups. groups ≡ rows.now) }
    {
        let mut named = IndexMap::new(alloc);
        let mut memberships = Memberships::new(alloc);
        for row in rows {
            put_row(&mut named, &mut memberships, row, alloc)?;
        }
        Ok(Groups {
            rows: named,
            memberships,
            alloc,
        })
    }

    /// Makes a group without files and marks.
    pub fn make(&mut self, name: &Name) -> Result<(), GroupFault>
        ensures allowed { OnOk result (make_fault self.old name.now ≡ None) }
        ensures made { OnOk result (self.new ≡ with_group name.now self.old) }
        ensures fault { IfErr result (Fails (make_fault self.old name.now)) }
        ensures unchanged { OnErr result (self.new ≡ self.old) }
    {
        if self.has_group(name) {
            return Err(GroupFault::GroupExists);
        }
        self.add_group(name)?;
        Ok(())
    }

    /// Removes a group with its marks. It takes no memory.
    pub fn drop_group(&mut self, name: &Name) -> Result<(), GroupFault>
        ensures answer { result ≡ answer_of (drop_fault self.old name.now) }
        ensures dropped { OnOk result (self.new ≡ without_group name.now self.old) }
        ensures unchanged { OnErr result (self.new ≡ self.old) }
    {
        self.expect_group(name)?;
        self.take_group(name);
        Ok(())
    }

    /// Adds a file to a group, after the files that it has.
    pub fn add(&mut self, name: &Name, file: FileId) -> Result<(), GroupFault>
        ensures allowed { OnOk result (add_fault self.old name.now file ≡ None) }
        ensures added { OnOk result (self.new ≡ with_member name.now file self.old) }
        ensures fault { IfErr result (Fails (add_fault self.old name.now file)) }
        ensures unchanged { OnErr result (self.new ≡ self.old) }
    {
        self.expect_group(name)?;
        if self.is_member(name, file) {
            return Err(GroupFault::AlreadyMember);
        }
        self.add_member(name, file)?;
        Ok(())
    }

    /// Removes a file from a group. It takes no memory.
    pub fn remove(&mut self, name: &Name, file: FileId) -> Result<(), GroupFault>
        ensures answer { result ≡ answer_of (remove_fault self.old name.now file) }
        ensures removed { OnOk result (self.new ≡ without_member name.now file self.old) }
        ensures unchanged { OnErr result (self.new ≡ self.old) }
    {
        self.expect_group(name)?;
        if !self.is_member(name, file) {
            return Err(GroupFault::NotMember);
        }
        self.take_member(name, file);
        Ok(())
    }

    /// Marks a group at a moment, for good or until the mark's end. The mark is the group's last
    /// one.
    pub fn mark(
        &mut self,
        name: &Name,
        moment: Moment,
        until: Option<Moment>,
    ) -> Result<(), GroupFault>
        ensures allowed { OnOk result (mark_fault self.old name.now moment ≡ None) }
        ensures marked { OnOk result
            (self.new ≡ with_mark name.now (record { at = moment; until = until }) self.old) }
        ensures fault { IfErr result (Fails (mark_fault self.old name.now moment)) }
        ensures unchanged { OnErr result (self.new ≡ self.old) }
    {
        self.expect_group(name)?;
        if self.has_mark(name, moment) {
            return Err(GroupFault::MarkExists);
        }
        self.add_mark(name, &MarkRow { at: moment, until })?;
        Ok(())
    }

    /// Removes a mark from a group. It takes no memory.
    pub fn unmark(&mut self, name: &Name, moment: Moment) -> Result<(), GroupFault>
        ensures answer { result ≡ answer_of (unmark_fault self.old name.now moment) }
        ensures unmarked { OnOk result (self.new ≡ without_mark name.now moment self.old) }
        ensures unchanged { OnErr result (self.new ≡ self.old) }
    {
        self.expect_group(name)?;
        if !self.has_mark(name, moment) {
            return Err(GroupFault::NoMark);
        }
        self.take_mark(name, moment);
        Ok(())
    }

    /// Removes the file from every group. It takes no memory.
    pub fn forget_file(&mut self, file: FileId)
        ensures { self.new ≡ forgotten file self.old }
    {
        while self.forget_one(file) {}
    }

    /// Returns how long the marks of groups that have the file hold what was current from `closed`
    /// until `ended`, or still is. `Until` has the latest of their ends, which may have passed. It
    /// takes no memory.
    pub fn cover(&self, file: FileId, closed: Moment, ended: Option<Moment>) -> Cover
        ensures { result ≡ cover_of self.now file closed ended }
    {
        let except = None;
        let span = Span {
            closed,
            ended,
            except,
        };
        cover(&self.rows, &self.memberships, file, &span)
    }

    /// Returns how long the marks of the group of that name hold a version that was current from
    /// `closed` until `ended`, or still is. The group has the version's file. It takes no memory.
    pub fn cover_by_group(&self, name: &Name, closed: Moment, ended: Option<Moment>) -> Cover
        ensures { result ≡ option_map_or (λ row. cover_by closed ended row.marks)
            (group_named self.now name.now) Free }
    {
        let span = Span {
            closed,
            ended,
            except: None,
        };
        cover_at(&self.rows, name, &span)
    }

    /// Returns the same without one mark of a group, or without the whole group if no mark is
    /// given. It takes no memory.
    pub fn cover_without(
        &self,
        name: &Name,
        mark: Option<Moment>,
        file: FileId,
        closed: Moment,
        ended: Option<Moment>,
    ) -> Cover
        ensures { result ≡ cover_without self.now name.now mark file closed ended }
    {
        let except = Some(Except { name: *name, mark });
        let span = Span {
            closed,
            ended,
            except,
        };
        cover(&self.rows, &self.memberships, file, &span)
    }

    /// Returns whether there is a group of that name.
    pub fn has_group(&self, name: &Name) -> bool
        ensures { result ≡ has_group self.now name.now }
    {
        self.rows.contains_key(name)
    }

    /// Returns whether the group of that name has the file.
    pub fn is_member(&self, name: &Name, file: FileId) -> bool
        ensures { result ≡ has_member self.now name.now file }
    {
        self.memberships.has(file, name)
    }

    /// Returns whether the group of that name has a mark at the moment.
    pub fn has_mark(&self, name: &Name, moment: Moment) -> bool
        ensures { result ≡ is_marked_at self.now name.now moment }
    {
        match self.named(name) {
            Some(group) => group.has_mark(moment),
            None => false,
        }
    }

    /// Returns the number of groups.
    pub fn len(&self) -> usize
        ensures { result ≡ length self.now }
    {
        self.rows.len()
    }

    /// Returns the name, the files and the marks of the group at that place in order of making.
    pub fn group(&self, place: usize) -> Option<(&Name, &[FileId], &[MarkRow])>
        ensures some { IfSome result (λ group. slice_get self.now place
            ≡ Some (row_of group.0.now group.1.now group.2.now)) }
        ensures none { IfNone result (slice_get self.now place ≡ None) }
    {
        let (_, group) = self.rows.get_index(place)?;
        Some((group.name(), group.members(), group.marks()))
    }

    /// Returns a copy of all rows, in order of making.
    pub fn rows(&self) -> Result<ListOf<GroupRow>, NoMemory>
        ensures { IfOk result (λ rows. rows ≡ self.now) }
    {
        let mut rows = Vec::new(self.alloc);
        for group in self.rows.values() {
            rows.push(group.row(self.alloc)?)?;
        }
        Ok(ListOf::from_vec(rows))
    }

    /// Returns a copy of the group's files, in order of adding, or an empty list if there is no
    /// such group.
    pub fn members(&self, name: &Name) -> Result<Vec<FileId>, NoMemory>
        ensures { IfOk result (λ files. files.items ≡ members_of self.now name.now) }
    {
        match self.named(name) {
            Some(group) => Ok(Vec::from_slice(self.alloc, group.members())?),
            None => Ok(Vec::new(self.alloc)),
        }
    }

    /// Returns the moments of the group's marks, in order of making, or an empty list if there is
    /// no such group.
    pub fn marks(&self, name: &Name) -> Result<Vec<Moment>, NoMemory>
        ensures { IfOk result (λ marks. marks.items ≡ marks_of self.now name.now) }
    {
        match self.named(name) {
            Some(group) => group.moments(self.alloc),
            None => Ok(Vec::new(self.alloc)),
        }
    }

    // Returns `NoGroup` if there is no group of that name.
    fn expect_group(&self, name: &Name) -> Result<(), GroupFault>
        ensures { result ≡ answer_of (drop_fault self.now name.now) }
    {
        if self.has_group(name) {
            Ok(())
        } else {
            Err(GroupFault::NoGroup)
        }
    }

    // The place of the group of that name in order of making.
    fn place(&self, name: &Name) -> Option<usize>
        ensures { is_some result ≡ has_group self.now name.now }
    {
        self.rows.get_index_of(name)
    }

    // The group of that name.
    fn named(&self, name: &Name) -> Option<&Group>
        ensures { option_copied result ≡ group_named self.now name.now }
    {
        self.rows.get(name)
    }

    /// Makes a group with a new name, without files and marks.
    pub fn add_group(&mut self, name: &Name) -> Result<(), NoMemory>
        requires { has_group self.old name.now ≡ false }
        ensures ok { OnOk result (self.new ≡ with_group name.now self.old) }
        ensures err { OnErr result (self.new ≡ self.old) }
    {
        self.rows.insert(*name, Group::new(*name, self.alloc))?;
        Ok(())
    }

    /// Removes the group of that name with its marks, if there is one. It takes no memory.
    pub fn take_group(&mut self, name: &Name)
        ensures { self.new ≡ without_group name.now self.old }
    {
        if let Some(group) = self.rows.shift_remove(name) {
            self.memberships.leave(group.members(), name);
        }
    }

    /// Adds a file to the group of that name, if there is one, after the files that it has.
    pub fn add_member(&mut self, name: &Name, file: FileId) -> Result<(), NoMemory>
        requires { has_member self.old name.now file ≡ false }
        ensures ok { OnOk result (self.new ≡ with_member name.now file self.old) }
        ensures err { OnErr result (self.new ≡ self.old) }
    {
        let Some(place) = self.place(name) else {
            return Ok(());
        };
        // The membership is first, since its removal takes no memory.
        self.memberships
            .insert(file, Membership { name: *name, place })?;
        if let Err(_refused) = add_to(&mut self.rows, name, file) {
            self.memberships.remove(file, name);
            return Err(NoMemory);
        }
        Ok(())
    }

    /// Removes the file from the group of that name, if it is there. It takes no memory.
    pub fn take_member(&mut self, name: &Name, file: FileId)
        ensures { self.new ≡ without_member name.now file self.old }
    {
        remove_from(&mut self.rows, name, file);
        self.memberships.remove(file, name);
    }

    /// Marks the group of that name, if there is one, after the marks that it has.
    pub fn add_mark(&mut self, name: &Name, mark: &MarkRow) -> Result<(), NoMemory>
        requires { is_marked_at self.old name.now mark.now.at ≡ false }
        ensures ok { OnOk result (self.new ≡ with_mark name.now mark.now self.old) }
        ensures err { OnErr result (self.new ≡ self.old) }
    {
        mark_at(&mut self.rows, name, mark)
    }

    /// Removes the mark at the moment from the group of that name, if it is there. It takes no
    /// memory.
    pub fn take_mark(&mut self, name: &Name, moment: Moment)
        ensures { self.new ≡ without_mark name.now moment self.old }
    {
        unmark_at(&mut self.rows, name, moment);
    }

    // Removes the file from one group that has it, and returns whether one had it.
    fn forget_one(&mut self, file: FileId) -> bool
        ensures others { forgotten file self.new ≡ forgotten file self.old }
        ensures fewer { IsTrue result
            → length (filter (is_member file) self.new) < length (filter (is_member file) self.old) }
        ensures none { result ≡ false → forgotten file self.new ≡ self.new }
    {
        let Some(membership) = self.memberships.of(file).first().copied() else {
            return false;
        };
        remove_from(&mut self.rows, &membership.name, file);
        self.memberships.remove(file, &membership.name);
        true
    }
}
