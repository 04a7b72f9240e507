//! Groups: their files and their marks.
ghost use Rattle.std.specs.Option.{option_map_or};
ghost use Rattle.std.specs.Prelude.{◌≡◌, nat_le, ◌<◌, true, false, OnOk, OnErr, IfOk};
ghost use Rattle.ele_model.specs.Change.{AddMark, AddMember, DropGroup, MakeGroup, RemoveMark, RemoveMember, after_change};
ghost use Rattle.ele_model.specs.GroupRows.{has_group, has_member, is_marked_at};
ghost use Rattle.ele_model.specs.World.{next_of};

use crate::State;
use crate::mark::regroup;
use ele_fates::GroupChange;
use ele_model::{FileId, GroupList, MarkRow, Moment, Name, NoMemory};

impl State {
    /// Returns whether there is a group of that name.
    pub fn has_group(&self, name: &Name) -> bool
        ensures { result ≡ has_group self.now.world.groups name.now }
    {
        self.rows.groups.has_group(name)
    }

    /// Returns whether the group of that name has the file.
    pub fn is_member(&self, name: &Name, file: FileId) -> bool
        ensures { result ≡ has_member self.now.world.groups name.now file }
    {
        self.rows.groups.is_member(name, file)
    }

    /// Returns whether the group of that name has a mark at the moment.
    pub fn has_mark(&self, name: &Name, mark: Moment) -> bool
        ensures { result ≡ is_marked_at self.now.world.groups name.now mark }
    {
        self.rows.groups.has_mark(name, mark)
    }

    /// Returns all groups with their files and marks, in order of making.
    ///
    /// `NoMemory` if memory is refused.
    pub fn groups(&self) -> Result<GroupList, NoMemory>
        ensures { IfOk result (λ groups. groups ≡ self.now.world.groups) }
    {
        self.rows.groups.rows()
    }

    /// Makes a group with a new name.
    ///
    /// `NoMemory` if memory is refused; the world stays as it was.
    pub fn make_group(&mut self, name: &Name) -> Result<(), NoMemory>
        requires free { has_group self.old.world.groups name.now ≡ false }
        requires room { self.old.world.made.groups < self.old.world.limits.groups }
        ensures ok { OnOk result
            (self.new.world ≡ after_change self.old.world (MakeGroup name.now)) }
        ensures err { OnErr result (self.new.world ≡ self.old.world) }
    {
        self.rows.groups.add_group(name)?;
        self.rows.made.groups += 1;
        Ok(())
    }

    /// Removes the group of that name. The versions that its marks cover get the keys that they
    /// have without it.
    ///
    /// `NoMemory` if memory is refused; the world stays as it was.
    pub fn drop_group(&mut self, name: &Name) -> Result<(), NoMemory>
        ensures ok { OnOk result
            (self.new.world ≡ after_change self.old.world (DropGroup name.now)) }
        ensures err { OnErr result (self.new.world ≡ self.old.world) }
    {
        let members = self.rows.groups.members(name)?;
        let marks = self.rows.groups.marks(name)?;
        let change = GroupChange::Dropped(*name);
        regroup(&mut self.rows, &change, &members, &marks)
    }

    /// Adds the file to the group of that name. The file's versions that the group's marks cover
    /// get later keys, or none.
    ///
    /// `NoMemory` if memory is refused; the world stays as it was.
    pub fn add_member(&mut self, name: &Name, file: FileId) -> Result<(), NoMemory>
        requires there { 0 < next_of self.old.world.files file }
        requires other { has_member self.old.world.groups name.now file ≡ false }
        requires room { self.old.world.made.members < self.old.world.limits.members }
        ensures ok { OnOk result
            (self.new.world ≡ after_change self.old.world (AddMember name.now file)) }
        ensures err { OnErr result (self.new.world ≡ self.old.world) }
    {
        let marks = self.rows.groups.marks(name)?;
        let change = GroupChange::Joined(*name, file);
        regroup(&mut self.rows, &change, &[file], &marks)
    }

    /// Removes the file from the group of that name. Its versions get the keys that they have
    /// without the group's marks.
    ///
    /// `NoMemory` if memory is refused; the world stays as it was.
    pub fn remove_member(&mut self, name: &Name, file: FileId) -> Result<(), NoMemory>
        requires { has_member self.old.world.groups name.now file ≡ true }
        ensures ok { OnOk result
            (self.new.world ≡ after_change self.old.world (RemoveMember name.now file)) }
        ensures err { OnErr result (self.new.world ≡ self.old.world) }
    {
        let marks = self.rows.groups.marks(name)?;
        let change = GroupChange::Left(*name, file);
        regroup(&mut self.rows, &change, &[file], &marks)
    }

    /// Marks the group of that name at a moment before now, for good or until a moment after now.
    /// The versions that it covers get keys no earlier than its end, or none if it has no end.
    ///
    /// `NoMemory` if memory is refused; the world stays as it was.
    pub fn add_mark(&mut self, name: &Name, mark: &MarkRow) -> Result<(), NoMemory>
        requires past { mark.now.at < self.old.world.now }
        requires ahead { option_map_or (λ end. nat_le end self.old.world.now) mark.now.until false ≡ false }
        requires other { is_marked_at self.old.world.groups name.now mark.now.at ≡ false }
        requires room { self.old.world.made.marks < self.old.world.limits.marks }
        ensures ok { OnOk result
            (self.new.world ≡ after_change self.old.world (AddMark name.now mark.now)) }
        ensures err { OnErr result (self.new.world ≡ self.old.world) }
    {
        let members = self.rows.groups.members(name)?;
        let change = GroupChange::Marked(*name, *mark);
        regroup(&mut self.rows, &change, &members, &[mark.at])
    }

    /// Removes the mark from the group of that name. The versions that it covers get the keys that
    /// they have without it.
    ///
    /// `NoMemory` if memory is refused; the world stays as it was.
    pub fn remove_mark(&mut self, name: &Name, mark: Moment) -> Result<(), NoMemory>
        requires { is_marked_at self.old.world.groups name.now mark ≡ true }
        ensures ok { OnOk result
            (self.new.world ≡ after_change self.old.world (RemoveMark name.now mark)) }
        ensures err { OnErr result (self.new.world ≡ self.old.world) }
    {
        let members = self.rows.groups.members(name)?;
        let change = GroupChange::Unmarked(*name, mark);
        regroup(&mut self.rows, &change, &members, &[mark])
    }
}
