//! One group: its name, its files in order of adding, and its marks.
//! A contract sees it as its row.
ghost use Rattle.std.specs.Prelude.{◌≡◌, map, ◌==◌, ◌&&◌, not, ℕ, false, OnOk, OnErr, IfOk};
ghost use Rattle.ele_model.specs.GroupRows.{new_group, is_member, has_mark, adds, removes, forgets, marks, unmarks};
ghost use Rattle.ele_groups.specs.Except.{row_cover};
ghost use Rattle.ele_groups.specs.Rows.{HasOnce};

use crate::marks::Marks;
use crate::span::Span;
use crate::taken::take_out;
use ele_lists::ListOf;
use ele_model::{Cover, GroupRow, MarkRow};
use ele_moment::{FileId, Moment, Name, NoMemory};
use std::alloc::Global;
use std::marker::Model;

/// A group. It has each of its files once.
#[derive(Drop)]
pub struct Group {
    name: Name,
    members: Vec<FileId>,
    marks: Marks,
}

impl Model for Group {
    ghost use Rattle.ele_model.specs.declared.rows.GroupRow.{GroupRow};
    ghost use Rattle.ele_groups.specs.Timed.{AreApart};

    ghost Value = { GroupRow };

    ghost view = { λ group. record { name = group.name; members = group.members.items; marks = group.marks } };

    ghost invariant = { λ group. AreApart group.members.items };
}

impl Group {
    /// Makes a group without files and marks. It takes no memory.
    pub fn new(name: Name, alloc: Global) -> Group
        ensures { result ≡ new_group name }
    {
        Group {
            name,
            members: Vec::new(alloc),
            marks: Marks::new(alloc),
        }
    }

    /// Makes the group of the row, which has each file and each moment once. `NoMemory` if memory
    /// is refused.
    pub fn from_row(alloc: Global, row: &GroupRow) -> Result<Group, NoMemory>
        requires { HasOnce row.now }
        ensures { IfOk result (λ group. group ≡ row.now) }
    {
        Ok(Group {
            name: row.name,
            members: Vec::from_slice(alloc, row.members.as_slice())?,
            marks: Marks::from_rows(alloc, row.marks.as_slice())?,
        })
    }

    /// Returns its name.
    pub fn name(&self) -> &Name
        ensures { result.now ≡ self.now.name }
    {
        &self.name
    }

    /// Returns its files in order of adding.
    pub fn members(&self) -> &[FileId]
        ensures { result.now ≡ self.now.members }
    {
        &self.members
    }

    /// Returns its marks in order of making.
    pub fn marks(&self) -> &[MarkRow]
        ensures { result.now ≡ self.now.marks }
    {
        self.marks.as_slice()
    }

    /// Returns the moments of its marks, in order of making.
    pub fn moments(&self, alloc: Global) -> Result<Vec<Moment>, NoMemory>
        ensures { IfOk result (λ moments. moments.items ≡ map (λ mark. mark.at) self.now.marks) }
    {
        Ok(
            self.marks
                .as_slice()
                .iter()
                .map(|mark| mark.at)
                .collect(alloc)?,
        )
    }

    /// Returns a copy of its row.
    pub fn row(&self, alloc: Global) -> Result<GroupRow, NoMemory>
        ensures { IfOk result (λ row. row ≡ self.now) }
    {
        Ok(GroupRow {
            name: self.name,
            members: ListOf::from_vec(Vec::from_slice(alloc, &self.members)?),
            marks: ListOf::from_vec(Vec::from_slice(alloc, self.marks.as_slice())?),
        })
    }

    /// Adds a file at the end.
    pub fn add(&mut self, file: FileId) -> Result<(), NoMemory>
        requires { is_member file self.old ≡ false }
        ensures ok { OnOk result (self.new ≡ adds file self.old) }
        ensures err { OnErr result (self.new ≡ self.old) }
    {
        self.members.push(file)?;
        Ok(())
    }

    /// Removes the file. It takes no memory.
    #[tactic(auto, using(crate::proofs::Basics::later_remove_first))]
    pub fn remove(&mut self, file: FileId)
        ensures removes { self.new ≡ removes file self.old }
        ensures forgets { self.new ≡ forgets file self.old }
        ensures members { (other : ℕ) → is_member other self.new
            ≡ (is_member other self.old && not (file == other)) }
    {
        take_out(&mut self.members, &file);
    }

    /// Returns whether it has a mark at the moment.
    pub fn has_mark(&self, moment: Moment) -> bool
        ensures { result ≡ has_mark moment self.now }
    {
        self.marks.has(moment)
    }

    /// Adds a mark at the end.
    pub fn mark(&mut self, mark: &MarkRow) -> Result<(), NoMemory>
        requires { has_mark mark.now.at self.old ≡ false }
        ensures ok { OnOk result (self.new ≡ marks mark.now self.old) }
        ensures err { OnErr result (self.new ≡ self.old) }
    {
        self.marks.add(mark)
    }

    /// Removes the mark at the moment. It takes no memory.
    pub fn unmark(&mut self, moment: Moment)
        ensures { self.new ≡ unmarks moment self.old }
    {
        self.marks.remove(moment);
    }

    /// Returns how long its marks hold what was current in the span, without those that are left
    /// out.
    #[tactic(auto, using(crate::proofs::Covered::left_out, crate::proofs::Covered::none_out, crate::proofs::Covered::one_out))]
    pub fn cover(&self, span: &Span) -> Cover
        ensures { result ≡ row_cover span.now.except span.now.closed span.now.ended self.now }
    {
        match &span.except {
            Some(except) if self.name == except.name => match except.mark {
                Some(mark) => self.marks.cover_without(mark, span.closed, &span.ended),
                None => Cover::Free,
            },
            _ => self.marks.cover(span.closed, &span.ended),
        }
    }
}
