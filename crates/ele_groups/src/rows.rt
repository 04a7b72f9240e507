//! Changes of the group of one name.
//! A contract sees the groups as their rows, each under its name.
ghost use Rattle.std.specs.Prelude.{◌≡◌, ◌==◌, ◌&&◌, ◌∷◌, ◌++◌, [], not, ℕ, false, OnOk, OnErr};
ghost use Rattle.std.specs.List.{IsDistinct};
ghost use Rattle.std.specs.Map.{keys_of, values_of};
ghost use Rattle.std.specs.Option.{option_map_or};
ghost use Rattle.std.specs.Str.{bytes_eq};
ghost use Rattle.ele_model.specs.GroupRows.{has_group, has_mark, adds, removes, forgets, marks, unmarks};
ghost use Rattle.ele_groups.specs.Kept.{AreKept, changed_at, has_file, row_at};
ghost use Rattle.ele_groups.specs.Rows.{HasOnce};

use crate::group::Group;
use crate::memberships::{Membership, Memberships};
use ele_model::{GroupRow, MarkRow};
use ele_moment::{FileId, Moment, Name, NoMemory};
use indexmap::IndexMap;
use std::alloc::Global;

/// Adds the group of the row, whose name is new, with its files. If memory is refused, some of the
/// files may have its name.
pub fn put_row(
    rows: &mut IndexMap<Name, Group>,
    memberships: &mut Memberships,
    row: &GroupRow,
    alloc: Global,
) -> Result<(), NoMemory>
    requires kept { AreKept rows.old.entries memberships.old }
    requires new { has_group (values_of rows.old.entries) row.now.name ≡ false }
    requires once { HasOnce row.now }
    ensures kept { OnOk result (AreKept rows.new.entries memberships.new) }
    ensures rows { OnOk result
        (values_of rows.new.entries ≡ values_of rows.old.entries ++ row.now ∷ []) }
{
    let membership = Membership {
        name: row.name,
        place: rows.len(),
    };
    memberships.enter(row.members.as_slice(), &membership)?;
    rows.insert(row.name, Group::from_row(alloc, row)?)?;
    Ok(())
}

/// Adds the file to the group.
#[tactic(auto, using(crate::proofs::Basics::nat_tests, crate::proofs::Basics::set_value_same))]
pub fn add_to(rows: &mut IndexMap<Name, Group>, name: &Name, file: FileId) -> Result<(), NoMemory>
    requires { has_file file (row_at rows.old.entries name.now) ≡ false }
    ensures ok { OnOk result
        (rows.new.entries ≡ changed_at name.now (adds file) rows.old.entries) }
    ensures err { OnErr result (rows.new.entries ≡ rows.old.entries) }
{
    match rows.get_mut(name) {
        Some(group) => group.add(file),
        None => Ok(()),
    }
}

/// Removes the file from the group. It takes no memory.
pub fn remove_from(rows: &mut IndexMap<Name, Group>, name: &Name, file: FileId)
    ensures removes { rows.new.entries ≡ changed_at name.now (removes file) rows.old.entries }
    ensures forgets { rows.new.entries ≡ changed_at name.now (forgets file) rows.old.entries }
    ensures members { (other : ℕ) → has_file other (row_at rows.new.entries name.now)
        ≡ (has_file other (row_at rows.old.entries name.now) && not (file == other)) }
{
    if let Some(group) = rows.get_mut(name) {
        group.remove(file);
    }
}

/// Adds the mark to the group.
#[tactic(auto, using(crate::proofs::Basics::nat_tests, crate::proofs::Basics::set_value_same))]
pub fn mark_at(
    rows: &mut IndexMap<Name, Group>,
    name: &Name,
    mark: &MarkRow,
) -> Result<(), NoMemory>
    requires { option_map_or (has_mark mark.now.at) (row_at rows.old.entries name.now) false
        ≡ false }
    ensures ok { OnOk result
        (rows.new.entries ≡ changed_at name.now (marks mark.now) rows.old.entries) }
    ensures err { OnErr result (rows.new.entries ≡ rows.old.entries) }
{
    match rows.get_mut(name) {
        Some(group) => group.mark(mark),
        None => Ok(()),
    }
}

/// Removes the mark at the moment from the group. It takes no memory.
pub fn unmark_at(rows: &mut IndexMap<Name, Group>, name: &Name, moment: Moment)
    ensures { rows.new.entries ≡ changed_at name.now (unmarks moment) rows.old.entries }
{
    if let Some(group) = rows.get_mut(name) {
        group.unmark(moment);
    }
}
