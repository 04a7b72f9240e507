//! The names: their files and moments, and the lives of one name after each other.
//! A contract sees the part of a world that says so.
ghost use Rattle.std.specs.Prelude.{◌≡◌, ◌↔◌, IfNone, IfSome, IfOk, IsTrue};
ghost use Rattle.std.specs.List.{AllByRecursion};
ghost use Rattle.std.specs.Option.{option_copied};
ghost use Rattle.ele_lists.specs.Keys.{Rises};
ghost use Rattle.ele_lists.specs.Lists.{AllLater};
ghost use Rattle.ele_model.specs.WellFormed.{AreApart, IsNameRow};
ghost use Rattle.ele_well_formed.specs.Means.{IsDeadBy, IsLife};
ghost use Rattle.ele_well_formed.specs.Wrong.{IsMisplaced, IsWrong};

use crate::files::is_there;
use crate::test::{Test, first_wrong};
use ele_model::{DirId, FileRow, Moment, Name, NameRow, NoMemory};
use std::alloc::Global;
use std::collections::BTreeMap;

// The test of a name by itself, at a moment.
#[derive(Drop)]
struct NameTest<'a> {
    files: &'a [FileRow],
    moment: Moment,
}

impl<'a> Test<NameRow> for NameTest<'a> {
    ghost use Rattle.ele_lists.specs.Keys.{Rises};
    ghost use Rattle.ele_model.specs.WellFormed.{IsNameRow};

    ghost ready = { λ test. Rises (λ row. row.id) test.files.now };

    ghost fits = { λ test row. IsNameRow test.files.now test.moment row };

    fn fits(&self, row: &NameRow) -> bool {
        let dead = match row.death {
            Some(death) => row.birth <= death && death <= self.moment,
            None => true,
        };
        dead && row.birth <= self.moment && is_there(self.files, row.target)
    }
}

/// Returns the place of a name that doesn't fit by itself.
pub fn wrong_name(rows: &[NameRow], files: &[FileRow], moment: Moment) -> Option<usize>
    requires { Rises (λ row. row.id) files.now }
    ensures none { IfNone result (AllByRecursion (IsNameRow files.now moment) rows.now) }
    ensures some { IfSome result (IsWrong (IsNameRow files.now moment) rows.now) }
{
    first_wrong(rows, &NameTest { files, moment })
}

// Whether the earlier row of a name, if there is one, was dead by the birth of the later.
fn are_apart(earlier: Option<&NameRow>, later: &NameRow) -> bool
    ensures { IsTrue result
        ↔ IfSome (option_copied earlier.entry) (λ row. IsDeadBy row later.now.birth) }
{
    match earlier {
        Some(row) => match row.death {
            Some(death) => death <= later.birth,
            None => false,
        },
        None => true,
    }
}

/// Returns the place of a name that was born while an earlier row of the same name lived.
///
/// `NoMemory` if memory is refused.
pub fn misplaced_name(rows: &[NameRow], alloc: Global) -> Result<Option<usize>, NoMemory>
    requires { AllByRecursion IsLife rows.now }
    ensures none { IfOk result (λ found. IfNone found (AllLater AreApart rows.now)) }
    ensures some { IfOk result (λ found. IfSome found (IsMisplaced AreApart rows.now)) }
{
    let mut newest: BTreeMap<(DirId, Name), NameRow> = BTreeMap::new(alloc);
    for at in 0..rows.len() {
        let row = rows[at];
        if !are_apart(newest.get(&(row.directory, row.name)), &row) {
            return Ok(Some(at));
        }
        let _older = newest.insert((row.directory, row.name), row)?;
    }
    Ok(None)
}
