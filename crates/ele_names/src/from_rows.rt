//! Names made of rows that were copied out.
//! A contract sees them as these rows.
ghost use Rattle.std.specs.Prelude.{◌≡◌, ◌≤◌, ◌++◌, ◌∷◌, [], IfSome, IfOk, OnOk};
ghost use Rattle.std.specs.List.{AllByRecursion};
ghost use Rattle.ele_lists.specs.Lists.{AllLater};
ghost use Rattle.ele_model.specs.WellFormed.{AreApart};
ghost use Rattle.ele_names.specs.Rows.{Follows};

use crate::names::Names;
use ele_model::NameRow;
use ele_moment::NoMemory;
use std::alloc::Global;

impl Names {
    /// Makes the names of these rows, in their order of making. A row that is dead died at its
    /// birth or later, and of two rows of one directory and name the earlier was dead by the birth
    /// of the later.
    ///
    /// `NoMemory` if memory is refused.
    /// Cost: the rows times the logarithm of how many a name has.
    pub fn from_rows(alloc: Global, rows: &[NameRow]) -> Result<Names, NoMemory>
        requires apart { AllLater AreApart rows.now }
        requires dead { AllByRecursion
            (λ row. IfSome row.death (λ death. row.birth ≤ death)) rows.now }
        ensures { IfOk result (λ names. names ≡ rows.now) }
    {
        let mut names = Names::new(alloc);
        for row in rows {
            names.add_row(row)?;
        }
        Ok(names)
    }

    // Adds the row, live or dead, after the others.
    fn add_row(&mut self, row: &NameRow) -> Result<(), NoMemory>
        requires { AllByRecursion (λ earlier. Follows earlier row.now) self.old }
        ensures { OnOk result (self.new ≡ self.old ++ row.now ∷ []) }
    {
        self.add(row.directory, row.name, row.target, row.birth)?;
        let Some(death) = row.death else {
            return Ok(());
        };
        self.kill(row.directory, &row.name, death);
        Ok(())
    }
}
