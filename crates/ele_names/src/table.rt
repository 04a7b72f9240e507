//! The rows by serial number, with their places.
//! A contract sees the rows as their list in order of serial numbers.
ghost use Rattle.std.specs.Prelude.{◌≡◌, ℕ, List, []};
ghost use Rattle.ele_model.specs.NameRows.{lives_past};
ghost use Rattle.ele_model.specs.declared.rows.Target.{Target};
ghost use Rattle.ele_names.specs.Kept.{IsTable};
ghost use Rattle.ele_names.specs.Placed.{live_of};

use crate::numbered::Numbered;
use crate::places::Places;
use ele_model::NameRow;
use ele_moment::Moment;
use std::alloc::Global;

/// The rows by serial number, and the indexes that find them.
#[derive(Drop)]
pub struct Table {
    pub rows: Numbered,
    pub places: Places,
}

impl Table {
    /// Makes an empty table.
    pub fn new(alloc: Global) -> Table
        ensures is { (names : List (ℕ × List ℕ)) → IsTable names result }
        ensures rows { result.rows.entries ≡ [] }
        ensures live { (t : Target) → live_of result.places t ≡ 0 }
    {
        Table {
            rows: Numbered::new(alloc),
            places: Places::new(alloc),
        }
    }
}

/// Whether the row has no death, or one after the moment.
pub fn lives_past(row: &NameRow, moment: Moment) -> bool
    ensures { result ≡ lives_past moment row.now }
{
    match row.death {
        Some(death) => moment < death,
        None => true,
    }
}
