//! Rows by serial number.
//! A contract sees the entries, each a serial number with its row, and how many numbers were given.
ghost use Rattle.std.specs.Prelude.{◌≡◌, ◌+◌, ◌≤◌, ◌<◌, ◌^◌, ◌++◌, ◌∷◌, [], Some, IsSome, IfSome, IfOk, OnOk, OnErr, IfNone, length, slice_get};
ghost use Rattle.std.specs.BTreeMap.{is_at, insert_entry};
ghost use Rattle.std.specs.List.{AllByRecursion};
ghost use Rattle.std.specs.Map.{keys_of, remove_entry, values_of};
ghost use Rattle.std.specs.Option.{option_copied};
ghost use Rattle.std.specs.Ordering.{nat_cmp};
ghost use Rattle.ele_rows.specs.Serial.{value_at};
ghost use Rattle.ele_model.specs.declared.rows.NameRow.{NameRow};
ghost use Rattle.ele_names.specs.Rows.{dies};

use ele_model::NameRow;
use ele_moment::{Moment, NoMemory};
use std::alloc::Global;
use std::marker::Model;

/// Rows by serial number, each at the place of its number. A removed row leaves its place empty;
/// only `pop` frees empty places.
#[derive(Drop)]
pub struct Numbered {
    places: Vec<Option<NameRow>>,
}

impl Model for Numbered {
    ghost use Rattle.ele_model.specs.declared.rows.NameRow.{NameRow};
    ghost use Rattle.ele_names.specs.Numbered.{Serials, serials_of};

    ghost Value = { Serials NameRow };

    ghost view = { λ n. serials_of n.places.items };
}

impl Numbered {
    /// Makes an empty list.
    pub fn new(alloc: Global) -> Numbered
        ensures { result.entries ≡ [] }
    {
        Numbered {
            places: Vec::new(alloc),
        }
    }

    /// Returns the serial number that the next row gets.
    #[tactic(auto, using(crate::proofs::Numbering::from_below, crate::proofs::Numbering::from_few))]
    pub fn next_serial(&self) -> u64
        ensures next { result ≡ self.now.made }
        ensures small { result < 2 ^ 63 }
        ensures below { AllByRecursion (λ serial. serial < result) (keys_of self.now.entries) }
        ensures few { length self.now.entries ≤ result }
    {
        self.places.len() as u64
    }

    /// Returns the row of the serial number.
    #[tactic(auto, using(crate::proofs::Words::nat_tests, crate::proofs::Numbering::at_place, crate::proofs::Words::option_and_then, crate::proofs::Words::slice_get_past, crate::proofs::Words::slice_get, crate::proofs::Words::slice_get_read))]
    pub fn get(&self, serial: u64) -> Option<&NameRow>
        ensures { option_copied result ≡ value_at self.now.entries serial }
    {
        self.places.get(serial as usize)?.as_ref()
    }

    /// Adds a row at the end. `NoMemory` if memory is refused; the list is then as it was.
    #[tactic(auto, using(crate::proofs::Numbering::place_pushed, crate::proofs::Numbering::from_below, crate::proofs::Words::pushed))]
    pub fn push(&mut self, row: NameRow) -> Result<(), NoMemory>
        ensures ok { OnOk result
            (self.new.entries ≡ insert_entry nat_cmp self.old.entries self.old.made row) }
        ensures err { OnErr result (self.new.entries ≡ self.old.entries) }
        ensures fits { OnOk result (self.old.made + 1 < 2 ^ 64) }
    {
        Ok(self.places.push(Some(row))?)
    }

    /// Ends the row of the serial number at the moment.
    #[tactic(auto, using(crate::proofs::Words::nat_tests, crate::proofs::Numbering::placed_within, crate::proofs::Numbering::at_place, crate::proofs::Numbering::place_set, crate::proofs::Words::slice_got, crate::proofs::Words::option_and_then, crate::proofs::Words::dies))]
    pub fn end(&mut self, serial: u64, moment: Moment)
        requires { IsSome (value_at self.old.entries serial) }
        ensures { (row : NameRow) → value_at self.old.entries serial ≡ Some row
            → self.new.entries ≡ insert_entry nat_cmp self.old.entries serial (dies moment row) }
    {
        if let Some(row) = &mut self.places[serial as usize] {
            row.death = Some(moment);
        }
    }

    /// Removes and returns the row of the serial number.
    #[tactic(auto, using(crate::proofs::Words::nat_tests, crate::proofs::Numbering::placed_within, crate::proofs::Numbering::at_place, crate::proofs::Numbering::place_cleared, crate::proofs::Words::slice_got, crate::proofs::Words::option_and_then))]
    pub fn take(&mut self, serial: u64) -> Option<NameRow>
        requires { IsSome (value_at self.old.entries serial) }
        ensures row { result ≡ value_at self.old.entries serial }
        ensures entries { self.new.entries
            ≡ remove_entry (is_at (nat_cmp serial)) self.old.entries }
    {
        self.places[serial as usize].take()
    }

    /// Removes and returns the last row, with its serial number, and the empty places after it.
    #[tactic(auto, using(crate::proofs::Words::nat_tests, crate::proofs::Numbering::from_none, crate::proofs::Numbering::place_pushed, crate::proofs::Numbering::from_below, crate::proofs::Numbering::none_taken, crate::proofs::Words::option_to_list))]
    pub fn pop(&mut self) -> Option<(u64, NameRow)>
        ensures some { IfSome result (λ e. self.old.entries ≡ self.new.entries ++ e ∷ []) }
        ensures below { IfSome result
            (λ e. AllByRecursion (λ serial. serial < e.0) (keys_of self.new.entries)) }
        ensures none { IfNone result (self.old.entries ≡ []) }
    {
        while let Some(place) = self.places.pop() {
            if let Some(row) = place {
                return Some((self.next_serial(), row));
            }
        }
        None
    }

    /// Returns the row at that place in order of serial numbers. It passes over the rows before it.
    pub fn nth(&self, place: usize) -> Option<NameRow>
        ensures { result ≡ slice_get (values_of self.now.entries) place }
    {
        self.places.iter().filter_map(|row| *row).nth(place)
    }

    /// Returns a copy of all rows.
    pub fn rows(&self, alloc: Global) -> Result<Vec<NameRow>, NoMemory>
        ensures { IfOk result (λ rows. rows.items ≡ values_of self.now.entries) }
    {
        Ok(self.places.iter().filter_map(|row| *row).collect(alloc)?)
    }
}
