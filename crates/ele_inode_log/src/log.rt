//! The held versions of one file.
//! A contract sees the list of their rows by number, and the reserved capacity.
ghost use Rattle.std.specs.Prelude.{◌≡◌, ◌<◌, ◌≤◌, ◌+◌, ◌==◌, ◌^◌, [], ◌∷◌, ◌++◌, OnOk, OnErr, IfErr, IsOk, IsTrue, ◌↔◌, All, IsSomeAnd, find, filter, length, reverse, slice_get, is_some, if◌then◌else◌};
ghost use Rattle.std.specs.Option.{ForSome, option_copied, option_map};
ghost use Rattle.std.specs.List.{list_any};
ghost use Rattle.ele_inode_log.specs.Rows.{HeldRows, AreInOrder, Precedes, EndsInTime, CanEndAt, last_of, update_last, has_number, is_other, is_after, is_before, has_closed_by, ends_after, lives_at, ended_at};
ghost use Rattle.ele_lists.specs.Last.{last_passing, passing};

use crate::meter::Meter;
use crate::row::{ClosedBy, EndsAt, VersionRow};
use ele_moment::{Moment, NoMemory, VersionNo};
use ele_rows::{BeforeKey, BehindKey, ChunkRows, Chunks};
use std::alloc::Global;
use std::marker::Model;

/// The held versions of one file. Numbers rise, each version has ended when the next one closes,
/// and only the last may have no end. Each row that a call reads or removes adds one to the call's
/// meter; `rows` reads all rows without a meter. A meter doesn't count the rows whose number or
/// closing a search compares.
#[derive(Drop)]
pub struct InodeLog {
    rows: Chunks<VersionRow>,
}

impl Model for InodeLog {
    ghost use Rattle.ele_inode_log.specs.Rows.{HeldRows};

    ghost Value = { HeldRows };

    ghost use Rattle.ele_inode_log.specs.LogInside.{held_rows, IsKept};

    ghost view = { held_rows };

    ghost invariant = { IsKept };
}

impl InodeLog {
    /// Makes an empty log. It takes no memory.
    pub fn new(alloc: Global) -> InodeLog
        ensures { result.rows ≡ [] }
    {
        InodeLog {
            rows: Chunks::new(alloc),
        }
    }

    /// Returns the number of rows.
    pub fn len(&self) -> usize
        ensures count { result ≡ length self.now.rows }
        ensures order { AreInOrder self.now.rows }
    {
        self.rows.len()
    }

    /// Returns whether there is no row.
    pub fn is_empty(&self) -> bool
        ensures { IsTrue result ↔ (self.now.rows ≡ []) }
    {
        self.len() == 0
    }

    /// Returns all rows by number, for answers about a whole file; no meter counts them.
    pub fn rows(&self) -> ChunkRows<'_, VersionRow>
        ensures { result ≡ self.now.rows }
    {
        self.rows.iter()
    }

    /// Reserves memory for one more row at least. If memory is refused, the rows stay as they were.
    pub fn reserve(&mut self) -> Result<(), NoMemory>
        ensures ok { OnOk result (1 ≤ self.new.spare) }
        ensures ready { 1 ≤ self.old.spare → IsOk result }
        ensures rows { self.new.rows ≡ self.old.rows }
    {
        self.rows.reserve()?;
        Ok(())
    }

    /// Adds a row at the end. After `reserve` this always succeeds. If memory is refused, the
    /// caller gets the row back and the rows stay as they were.
    pub fn append(&mut self, row: VersionRow) -> Result<(), (VersionRow, NoMemory)>
        requires last { ForSome (last_of self.old.rows) (λ last. Precedes last row) }
        requires ends { EndsInTime row }
        ensures ok { OnOk result (self.new.rows ≡ self.old.rows ++ row ∷ []) }
        ensures ready { 1 ≤ self.old.spare → IsOk result }
        ensures back { IfErr result (λ refused. refused.0 ≡ row) }
        ensures err { OnErr result (self.new.rows ≡ self.old.rows) }
    {
        if self.rows.reserve().is_err() {
            return Err((row, NoMemory));
        }
        self.rows.push(row);
        Ok(())
    }

    /// Ends the last version at the moment.
    #[tactic(auto, using(crate::proofs::Order::in_order_ended))]
    pub fn end_last(&mut self, moment: Moment)
        requires { IsSomeAnd (last_of self.old.rows) (CanEndAt moment) }
        ensures ended { self.new.rows ≡ update_last (ended_at moment) self.old.rows }
        ensures spare { self.new.spare ≡ self.old.spare }
    {
        self.rows.change_last(&EndsAt(moment));
    }

    /// Returns the row of that number.
    #[tactic(auto, using(crate::proofs::Order::numbers_rise))]
    pub fn get(&self, number: VersionNo, meter: &mut Meter) -> Option<&VersionRow>
        requires { meter.old < 2 ^ 63 }
        ensures row { option_copied result ≡ find (has_number number) self.now.rows }
        ensures read { meter.new ≡ meter.old + (if is_some result then 1 else 0) }
    {
        counted(self.rows.get(number.0), meter)
    }

    /// Returns the first row with a greater number.
    pub fn next_held(&self, number: VersionNo, meter: &mut Meter) -> Option<&VersionRow>
        requires { meter.old < 2 ^ 63 }
        ensures row { option_copied result ≡ find (is_after number) self.now.rows }
        ensures read { meter.new ≡ meter.old + (if is_some result then 1 else 0) }
    {
        counted(self.rows.first_behind(&BehindKey(number.0)), meter)
    }

    /// Returns the last row with a lesser number.
    #[tactic(auto, using(crate::proofs::Order::last_reversed))]
    pub fn prev_held(&self, number: VersionNo, meter: &mut Meter) -> Option<&VersionRow>
        requires { meter.old < 2 ^ 63 }
        ensures row { option_copied result ≡ last_passing (is_before number) self.now.rows }
        ensures read { meter.new ≡ meter.old + (if is_some result then 1 else 0) }
    {
        counted(self.rows.last_before(&BeforeKey(number.0)), meter)
    }

    /// Returns the row with so many newer ones. Its time grows with these, and not with all rows.
    #[tactic(auto, using(std::proofs::lemmas::Bool::Decides::nat_tests))]
    pub fn with_newer(&self, newer: u64, meter: &mut Meter) -> Option<&VersionRow>
        requires { meter.old < 2 ^ 63 }
        ensures row { option_copied result ≡ slice_get (reverse self.now.rows) newer }
        ensures read { meter.new ≡ meter.old + (if is_some result then 1 else 0) }
    {
        counted(self.rows.from_end(newer as usize), meter)
    }

    /// Removes and returns the row of that number.
    #[tactic(auto, using(crate::proofs::Order::numbers_rise, crate::proofs::Order::in_order_removed, crate::proofs::Order::remove_first_key))]
    pub fn remove(&mut self, number: VersionNo, meter: &mut Meter) -> Option<VersionRow>
        requires { meter.old < 2 ^ 63 }
        ensures row { result ≡ find (has_number number) self.old.rows }
        ensures rows { self.new.rows ≡ filter (is_other number) self.old.rows }
        ensures room { 1 ≤ self.old.spare → 1 ≤ self.new.spare }
        ensures read { meter.new ≡ meter.old + (if is_some result then 1 else 0) }
    {
        let row = self.rows.remove(number.0)?;
        meter.count();
        Some(row)
    }

    /// Returns the last row of a version that had closed by the moment. If any version lives at the
    /// moment, it is this one.
    #[tactic(auto, using(crate::proofs::Order::last_reversed, crate::proofs::Order::lives_is_last))]
    pub fn closed_by(&self, moment: Moment, meter: &mut Meter) -> Option<&VersionRow>
        requires { meter.old < 2 ^ 63 }
        ensures row { option_copied result
            ≡ last_passing (has_closed_by moment) self.now.rows }
        ensures lives { find (lives_at moment) self.now.rows
            ≡ passing (ends_after moment) (option_copied result) }
        ensures order { AreInOrder self.now.rows }
        ensures read { meter.new ≡ meter.old + (if is_some result then 1 else 0) }
    {
        counted(self.rows.last_before(&ClosedBy(moment)), meter)
    }

    /// Returns the number of the version that lives at the moment: it had closed by then, and ended
    /// later or not at all. At most one version does. The call reads a row if any version had
    /// closed by then.
    #[tactic(auto, using(crate::proofs::Order::last_is_some, crate::proofs::Order::is_some_copied, crate::proofs::Order::lives_alone, crate::proofs::Order::all_place))]
    pub fn at(&self, moment: Moment, meter: &mut Meter) -> Option<VersionNo>
        requires { meter.old < 2 ^ 63 }
        ensures number { result ≡ option_map (λ row. row.number)
            (find (lives_at moment) self.now.rows) }
        ensures only { All (λ row. IsTrue (lives_at moment row) → result ≡ Some row.number)
            self.now.rows }
        ensures read { meter.new ≡ meter.old
            + (if list_any (has_closed_by moment) self.now.rows then 1 else 0) }
    {
        number_at(self.closed_by(moment, meter), moment)
    }
}

// The number of the row, if the moment is before its end.
fn number_at(row: Option<&VersionRow>, moment: Moment) -> Option<VersionNo>
    ensures { result ≡ option_map (λ row. row.number)
        (passing (ends_after moment) (option_copied row.entry)) }
{
    let row = row?;
    match row.ended {
        Some(ended) if ended <= moment => None,
        _ => Some(row.number),
    }
}

// Counts the row as read, if there is one.
fn counted<'a>(row: Option<&'a VersionRow>, meter: &mut Meter) -> Option<&'a VersionRow>
    requires { meter.old < 2 ^ 63 }
    ensures row { option_copied result ≡ option_copied row.entry }
    ensures read { meter.new ≡ meter.old + (if is_some result then 1 else 0) }
{
    let row = row?;
    meter.count();
    Some(row)
}
