//! A chunk: a few rows beside each other, and apart from them their heads.
//! A contract sees the rows, and for how many rows there is memory.
ghost use Rattle.std.specs.Prelude.{◌≡◌, ◌<◌, ◌≤◌, ◌++◌, ◌∷◌, [], ◌↔◌, true, false, Some, IfOk, IfSome, IsTrue, length, slice_get, vec_len, vec_capacity};
ghost use Rattle.std.specs.Option.{unwrap_or};
ghost use Rattle.std.specs.List.{position, remove};
ghost use Rattle.std.specs.List.Sorted.{IsPartitionPoint};
ghost use Rattle.ele_lists.specs.Ends.{last_of, update_last};
ghost use Rattle.ele_lists.specs.Keys.{Rises, stands_by};
ghost use Rattle.ele_lists.specs.Lists.{AllLater};
ghost use Rattle.ele_rows.specs.Chunks.{Sinks, ends_before, room_of};

use crate::cut::{Change, Cut};
use crate::head::{Head, Headed};
use std::alloc::{AllocError, Global};
use std::marker::Model;

/// Rows in one allocation, and their heads in another, so that a search reads few lines of memory
/// and no row.
#[derive(Drop)]
pub struct Chunk<T: Headed> {
    // The head of the last row. It is near those of other chunks, for the search of a chunk.
    last: Head,
    heads: Vec<Head>,
    rows: Vec<T>,
}

impl<T: Headed> Model for Chunk<T> {
    ghost use Rattle.ele_rows.specs.Piece.{Piece, IsHeaded, piece_of};

    ghost Value = { Piece T };

    ghost view = { λ chunk. piece_of chunk.rows };

    ghost invariant = { λ chunk. IsHeaded T.head chunk.last chunk.heads chunk.rows };
}

// Changes the last of the rows.
#[tactic(auto, using(crate::proofs::Steps::change_end_steps))]
fn change_end<T: Headed, C: Change<T>>(rows: &mut Vec<T>, change: &C)
    requires { 0 < vec_len rows.old }
    ensures rows { rows.new.items ≡ update_last (C.changed change.now) rows.old.items }
    ensures len { vec_len rows.new ≡ vec_len rows.old }
    ensures room { vec_capacity rows.new ≡ vec_capacity rows.old }
{
    let place = rows.len() - 1;
    change.apply(&mut rows[place]);
}

// The last of the heads, or the other one if there is none.
#[tactic(auto, using(crate::proofs::Steps::last_or_steps))]
fn last_or(heads: &[Head], other: Head) -> Head
    ensures { result ≡ unwrap_or (last_of heads.now) other }
{
    match heads.last() {
        Some(last) => *last,
        None => other,
    }
}

impl<T: Headed + Drop> Chunk<T> {
    /// Makes an empty chunk with memory for so many rows. `AllocError` if memory is refused.
    pub fn with_capacity(alloc: Global, rows: usize) -> Result<Chunk<T>, AllocError>
        ensures empty { IfOk result (λ chunk. chunk.items ≡ []) }
        ensures capacity { IfOk result (λ chunk. chunk.capacity ≡ rows) }
    {
        let heads = Vec::with_capacity(alloc, rows)?;
        let rows = Vec::with_capacity(alloc, rows)?;
        let last = Head { key: 0, rank: 0 };
        Ok(Chunk { last, heads, rows })
    }

    /// Returns the rows.
    pub fn rows(&self) -> &[T]
        ensures { result.now ≡ self.now.items }
    {
        self.rows.as_slice()
    }

    /// Returns whether there is memory for one more row.
    pub fn has_room(&self) -> bool
        ensures { IsTrue result ↔ (1 ≤ room_of self.now) }
    {
        self.rows.len() < self.rows.capacity()
    }

    /// Returns whether there is no row.
    pub fn is_empty(&self) -> bool
        ensures { IsTrue result ↔ (self.now.items ≡ []) }
    {
        self.rows.is_empty()
    }

    /// Adds a row at the end.
    #[tactic(auto, using(crate::proofs::Headings::push_steps))]
    pub fn push(&mut self, row: T)
        requires { 1 ≤ room_of self.old }
        ensures rows { self.new.items ≡ self.old.items ++ row ∷ [] }
        ensures capacity { self.new.capacity ≡ self.old.capacity }
    {
        self.last = row.head();
        self.heads.push_reserved(self.last);
        self.rows.push_reserved(row);
    }

    /// Removes and returns the row at the place.
    #[tactic(auto, using(crate::proofs::Headings::remove_steps))]
    pub fn remove(&mut self, place: usize) -> T
        requires { place < length self.old.items }
        ensures row { slice_get self.old.items place ≡ Some result }
        ensures rows { self.new.items ≡ remove self.old.items place }
        ensures capacity { self.new.capacity ≡ self.old.capacity }
        ensures room { room_of self.old < room_of self.new }
    {
        let _head = self.heads.remove(place);
        let last = last_or(&self.heads, self.last);
        self.last = last;
        self.rows.remove(place)
    }

    /// Changes the last row.
    #[tactic(auto, using(crate::proofs::Headings::change_steps))]
    pub fn change_last<C: Change<T>>(&mut self, change: &C)
        requires { 0 < length self.old.items }
        ensures rows { self.new.items ≡ update_last (C.changed change.now) self.old.items }
        ensures capacity { self.new.capacity ≡ self.old.capacity }
    {
        change_end(&mut self.rows, change);
    }

    /// Whether there are rows, all of them before the cut.
    #[tactic(auto, using(crate::proofs::Headings::ends_steps))]
    pub fn ends_before<C: Cut>(&self, cut: &C) -> bool
        ensures { result ≡ ends_before (λ row. C.before cut.now (T.head row)) self.now.items }
    {
        if self.rows.is_empty() {
            return false;
        }
        cut.is_behind(self.last)
    }

    /// Returns the place of the first row after the cut, or of one after the last row.
    pub fn seam<C: Cut>(&self, cut: &C) -> usize
        requires { AllLater (Sinks (λ row. C.before cut.now (T.head row))) self.now.items }
        ensures bound { result ≤ length self.now.items }
        ensures point { IsPartitionPoint (λ row. C.before cut.now (T.head row) ≡ true)
            (λ row. C.before cut.now (T.head row) ≡ false) self.now.items result }
    {
        self.heads.partition_point(|head| cut.is_behind(*head))
    }

    /// The last row's key; no contract says so.
    pub fn last_key(&self) -> u64 {
        self.last.key
    }

    /// Returns the place of the row with that key, if the keys from this one to the last row have
    /// no gap. Old rows are removed first, so the newer ones often have none.
    pub fn place_if_dense(&self, key: u64) -> Option<usize>
        requires { Rises (λ row. (T.head row).key) self.now.items }
        ensures { IfSome result (λ at.
            position (stands_by (λ row. (T.head row).key) key) self.now.items ≡ Some at) }
    {
        let behind = usize::try_from(self.last.key.checked_sub(key)?).ok()?;
        let at = self.heads.len().checked_sub(behind)?.checked_sub(1)?;
        match self.heads.get(at) {
            Some(head) if head.key == key => Some(at),
            _ => None,
        }
    }
}
