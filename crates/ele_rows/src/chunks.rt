//! A list in chunks, whose memory can be reserved before rows are added.
//! A contract sees its rows, and for how many more it has memory.
ghost use Rattle.std.specs.Prelude.{◌≡◌, ◌<◌, ◌≤◌, ◌/◌, [], ◌∷◌, ◌++◌, OnOk, IsOk, not, find, reverse, length, slice_get, max, min};
ghost use Rattle.std.specs.Option.{option_copied};
ghost use Rattle.ele_lists.specs.Lists.{remove_first, AllLater};
ghost use Rattle.ele_lists.specs.Ends.{last_of, update_last};
ghost use Rattle.ele_lists.specs.Keys.{Rises, stands_by};
ghost use Rattle.ele_rows.specs.Chunks.{Sinks};

use crate::chunk::Chunk;
use crate::cut::{Change, Cut};
use crate::head::Headed;
use crate::rows::ChunkRows;
use crate::seam::{
    change_last, find_key, last_has_room, last_if_behind, last_row, push_last, row_at, row_before,
    row_from_end, seek, take_out,
};
use std::alloc::{AllocError, Global};
use std::marker::Model;

/// The largest capacity of a chunk, in rows. It is so large that a million rows make few chunks,
/// and so small that a removal moves few rows.
pub(crate) const LONGEST_CHUNK: usize = 64;

/// The smallest capacity of a chunk, in rows. Most lists stay short, and each takes no more memory
/// than it needs.
const SHORTEST_CHUNK: usize = 4;

// The capacity of the next chunk: an eighth of the rows, within the two bounds.
fn next_room(count: usize) -> usize
    ensures { result ≡ max 4 (min 64 (count / 8)) }
{
    (count / 8).clamp(SHORTEST_CHUNK, LONGEST_CHUNK)
}

/// Rows in chunks, each chunk in an allocation of its own, so that a removal moves the rows of one
/// chunk only. An empty chunk is kept as a spare for later rows.
#[derive(Drop)]
pub struct Chunks<T: Headed> {
    chunks: Vec<Chunk<T>>,
    fresh: Option<Chunk<T>>,
    count: usize,
    alloc: Global,
}

impl<T: Headed> Model for Chunks<T> {
    ghost use Rattle.ele_rows.specs.Chunks.{Spaced, spaced_of, IsSpaced};

    ghost Value = { Spaced T };

    ghost view = { λ l. spaced_of l.chunks l.fresh l.count };

    ghost invariant = { λ l. IsSpaced l.chunks.items l.fresh l.count };
}

impl<T: Headed + Drop> Chunks<T> {
    /// Makes an empty list. It takes no memory.
    pub fn new(alloc: Global) -> Chunks<T>
        ensures { result.rows ≡ [] }
    {
        Chunks {
            chunks: Vec::new(alloc),
            fresh: None,
            count: 0,
            alloc,
        }
    }

    /// Returns the number of rows.
    pub fn len(&self) -> usize
        ensures { result ≡ length self.now.rows }
    {
        self.count
    }

    /// Reserves memory for one row at least; if it allocates, for at most 64. If memory is refused,
    /// the rows stay as they were.
    pub fn reserve(&mut self) -> Result<(), AllocError>
        ensures ok { OnOk result (1 ≤ self.new.spare) }
        ensures few { self.old.spare ≡ 0 → self.new.spare ≤ 64 }
        ensures ready { 1 ≤ self.old.spare → IsOk result }
        ensures rows { self.new.rows ≡ self.old.rows }
    {
        if self.count == usize::MAX {
            return Err(AllocError);
        }
        if last_has_room(&self.chunks) {
            return Ok(());
        }
        if self.chunks.reserve(1).is_err() {
            return Err(AllocError);
        }
        if self.fresh.is_none() {
            self.fresh = Some(Chunk::with_capacity(self.alloc, next_room(self.count))?);
        }
        Ok(())
    }

    /// Adds a row at the end.
    pub fn push(&mut self, row: T)
        requires { 1 ≤ self.old.spare }
        ensures { self.new.rows ≡ self.old.rows ++ row ∷ [] }
    {
        self.count += 1;
        if last_has_room(&self.chunks) {
            push_last(&mut self.chunks, row);
            return;
        }
        if let Some(mut chunk) = self.fresh.take() {
            chunk.push(row);
            self.chunks.push_reserved(chunk);
        }
    }

    /// Iterates over all rows, in order.
    pub fn iter(&self) -> ChunkRows<'_, T>
        ensures { result ≡ self.now.rows }
    {
        ChunkRows {
            rows: &[],
            chunks: self.chunks.as_slice(),
        }
    }

    /// Returns the last row.
    pub fn last(&self) -> Option<&T>
        ensures { option_copied result ≡ last_of self.now.rows }
    {
        last_row(&self.chunks)
    }

    /// Returns the row with so many rows after it. It goes back from the last chunk, over as many
    /// chunks as there are such rows, plus one, at most.
    pub fn from_end(&self, behind: usize) -> Option<&T>
        ensures { option_copied result ≡ slice_get (reverse self.now.rows) behind }
    {
        row_from_end(&self.chunks, behind)
    }

    /// Changes the last row, if there is one.
    #[tactic(auto, using(crate::proofs::Steps::change_last_steps))]
    pub fn change_last<C: Change<T>>(&mut self, change: &C)
        ensures rows { self.new.rows ≡ update_last (C.changed change.now) self.old.rows }
        ensures spare { self.new.spare ≡ self.old.spare }
    {
        change_last(&mut self.chunks, change);
    }

    /// Returns the first row after the cut.
    pub fn first_behind<C: Cut>(&self, cut: &C) -> Option<&T>
        requires { AllLater (Sinks (λ row. C.before cut.now (T.head row))) self.now.rows }
        ensures { option_copied result
            ≡ find (λ row. not (C.before cut.now (T.head row))) self.now.rows }
    {
        let (chunk, place) = seek(&self.chunks, cut);
        row_at(&self.chunks, chunk, place)
    }

    /// Returns the last row before the cut.
    #[tactic(auto, using(crate::proofs::Steps::last_before_steps))]
    pub fn last_before<C: Cut>(&self, cut: &C) -> Option<&T>
        requires { AllLater (Sinks (λ row. C.before cut.now (T.head row))) self.now.rows }
        ensures { option_copied result
            ≡ find (λ row. C.before cut.now (T.head row)) (reverse self.now.rows) }
    {
        match last_if_behind(&self.chunks, cut) {
            Some(last) => Some(last),
            None => self.last_at_seam(cut),
        }
    }

    // Finds the last row before the cut by a search.
    fn last_at_seam<C: Cut>(&self, cut: &C) -> Option<&T>
        requires { AllLater (Sinks (λ row. C.before cut.now (T.head row))) self.now.rows }
        ensures { option_copied result
            ≡ find (λ row. C.before cut.now (T.head row)) (reverse self.now.rows) }
    {
        let (chunk, place) = seek(&self.chunks, cut);
        row_before(&self.chunks, chunk, place)
    }

    /// Returns the row with that key.
    pub fn get(&self, key: u64) -> Option<&T>
        requires { Rises (λ row. (T.head row).key) self.now.rows }
        ensures { option_copied result
            ≡ find (stands_by (λ row. (T.head row).key) key) self.now.rows }
    {
        let (chunk, place) = find_key(&self.chunks, key)?;
        row_at(&self.chunks, chunk, place)
    }

    /// Removes and returns the row with that key. The memory for its place stays.
    pub fn remove(&mut self, key: u64) -> Option<T>
        requires { Rises (λ row. (T.head row).key) self.old.rows }
        ensures row { result ≡ find (stands_by (λ row. (T.head row).key) key) self.old.rows }
        ensures rows { self.new.rows
            ≡ remove_first (stands_by (λ row. (T.head row).key) key) self.old.rows }
        ensures room { 1 ≤ self.old.spare → 1 ≤ self.new.spare }
    {
        let (chunk, place) = find_key(&self.chunks, key)?;
        let (row, emptied) = take_out(&mut self.chunks, chunk, place);
        self.count -= 1;
        self.fresh = emptied.or(self.fresh.take());
        Some(row)
    }
}
