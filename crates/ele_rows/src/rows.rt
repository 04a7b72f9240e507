//! The iterator over the rows of a list in chunks.
//! A contract sees the rows that are still to come.
ghost use Rattle.std.specs.Iterator.{YieldsFirstRef, item_count};

use crate::chunk::Chunk;
use crate::head::Headed;
use std::iter::FusedIterator;
use std::marker::Model;

/// Iterates over the rows of a list in chunks.
#[derive(Drop)]
pub struct ChunkRows<'a, T: Headed> {
    /// The rest of the current chunk.
    pub(crate) rows: &'a [T],
    /// The chunks after it.
    pub(crate) chunks: &'a [Chunk<T>],
}

impl<'a, T: Headed> Model for ChunkRows<'a, T> {
    ghost use Rattle.std.specs.Prelude.{List, ◌++◌};

    ghost Value = { List T };

    ghost use Rattle.ele_rows.specs.Chunks.{AreFilled, flat};

    ghost view = { λ left. left.rows.now ++ flat left.chunks.now };

    ghost invariant = { λ left. AreFilled left.chunks.now };
}

impl<'a, T: Headed + Drop> Iterator for ChunkRows<'a, T> {
    type Item = &'a T;

    ghost next_gives = { YieldsFirstRef (λ rest. rest) };

    ghost remaining = { item_count (λ rest. rest) };

    fn next(&mut self) -> Option<&'a T> {
        if self.rows.is_empty() {
            let (chunk, behind) = self.chunks.split_first()?;
            self.rows = chunk.rows();
            self.chunks = behind;
        }
        let (row, left) = self.rows.split_first()?;
        self.rows = left;
        Some(row)
    }
}

impl<T: Headed + Drop> FusedIterator for ChunkRows<'_, T> {}
