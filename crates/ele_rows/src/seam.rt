//! A sequence of chunks, none of them empty, as one list of rows.
//! A contract sees that list, and a place in it as the number of a chunk and a place in the chunk.
ghost use Rattle.std.specs.Prelude.{◌≡◌, ◌<◌, ◌≤◌, ◌+◌, ◌++◌, Some, true, false, IsTrue, OnSome, IfNone, IfSome, [], ◌∷◌, ◌↔◌, length, reverse, vec_len, vec_capacity, suc, slice_get};
ghost use Rattle.std.specs.Option.{option_copied};
ghost use Rattle.std.specs.List.{AllByRecursion};
ghost use Rattle.ele_lists.specs.Lists.{AllLater};
ghost use Rattle.ele_lists.specs.Ends.{last_of, update_last};
ghost use Rattle.ele_lists.specs.Keys.{Rises, stands_by};
ghost use Rattle.ele_rows.specs.Chunks.{IsPlaceOf, flat, AreFilled, AreShort, rows_at, before_place, behind_place, last_room, room_of, IsLastBehind, Sinks, IsSeam, KeepsRoom};

use crate::chunk::Chunk;
use crate::chunks::LONGEST_CHUNK;
use crate::cut::{Change, Cut};
use crate::head::Headed;
use crate::keyed::BeforeKey;

/// Whether the last chunk has spare capacity.
#[tactic(auto, using(crate::proofs::Steps::last_has_room_steps))]
pub fn last_has_room<T: Headed + Drop>(chunks: &[Chunk<T>]) -> bool
    ensures { IsTrue result ↔ (1 ≤ last_room chunks.now) }
{
    match chunks.last() {
        Some(chunk) => chunk.has_room(),
        None => false,
    }
}

/// Adds a row at the end of the last chunk.
#[tactic(auto, using(crate::proofs::Steps::push_last_steps))]
pub fn push_last<T: Headed + Drop>(chunks: &mut [Chunk<T>], row: T)
    requires room { 1 ≤ last_room chunks.old }
    requires filled { AreFilled chunks.old }
    requires short { AreShort chunks.old }
    ensures rows { flat chunks.new ≡ flat chunks.old ++ row ∷ [] }
    ensures filled { AreFilled chunks.new }
    ensures short { AreShort chunks.new }
{
    let last = chunks.len() - 1;
    chunks[last].push(row);
}

/// Returns the last row.
#[tactic(auto, using(crate::proofs::Steps::last_row_steps))]
pub fn last_row<T: Headed + Drop>(chunks: &[Chunk<T>]) -> Option<&T>
    requires { AreFilled chunks.now }
    ensures { option_copied result ≡ last_of (flat chunks.now) }
{
    chunks.last()?.rows().last()
}

/// Returns the last row, if it is before the cut.
#[tactic(auto, using(crate::proofs::Steps::last_row_steps))]
pub fn last_if_behind<'a, T: Headed + Drop, C: Cut>(
    chunks: &'a [Chunk<T>],
    cut: &C,
) -> Option<&'a T>
    requires { AreFilled chunks.now }
    ensures { IfSome result (λ row. IsLastBehind (λ row. C.before cut.now (T.head row))
        chunks.now row.now) }
{
    let chunk = chunks.last()?;
    if chunk.ends_before(cut) {
        chunk.rows().last()
    } else {
        None
    }
}

/// Changes the last row, if there is one.
#[tactic(auto, using(crate::proofs::Steps::seam_change_last_steps))]
pub fn change_last<T: Headed + Drop, C: Change<T>>(chunks: &mut [Chunk<T>], change: &C)
    requires filled { AreFilled chunks.old }
    requires short { AreShort chunks.old }
    ensures rows { flat chunks.new ≡ update_last (C.changed change.now) (flat chunks.old) }
    ensures filled { AreFilled chunks.new }
    ensures short { AreShort chunks.new }
    ensures room { last_room chunks.new ≡ last_room chunks.old }
{
    if chunks.is_empty() {
        return;
    }
    let last = chunks.len() - 1;
    chunks[last].change_last(change);
}

/// Returns the row at the place in the chunk.
pub fn row_at<T: Headed + Drop>(chunks: &[Chunk<T>], chunk: usize, place: usize) -> Option<&T>
    ensures { option_copied result ≡ slice_get (rows_at chunks.now chunk) place }
{
    chunks.get(chunk)?.rows().get(place)
}

/// Returns the row before the place.
#[tactic(auto, using(crate::proofs::Steps::row_before_steps))]
pub fn row_before<T: Headed + Drop>(chunks: &[Chunk<T>], chunk: usize, place: usize) -> Option<&T>
    requires filled { AreFilled chunks.now }
    requires chunk { chunk ≤ length chunks.now }
    requires place { place ≤ length (rows_at chunks.now chunk) }
    ensures { option_copied result ≡ last_of (before_place chunks.now chunk place) }
{
    if place > 0 {
        row_at(chunks, chunk, place - 1)
    } else {
        last_row(&chunks[..chunk])
    }
}

/// Returns the row with so many rows after it.
#[tactic(auto, using(crate::proofs::Steps::row_from_end_steps))]
pub fn row_from_end<T: Headed + Drop>(chunks: &[Chunk<T>], behind: usize) -> Option<&T>
    ensures { option_copied result ≡ slice_get (reverse (flat chunks.now)) behind }
{
    let mut left = behind;
    for place in (0..chunks.len()).rev() {
        let rows = chunks[place].rows();
        if left < rows.len() {
            return Some(&rows[rows.len() - 1 - left]);
        }
        left -= rows.len();
    }
    None
}

/// Returns the place of the first row after the cut: its chunk, and its place there. If there is
/// none, the place is the start of a chunk after the last.
pub fn seek<T: Headed + Drop, C: Cut>(chunks: &[Chunk<T>], cut: &C) -> (usize, usize)
    requires filled { AreFilled chunks.now }
    requires sinks { AllLater (Sinks (λ row. C.before cut.now (T.head row))) (flat chunks.now) }
    ensures { IsSeam (λ row. C.before cut.now (T.head row)) chunks.now result.0 result.1 }
{
    let chunk = chunks.partition_point(|chunk| chunk.ends_before(cut));
    match chunks.get(chunk) {
        Some(here) => (chunk, here.seam(cut)),
        None => (chunk, 0),
    }
}

/// Returns the place of the row with that key: its chunk, and its place there.
pub fn find_key<T: Headed + Drop>(chunks: &[Chunk<T>], key: u64) -> Option<(usize, usize)>
    requires filled { AreFilled chunks.now }
    requires rises { Rises (λ row. (T.head row).key) (flat chunks.now) }
    ensures found { IfSome result (λ at.
        IsPlaceOf (stands_by (λ row. (T.head row).key) key) chunks.now at.0 at.1) }
    ensures missing { IfNone result (AllByRecursion
        (λ row. stands_by (λ row. (T.head row).key) key row ≡ false) (flat chunks.now)) }
{
    if let Some(at) = find_dense(chunks, key) {
        return Some(at);
    }
    let (chunk, place) = seek(chunks, &BeforeKey(key));
    let row = row_at(chunks, chunk, place)?;
    if row.head().key == key {
        Some((chunk, place))
    } else {
        None
    }
}

// The place of the row with that key, if one look finds it. Rows get their numbers in order, so a
// row's number gives its place until a later row is removed.
fn find_dense<T: Headed + Drop>(chunks: &[Chunk<T>], key: u64) -> Option<(usize, usize)>
    requires { Rises (λ row. (T.head row).key) (flat chunks.now) }
    ensures { IfSome result (λ at.
        IsPlaceOf (stands_by (λ row. (T.head row).key) key) chunks.now at.0 at.1) }
{
    let chunk = likely_chunk(chunks, key)?;
    let place = chunks.get(chunk)?.place_if_dense(key)?;
    Some((chunk, place))
}

// The chunk that probably has the key. It is the last one if its keys from there on have no gap, as
// most calls ask for one of the last rows. Otherwise it is the first chunk if that has the key, or
// the chunk that the key would have if the chunks between were full.
fn likely_chunk<T: Headed + Drop>(chunks: &[Chunk<T>], key: u64) -> Option<usize> {
    let last = chunks.len().checked_sub(1)?;
    let rows = chunks[last].rows().len() as u64;
    let behind = chunks[last].last_key().saturating_sub(key);
    if behind < rows {
        return Some(last);
    }
    if key <= chunks[0].last_key() {
        return Some(0);
    }
    let between = usize::try_from(behind - rows).ok()? / LONGEST_CHUNK;
    last.checked_sub(between)?.checked_sub(1)
}

/// Removes the row at the place, and returns its chunk if that was the chunk's last row.
#[tactic(auto, using(crate::proofs::Steps::take_out_steps))]
pub fn take_out<T: Headed + Drop>(
    chunks: &mut Vec<Chunk<T>>,
    chunk: usize,
    place: usize,
) -> (T, Option<Chunk<T>>)
    requires place { place < length (rows_at chunks.old.items chunk) }
    requires filled { AreFilled chunks.old.items }
    requires short { AreShort chunks.old.items }
    ensures row { slice_get (rows_at chunks.old.items chunk) place ≡ Some result.0 }
    ensures rows { flat chunks.new.items ≡ before_place chunks.old.items chunk place
        ++ behind_place chunks.old.items chunk (suc place) }
    ensures filled { AreFilled chunks.new.items }
    ensures kept { IfNone result.1 (KeepsRoom chunks.old chunks.new) }
    ensures emptied { IfSome result.1 (λ emptied. emptied.items ≡ []) }
    ensures room { IfSome result.1 (λ emptied. 1 ≤ room_of emptied) }
    ensures few { IfSome result.1 (λ emptied. emptied.capacity ≤ 64) }
    ensures short { AreShort chunks.new.items }
    ensures shorter { OnSome result.1 (vec_len chunks.new + 1 ≡ vec_len chunks.old) }
    ensures capacity { vec_capacity chunks.new ≡ vec_capacity chunks.old }
{
    let row = chunks[chunk].remove(place);
    if chunks[chunk].is_empty() {
        (row, Some(chunks.remove(chunk)))
    } else {
        (row, None)
    }
}
