//! The dates of the moments of an answer, behind its lines. A contract sees the text with them.
ghost use Rattle.std.specs.Prelude.{◌≡◌, ◌∷◌, ◌++◌, [], IfOk, List, OnOk, ℕ};
ghost use Rattle.ele_dialog.specs.Dates.{IsDatedLine, IsDatedText, IsDatesText, parts_of};
ghost use Rattle.ele_dialog.specs.Walk.{AddsDates, AddsWords};

use crate::places::{Places, columns_behind, columns_of};
use ele_moment::{Moment, NoMemory};
use std::alloc::Global;

const BEFORE_DATES: &[u8] = b"  # ";

const BETWEEN_DATES: &[u8] = b" ";

/// Returns a text with the dates of its moments behind each line. `NoMemory` if memory is refused.
pub(crate) fn dated(alloc: Global, places: Places, text: &[u8]) -> Result<Vec<u8>, NoMemory>
    ensures { IfOk result (λ shown. IsDatedText places text.now shown.items) }
{
    let mut shown = Vec::new(alloc);
    let mut front: &[u8] = b"";
    for line in text.split(|byte| *byte == b'\n') {
        shown.extend_from_slice(front)?;
        add_dated_line(places, line, &mut shown)?;
        front = b"\n";
    }
    Ok(shown)
}

// Adds a line, without its line feed, and the dates of its moments.
fn add_dated_line(places: Places, line: &[u8], shown: &mut Vec<u8>) -> Result<(), NoMemory>
    ensures { OnOk result ((text : List ℕ) × IsDatedLine places line.now text
        × (shown.new.items ≡ shown.old.items ++ text)) }
{
    shown.extend_from_slice(line)?;
    match columns_of(places, line) {
        Some(columns) => add_dates(columns, line, shown),
        None => Ok(()),
    }
}

// Adds the dates of the moments of a line with these columns.
fn add_dates(columns: &'static [bool], line: &[u8], shown: &mut Vec<u8>) -> Result<(), NoMemory>
    ensures { OnOk result ((text : List ℕ) × IsDatesText columns.now line.now text
        × (shown.new.items ≡ shown.old.items ++ text)) }
{
    let mut left = columns;
    let mut front = BEFORE_DATES;
    for word in line.split(|byte| *byte == b' ') {
        let (columns_left, front_left) = add_word(left, front, word, shown)?;
        left = columns_left;
        front = front_left;
    }
    Ok(())
}

// Adds the dates of a word, if these columns say that it is a moment, behind what stands before the
// first date. Returns the columns of the words behind it, and what stands before the next date.
fn add_word(
    columns: &'static [bool],
    front: &'static [u8],
    word: &[u8],
    shown: &mut Vec<u8>,
) -> Result<(&'static [bool], &'static [u8]), NoMemory>
    ensures { IfOk result (λ next. AddsWords columns.now front.now (word.now ∷ [])
        next.0.now next.1.now shown.old.items shown.new.items) }
{
    match columns.split_first() {
        Some((is_moment, behind)) => {
            if *is_moment {
                Ok((behind, add_moments(front, word, shown)?))
            } else {
                Ok((behind, front))
            }
        }
        None => Ok((columns_behind(word), front)),
    }
}

// Adds the dates of the moments of a word, which are one, the two of a mark, or those of marks.
// Returns what stands before the next date.
fn add_moments(
    first: &'static [u8],
    word: &[u8],
    shown: &mut Vec<u8>,
) -> Result<&'static [u8], NoMemory>
    ensures { IfOk result (λ next. AddsDates first.now (parts_of word.now) next.now
        shown.old.items shown.new.items) }
{
    let mut front = first;
    for part in word.split(|byte| *byte == b'/' || *byte == b',') {
        front = add_moment(front, part, shown)?;
    }
    Ok(front)
}

// Adds the date of a moment, if the part of a word spells one. Returns what stands before the next
// date.
fn add_moment(
    front: &'static [u8],
    part: &[u8],
    shown: &mut Vec<u8>,
) -> Result<&'static [u8], NoMemory>
    ensures { IfOk result (λ next. AddsDates front.now (part.now ∷ []) next.now
        shown.old.items shown.new.items) }
{
    match Moment::read(part) {
        Ok(moment) => {
            shown.extend_from_slice(front)?;
            shown.extend_from_slice(&moment.text())?;
            Ok(BETWEEN_DATES)
        }
        Err(_) => Ok(front),
    }
}
