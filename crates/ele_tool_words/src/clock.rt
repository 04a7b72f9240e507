//! The clocks by which times are written. A contract sees a word as its bytes, and an offset as minutes ahead of UTC or
//! behind it.
ghost use Rattle.std.specs.Prelude.{◌≡◌, ℕ, IfSome, Some};
ghost use Rattle.ele_tool_words.specs.Clock.{SpellsClocked};
ghost use Rattle.ele_tool_words.specs.Time.{SpellsTime};
ghost use Rattle.ele_tool_words.specs.Zone.{SpellsZone};
ghost use Rattle.ele_tool_words.specs.declared.zone.Offset.{Offset};

use crate::time::read_rest;
use crate::zone::{Offset, read_zone};

/// Returns the offset of the clock by which the word writes a time: that of its zone, and UTC for a number of seconds, a
/// date alone and a time without a zone. UTC for every word that spells no time. It takes no memory.
pub fn read_clock(word: &[u8]) -> Offset
    ensures { (m : ℕ) → SpellsTime word.now m → SpellsClocked word.now m result }
{
    if word.len() < 19 {
        return Offset::Ahead(0);
    }
    match read_rest(word.split_at(19).1) {
        Some(offset) => offset,
        None => Offset::Ahead(0),
    }
}

/// Returns the offset that a word spells: `+05:30`, `+0530`, `-05:00`, or `Z` or nothing for UTC. None for every other
/// word. It takes no memory.
pub fn read_offset(word: &[u8]) -> Option<Offset>
    ensures found { IfSome result (SpellsZone word.now) }
    ensures only { (offset : Offset) → SpellsZone word.now offset → result ≡ Some offset }
{
    read_zone(word)
}
