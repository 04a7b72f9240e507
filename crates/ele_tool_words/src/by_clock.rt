//! Times by the clock of a place. A contract sees a word as its bytes, and a time as its moment and an offset.
ghost use Rattle.std.specs.Prelude.{◌≡◌, ◌≤◌, ◌<◌, ℕ, drop, get_or, length, option_map, IfSome, Some};
ghost use Rattle.ele_moment.specs.Last.{last_moment};
ghost use Rattle.ele_tool_words.specs.ByClock.{SpellsBy};
ghost use Rattle.ele_tool_words.specs.ReadParts.{after_fraction, zone_by};
ghost use Rattle.ele_tool_words.specs.Time.{IsShown};
ghost use Rattle.ele_tool_words.specs.declared.zone.Offset.{Offset};

use crate::fraction::after_fraction;
use crate::local::{read_date, read_local};
use crate::time::{is_mark, moment_at};
use crate::zone::{Offset, read_zone};
use ele_moment::Moment;

/// A time, and the offset of the clock that shows it.
#[derive(Clone, Copy, PartialEq, Eq)]
pub struct Clocked {
    pub moment: Moment,
    pub offset: Offset,
}

/// Returns the time that a word spells, in the forms of `read_time`. A time without an offset is by a clock of the
/// offset `home`, which also shows a number of seconds.
///
/// None for every other word, and for a time that is before 1970 or after the year 9999 in UTC. It takes no memory.
pub fn read_clocked(home: Offset, word: &[u8]) -> Option<Clocked>
    ensures found { IfSome result (λ time. SpellsBy home word.now time.moment time.offset) }
    ensures only { (m : ℕ) (offset : Offset) → SpellsBy home word.now m offset
        → result ≡ Some (record { moment = m; offset = offset }) }
{
    if word.len() >= 19 {
        return read_long(home, word);
    }
    if word.len() == 10 && word[4] == b'-' {
        return read_day(home, word);
    }
    read_seconds(home, word)
}

// The time that a date, a time of day, a fraction and a zone spell.
fn read_long(home: Offset, word: &[u8]) -> Option<Clocked>
    requires { 19 ≤ length word.now }
    ensures found { IfSome result (λ time. SpellsBy home word.now time.moment time.offset) }
    ensures only { (m : ℕ) (offset : Offset) → SpellsBy home word.now m offset
        → result ≡ Some (record { moment = m; offset = offset }) }
{
    if !is_mark(word[10]) {
        return None;
    }
    let local = read_local(word)?;
    let zone = zone_behind(word)?;
    let offset = offset_by(home, zone)?;
    shown_by(local, offset)
}

// What follows a date, a time of day and a fraction. None if no digit follows a point.
fn zone_behind(word: &[u8]) -> Option<&[u8]>
    requires { 19 ≤ length word.now }
    ensures { option_map (λ zone. zone.now) result ≡ after_fraction (drop 19 word.now) }
{
    after_fraction(word.split_at(19).1)
}

// The time that a date spells: its midnight.
fn read_day(home: Offset, word: &[u8]) -> Option<Clocked>
    requires ten { length word.now ≡ 10 }
    requires dash { get_or word.now 4 0 ≡ 45 }
    ensures found { IfSome result (λ time. SpellsBy home word.now time.moment time.offset) }
    ensures only { (m : ℕ) (offset : Offset) → SpellsBy home word.now m offset
        → result ≡ Some (record { moment = m; offset = offset }) }
{
    let local = read_date(word)?;
    shown_by(local, home)
}

// The time that a number of seconds spells.
fn read_seconds(home: Offset, word: &[u8]) -> Option<Clocked>
    requires short { length word.now < 19 }
    requires no_date { length word.now ≡ 10 → get_or word.now 4 0 ≡ 45 → ⊥ }
    ensures found { IfSome result (λ time. SpellsBy home word.now time.moment time.offset) }
    ensures only { (m : ℕ) (offset : Offset) → SpellsBy home word.now m offset
        → result ≡ Some (record { moment = m; offset = offset }) }
{
    match Moment::read(word) {
        Ok(moment) => Some(Clocked {
            moment,
            offset: home,
        }),
        Err(_) => None,
    }
}

// The offset of a zone; that of the place if it is empty.
fn offset_by(home: Offset, zone: &[u8]) -> Option<Offset>
    ensures { result ≡ zone_by home zone.now }
{
    match zone {
        [] => Some(home),
        [..] => read_zone(zone),
    }
}

// The time at which a clock of that offset shows the seconds of the local one.
fn shown_by(local: Moment, offset: Offset) -> Option<Clocked>
    ensures found { IfSome result (λ time. (time.moment ≤ last_moment) × IsShown local offset time.moment
        × (time.offset ≡ offset)) }
    ensures only { (m : ℕ) → m ≤ last_moment → IsShown local offset m
        → result ≡ Some (record { moment = m; offset = offset }) }
{
    let moment = moment_at(local, offset)?;
    Some(Clocked { moment, offset })
}
