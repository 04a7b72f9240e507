//! Words as times. A contract sees a word as its bytes, and a time as its moment.
ghost use Rattle.std.specs.Prelude.{◌≡◌, ◌≤◌, ◌↔◌, ℕ, length, IfOk, IfSome, IsTrue, Ok, Some};
ghost use Rattle.ele_moment.specs.Last.{last_moment};
ghost use Rattle.ele_tool_words.specs.OneTime.{OneTime};
ghost use Rattle.ele_tool_words.specs.ReadParts.{rest_of};
ghost use Rattle.ele_tool_words.specs.Time.{IsMark, IsShown, SpellsTime, SpellsZoned};

use crate::fraction::after_fraction;
use crate::local::{read_date, read_local};
use crate::zone::{Offset, read_zone};
use ele_moment::{BadMoment, Moment};

/// Returns the moment of the time that a word spells, as other tools print times:
/// - seconds since 1970, as in `1769860800`,
/// - a date, as in `2026-01-31`, which is its midnight in UTC,
/// - a date and a time of day, as in `2026-01-31T12:00:00.25+05:30`. `T` may be `t` or a space. The
///   fraction is optional, and is ignored. The offset may be `Z` or `z`, may lack its colon, and
///   may follow a space; without one the time is UTC.
///
/// `BadMoment` for every other word, for a date before 1970, and for a time that is before 1970 or
/// after the year 9999 in UTC. It takes no memory.
pub fn read_time(word: &[u8]) -> Result<Moment, BadMoment>
    ensures found { IfOk result (SpellsTime word.now) }
    ensures only { (m : ℕ) → SpellsTime word.now m → result ≡ Ok m }
{
    if word.len() >= 19 {
        return read_zoned(word).ok_or(BadMoment);
    }
    if word.len() == 10 && word[4] == b'-' {
        return read_date(word).ok_or(BadMoment);
    }
    Moment::read(word)
}

/// No word spells two times, and one that spells a moment spells that time.
#[tactic(auto, using(crate::proofs::Times::one_time))]
pub fn one_time()
    ensures { OneTime }
{}

// The time that a date, a time of day, a fraction and a zone spell.
fn read_zoned(word: &[u8]) -> Option<Moment>
    requires { 19 ≤ length word.now }
    ensures found { IfSome result (SpellsZoned word.now) }
    ensures only { (m : ℕ) → m ≤ last_moment → SpellsZoned word.now m → result ≡ Some m }
{
    if !is_mark(word[10]) {
        return None;
    }
    let local = read_local(word)?;
    let offset = read_rest(word.split_at(19).1)?;
    moment_at(local, offset)
}

/// Whether the byte is allowed between a date and a time of day.
pub(crate) fn is_mark(byte: u8) -> bool
    ensures { IsTrue result ↔ IsMark byte }
{
    matches!(byte, b'T' | b't' | b' ')
}

/// The offset after a time of day.
#[tactic(auto, unfolding(crate::specs::ReadParts::rest_of, ele_moment::specs::ReadFields::and_then))]
pub(crate) fn read_rest(rest: &[u8]) -> Option<Offset>
    ensures { result ≡ rest_of rest.now }
{
    let zone = after_fraction(rest)?;
    read_zone(zone)
}

/// The moment at which a clock of that offset shows the seconds of the local one.
pub(crate) fn moment_at(local: Moment, offset: Offset) -> Option<Moment>
    ensures found { IfSome result (IsShown local offset) }
    ensures only { (m : ℕ) → m ≤ last_moment → IsShown local offset m → result ≡ Some m }
{
    match offset {
        Offset::Ahead(minutes) => {
            let seconds = local.seconds().checked_sub(60 * minutes as u64)?;
            Moment::new(seconds)
        }
        Offset::Behind(minutes) => local.plus(60 * minutes as u64),
    }
}
