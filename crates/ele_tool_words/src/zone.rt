//! Offsets from UTC, after a time of day. A contract sees a word as its bytes, and an offset as
//! minutes ahead of UTC or behind it.
ghost use Rattle.std.specs.Prelude.{◌≡◌};
ghost use Rattle.ele_tool_words.specs.ReadParts.{clock_of, is_utc, offset_of, with_sign, without, zone_of};

use ele_moment::read_two_digits;

/// How far a clock is from UTC, in minutes.
#[derive(Clone, Copy, PartialEq, Eq)]
pub enum Offset {
    Ahead(u16),
    Behind(u16),
}

/// Returns the offset that a zone spells, if it is one; UTC if it is empty.
pub(crate) fn read_zone(zone: &[u8]) -> Option<Offset>
    ensures { result ≡ zone_of zone.now }
{
    if is_utc(zone) {
        return Some(Offset::Ahead(0));
    }
    read_offset(without(b' ', zone))
}

// Whether a zone is UTC's.
fn is_utc(zone: &[u8]) -> bool
    ensures { result ≡ is_utc zone.now }
{
    matches!(zone, [] | [b'Z' | b'z'])
}

// The offset that a sign, hours and minutes spell.
#[tactic(auto, unfolding(crate::specs::ReadParts::offset_of, ele_moment::specs::ReadFields::and_then))]
fn read_offset(word: &[u8]) -> Option<Offset>
    ensures { result ≡ offset_of word.now }
{
    match word {
        [sign, clock @ ..] => with_sign(*sign, read_clock(clock)?),
        [] => None,
    }
}

// The offset of that many minutes, ahead of UTC if the sign is `+` and behind it if it is `-`.
fn with_sign(sign: u8, minutes: u16) -> Option<Offset>
    ensures { result ≡ with_sign sign minutes }
{
    match sign {
        b'+' => Some(Offset::Ahead(minutes)),
        b'-' => Some(Offset::Behind(minutes)),
        _ => None,
    }
}

// The minutes that `HH:MM` or `HHMM` spells.
#[tactic(auto, unfolding(crate::specs::ReadParts::clock_of, ele_moment::specs::ReadFields::and_then))]
fn read_clock(word: &[u8]) -> Option<u16>
    ensures { result ≡ clock_of word.now }
{
    let (hour, rest) = read_two_digits(word)?;
    let rest = without(b':', rest);
    let (minute, rest) = read_two_digits(rest)?;
    if rest.is_empty() && hour < 24 && minute < 60 {
        Some(60 * hour as u16 + minute as u16)
    } else {
        None
    }
}

// The rest after the separator, or all if the word doesn't begin with it.
fn without(mark: u8, word: &[u8]) -> &[u8]
    ensures { result.now ≡ without mark word.now }
{
    match word {
        [first, rest @ ..] if *first == mark => rest,
        _ => word,
    }
}
