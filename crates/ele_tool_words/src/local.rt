//! Dates and times of day as UTC. A contract sees a word as its bytes, and a time as its moment.
ghost use Rattle.std.specs.Prelude.{◌≡◌, ◌≤◌, ℕ, length, IfSome, Some};
ghost use Rattle.ele_moment.specs.Spelled.{SpellsMoment};
ghost use Rattle.ele_tool_words.specs.ReadParts.{midnight_of, stamp_of};
ghost use Rattle.ele_tool_words.specs.Time.{SpellsDate};

use ele_moment::Moment;

/// Returns the moment at which a clock in UTC shows the date and the time of day of the word's
/// first 19 bytes. It ignores the byte between these two.
pub(crate) fn read_local(word: &[u8]) -> Option<Moment>
    requires { 19 ≤ length word.now }
    ensures found { IfSome result (SpellsMoment (stamp_of word.now)) }
    ensures only { (m : ℕ) → SpellsMoment (stamp_of word.now) m → result ≡ Some m }
{
    read(&stamp_of(word))
}

/// Returns the midnight of a date in UTC.
pub(crate) fn read_date(word: &[u8]) -> Option<Moment>
    requires { length word.now ≡ 10 }
    ensures found { IfSome result (SpellsDate word.now) }
    ensures only { (m : ℕ) → SpellsDate word.now m → result ≡ Some m }
{
    read(&midnight_of(word))
}

// The date and the time of day of the word's first 19 bytes, as a time in UTC.
fn stamp_of(word: &[u8]) -> [u8; 20]
    requires { 19 ≤ length word.now }
    ensures { result ≡ stamp_of word.now }
{
    let mut stamp = *b"____-__-__T__:__:__Z";
    stamp[..10].copy_from_slice(&word[..10]);
    stamp[11..19].copy_from_slice(&word[11..19]);
    stamp
}

// The midnight of a date, as a time in UTC.
fn midnight_of(date: &[u8]) -> [u8; 20]
    requires { length date.now ≡ 10 }
    ensures { result ≡ midnight_of date.now }
{
    let mut stamp = *b"____-__-__T00:00:00Z";
    stamp[..10].copy_from_slice(date);
    stamp
}

// The moment that a word spells.
fn read(word: &[u8]) -> Option<Moment>
    ensures found { IfSome result (SpellsMoment word.now) }
    ensures only { (m : ℕ) → SpellsMoment word.now m → result ≡ Some m }
{
    match Moment::read(word) {
        Ok(moment) => Some(moment),
        Err(_) => None,
    }
}
