//! Moments as people type them. A contract sees a word as its bytes, and a moment as its seconds.
ghost use Rattle.std.specs.Prelude.{◌≡◌, ◌<◌, ◌≤◌, ◌+◌, ◌*◌, ◌/◌, ◌++◌, ◌∷◌, ℕ, IfSome, Some, codes, drop, length, take};
ghost use Rattle.ele_tool_words.specs.Time.{SpellsTime};
ghost use Rattle.ele_tool_words.specs.Zone.{SpellsClock};
ghost use Rattle.ele_typed_words.specs.When.{IsAfter, IsBefore, IsOnDay, SpellsSigned, SpellsUnsigned, SpellsWhen, is_clock, has_mark, lacks_seconds, minutes_ahead, with_seconds};

use arrayvec::ArrayVec;
use ele_moment::Moment;
use ele_tool_words::{Offset, read_length, read_offset, read_time};

/// The seconds of a day.
const DAY: u64 = 86_400;

/// A time without seconds and the seconds that it lacks have no more bytes.
const ROOM: usize = 32;

/// Returns the moment that a word spells where a clock shows `now`:
/// - `now`,
/// - `+30d` or `-30d`, a length after now or before,
/// - `18:00`, at that time of the day of now, in UTC,
/// - a time as other tools print it, which may lack its seconds, as `2026-12-24T18:00`.
///
/// None for every other word, and for a moment before 1970 or after the year 9999. It takes no memory.
pub fn read_when(word: &[u8], now: Moment) -> Option<Moment>
    ensures found { IfSome result (SpellsWhen now word.now) }
    ensures only { (m : ℕ) → SpellsWhen now word.now m → result ≡ Some m }
{
    if word == b"now".as_slice() {
        Some(now)
    } else {
        read_signed(word, now)
    }
}

// The moment of a length behind a sign, or of another word.
fn read_signed(word: &[u8], now: Moment) -> Option<Moment>
    ensures found { IfSome result (SpellsSigned now word.now) }
    ensures only { (m : ℕ) → SpellsSigned now word.now m → result ≡ Some m }
{
    match word {
        [b'+', length @ ..] => after(now, length),
        [b'-', length @ ..] => before(now, length),
        _ => read_unsigned(word, now),
    }
}

// The moment of a time of day alone, or of a time.
fn read_unsigned(word: &[u8], now: Moment) -> Option<Moment>
    ensures found { IfSome result (SpellsUnsigned now word.now) }
    ensures only { (m : ℕ) → SpellsUnsigned now word.now m → result ≡ Some m }
{
    if is_clock(word) {
        on_day(now, word)
    } else {
        read_whole(word)
    }
}

// The moment so long after now.
fn after(now: Moment, length: &[u8]) -> Option<Moment>
    ensures found { IfSome result (IsAfter now length.now) }
    ensures only { (m : ℕ) → IsAfter now length.now m → result ≡ Some m }
{
    let Some(seconds) = read_length(length) else {
        return None;
    };
    now.plus(seconds)
}

// The moment so long before now.
fn before(now: Moment, length: &[u8]) -> Option<Moment>
    ensures found { IfSome result (IsBefore now length.now) }
    ensures only { (m : ℕ) → IsBefore now length.now m → result ≡ Some m }
{
    let Some(seconds) = read_length(length) else {
        return None;
    };
    minus(now, seconds)
}

// The moment that many seconds earlier, if there is one.
fn minus(moment: Moment, seconds: u64) -> Option<Moment>
    ensures found { IfSome result (λ m. m + seconds ≡ moment) }
    ensures only { (m : ℕ) → m + seconds ≡ moment → result ≡ Some m }
{
    moment.lemma_in_range();
    if moment.seconds() < seconds {
        return None;
    }
    Moment::new(moment.seconds() - seconds)
}

// Whether a word has the form of a time of day alone.
fn is_clock(word: &[u8]) -> bool
    ensures { result ≡ is_clock word.now }
{
    word.len() == 5 && word[2] == b':'
}

// The moment of the day of now at which a clock in UTC shows the word.
fn on_day(now: Moment, word: &[u8]) -> Option<Moment>
    requires { length word.now ≡ 5 }
    ensures found { IfSome result (IsOnDay now word.now) }
    ensures only { (m : ℕ) → IsOnDay now word.now m → result ≡ Some m }
{
    let Some(minutes) = minutes_of(word) else {
        return None;
    };
    at_minutes(now, minutes)
}

// The moment so many minutes after the midnight of a moment's day, which is one if a day has so many.
fn at_minutes(moment: Moment, minutes: u64) -> Option<Moment>
    requires { minutes < 1440 }
    ensures { result ≡ Some (moment / 86400 * 86400 + 60 * minutes) }
{
    moment.lemma_in_range();
    Moment::new(moment.seconds() / DAY * DAY + 60 * minutes)
}

// The minutes since midnight at which a clock shows the word.
fn minutes_of(word: &[u8]) -> Option<u64>
    requires { length word.now ≡ 5 }
    ensures found { IfSome result (SpellsClock word.now) }
    ensures few { IfSome result (λ minutes. minutes < 1440) }
    ensures only { (minutes : ℕ) → SpellsClock word.now minutes → result ≡ Some minutes }
{
    minutes_ahead(read_offset(&behind_plus(word)))
}

// The minutes of an offset ahead.
fn minutes_ahead(offset: Option<Offset>) -> Option<u64>
    ensures { result ≡ minutes_ahead offset }
{
    match offset {
        Some(offset) => match offset {
            Offset::Ahead(minutes) => Some(minutes as u64),
            Offset::Behind(_) => None,
        },
        None => None,
    }
}

// The word with a plus in front.
fn behind_plus(word: &[u8]) -> [u8; 6]
    requires { length word.now ≡ 5 }
    ensures { result ≡ 43 ∷ word.now }
{
    let mut zone = *b"+__:__";
    zone[1..].copy_from_slice(word);
    zone
}

// The moment of a time that may lack its seconds.
fn read_whole(word: &[u8]) -> Option<Moment>
    ensures found { IfSome result (SpellsTime (with_seconds word.now)) }
    ensures only { (m : ℕ) → SpellsTime (with_seconds word.now) m → result ≡ Some m }
{
    if lacks_seconds(word) {
        let whole = whole_of(word);
        read_printed(whole.as_slice())
    } else {
        read_printed(word)
    }
}

// The moment of a time as other tools print it.
fn read_printed(word: &[u8]) -> Option<Moment>
    ensures found { IfSome result (SpellsTime word.now) }
    ensures only { (m : ℕ) → SpellsTime word.now m → result ≡ Some m }
{
    match read_time(word) {
        Ok(moment) => Some(moment),
        Err(_) => None,
    }
}

// A time with the seconds that it lacks.
fn whole_of(word: &[u8]) -> ArrayVec<u8, ROOM>
    requires long { 16 ≤ length word.now }
    requires short { length word.now < 30 }
    ensures { result.items ≡ take 16 word.now ++ (codes ":00" ++ drop 16 word.now) }
{
    let (minutes, zone) = word.split_at(16);
    let mut whole = ArrayVec::new();
    add(&mut whole, minutes);
    add(&mut whole, b":00");
    add(&mut whole, zone);
    whole
}

// Adds bytes, for which there is room.
fn add(whole: &mut ArrayVec<u8, ROOM>, bytes: &[u8])
    requires { length whole.old.items + length bytes.now ≤ 32 }
    ensures { whole.new.items ≡ whole.old.items ++ bytes.now }
{
    match whole.try_extend_from_slice(bytes) {
        Ok(()) | Err(_) => {}
    }
}

// Whether a word is a time without seconds, by its length and its colons.
fn lacks_seconds(word: &[u8]) -> bool
    ensures { result ≡ lacks_seconds word.now }
{
    word.len() >= 16 && word.len() < 30 && word[13] == b':' && !has_mark(word)
}

// Whether a colon or a point is behind the minutes.
fn has_mark(word: &[u8]) -> bool
    ensures { result ≡ has_mark word.now }
{
    match word.get(16) {
        Some(byte) => *byte == b':' || *byte == b'.',
        None => false,
    }
}
