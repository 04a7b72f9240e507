//! Lengths of time with units. A contract sees a length as its number of seconds.
ghost use Rattle.std.specs.Prelude.{◌≡◌, ◌*◌, ◌<◌, ◌^◌, ℕ, Some, IfSome};
ghost use Rattle.ele_moment.specs.Number.{SpellsNumber};
ghost use Rattle.ele_tool_words.specs.Length.{IsCountOf, SpellsLength, unit_of};

use ele_moment::read_number;

/// The length that a word spells, in seconds: a number of seconds, or a number and a unit, which is `s`,
/// `m`, `h`, `d`, `w`, or `y` for 365 days. None for every other word, and for 2^64 seconds or more. It takes no
/// memory.
pub fn read_length(word: &[u8]) -> Option<u64>
    ensures found { IfSome result (SpellsLength word.now) }
    ensures only { (seconds : ℕ) → SpellsLength word.now seconds → result ≡ Some seconds }
{
    let Some((letter, number)) = word.split_last() else {
        return None;
    };
    match unit_of(*letter) {
        Some(unit) => read_units(number, unit),
        None => read_number(word),
    }
}

// So many units as a word spells, in seconds.
fn read_units(number: &[u8], unit: u64) -> Option<u64>
    ensures found { IfSome result (IsCountOf number.now unit) }
    ensures only { (seconds : ℕ) → IsCountOf number.now unit seconds → seconds < 2 ^ 64
        → result ≡ Some seconds }
{
    let Some(count) = read_number(number) else {
        return None;
    };
    count.checked_mul(unit)
}

// The seconds of the unit that a letter means.
fn unit_of(letter: u8) -> Option<u64>
    ensures { result ≡ unit_of letter }
{
    match letter {
        b's' => Some(1),
        b'm' => Some(60),
        b'h' => Some(3_600),
        b'd' => Some(86_400),
        b'w' => Some(604_800),
        b'y' => Some(31_536_000),
        _ => None,
    }
}
