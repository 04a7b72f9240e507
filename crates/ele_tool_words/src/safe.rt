//! The seconds and the floor of a policy in text. A contract sees a word as its bytes.
ghost use Rattle.std.specs.Prelude.{◌≡◌, ℕ, Some, IfSome};
ghost use Rattle.std.specs.List.{list_any};
ghost use Rattle.ele_moment.specs.Number.{SpellsNumber};
ghost use Rattle.ele_tool_words.specs.Length.{SpellsLength};
ghost use Rattle.ele_tool_words.specs.PolicyWord.{SpellsSafe, is_slash};

use crate::cut::cut_at_slash;
use crate::length::read_length;
use ele_moment::read_number;

/// The seconds and the floor behind `safe:`.
pub fn safe_numbers(text: &[u8]) -> Option<(u64, u64)>
    ensures found { IfSome result
        (λ numbers. SpellsSafe (list_any is_slash text.now) text.now numbers.0 numbers.1) }
    ensures only { (seconds floor : ℕ) → SpellsSafe (list_any is_slash text.now) text.now seconds floor
        → result ≡ Some (seconds, floor) }
{
    let Some((seconds, floor)) = cut_at_slash(text) else {
        return without_floor(text);
    };
    with_floor(seconds, floor)
}

// The seconds of a length, without a floor.
fn without_floor(text: &[u8]) -> Option<(u64, u64)>
    ensures found { IfSome result
        (λ numbers. SpellsLength text.now numbers.0 × (numbers.1 ≡ 0)) }
    ensures only { (seconds : ℕ) → SpellsLength text.now seconds → result ≡ Some (seconds, 0) }
{
    let Some(seconds) = read_length(text) else {
        return None;
    };
    Some((seconds, 0))
}

// The seconds of a length, and a floor.
fn with_floor(seconds: &[u8], floor: &[u8]) -> Option<(u64, u64)>
    ensures found { IfSome result
        (λ numbers. SpellsLength seconds.now numbers.0 × SpellsNumber floor.now numbers.1) }
    ensures only { (m n : ℕ) → SpellsLength seconds.now m → SpellsNumber floor.now n
        → result ≡ Some (m, n) }
{
    let Some(length) = read_length(seconds) else {
        return None;
    };
    let Some(number) = read_number(floor) else {
        return None;
    };
    Some((length, number))
}
