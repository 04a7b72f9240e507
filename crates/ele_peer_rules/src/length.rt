//! Lengths of time, as the tools write them. A contract sees a length as its months and seconds.
ghost use Rattle.std.specs.Prelude.{◌≡◌, ◌*◌, ◌<◌, ◌^◌, ℕ, List, Some, IfSome};
ghost use Rattle.std.specs.Option.{option_map};
ghost use Rattle.ele_moment.specs.Number.{SpellsNumber};
ghost use Rattle.ele_rule_parts.specs.declared.part.Reach.{Reach};
ghost use Rattle.ele_peer_rules.specs.Words.{SpellsBorg, SpellsReach, SpellsRestic, SpellsRows, SpellsSeconds, SpellsSome, SpellsUnit, borg_unit};

use crate::tool::Tool;
use ele_moment::read_number;
use ele_rule_parts::{Reach, cut_at};

/// The length of time that a word spells to the tool.
pub(crate) fn read_reach(tool: Tool, word: &[u8]) -> Option<Reach>
    ensures found { IfSome result (SpellsReach tool word.now) }
    ensures only { (reach : Reach) → SpellsReach tool word.now reach → result ≡ Some reach }
{
    match tool {
        Tool::Restic | Tool::OldRestic => read_restic(word),
        Tool::Borg => read_borg(word),
        Tool::Snapper => read_seconds(word),
        Tool::Sanoid | Tool::Btrbk => None,
    }
}

/// How many rows a word lets the tool keep. Only a snapshot tool's number may be 0.
pub(crate) fn read_rows(tool: Tool, word: &[u8]) -> Option<u64>
    ensures found { IfSome result (SpellsRows tool word.now) }
    ensures only { (n : ℕ) → SpellsRows tool word.now n → result ≡ Some n }
{
    match tool {
        Tool::Restic | Tool::OldRestic | Tool::Borg => read_some(word),
        Tool::Snapper | Tool::Sanoid | Tool::Btrbk => read_number(word),
    }
}

// The number from 1 on that a word spells.
fn read_some(word: &[u8]) -> Option<u64>
    ensures found { IfSome result (SpellsSome word.now) }
    ensures only { (n : ℕ) → SpellsSome word.now n → result ≡ Some n }
{
    let Some(number) = read_number(word) else {
        return None;
    };
    if number > 0 { Some(number) } else { None }
}

// Years, months, days and hours.
fn read_restic(word: &[u8]) -> Option<Reach>
    ensures found { IfSome result (SpellsRestic word.now) }
    ensures only { (reach : Reach) → SpellsRestic word.now reach → result ≡ Some reach }
{
    let (years, rest) = take_unit(b'y', word)?;
    let (months, rest) = take_unit(b'm', rest)?;
    let (days, rest) = take_unit(b'd', rest)?;
    let (hours, rest) = take_unit(b'h', rest)?;
    if !rest.is_empty() {
        return None;
    }
    let months = years.checked_mul(12)?.checked_add(months)?;
    let seconds = days
        .checked_mul(86_400)?
        .checked_add(hours.checked_mul(3_600)?)?;
    if months == 0 && seconds == 0 {
        return None;
    }
    Some(Reach { months, seconds })
}

// The number before a letter, and the rest; 0 and the whole word if it hasn't the letter.
fn take_unit(letter: u8, word: &[u8]) -> Option<(u64, &[u8])>
    ensures found { IfSome result (λ taken. SpellsUnit letter word.now taken.0 taken.1.now) }
    ensures only { (n : ℕ) (rest : List ℕ) → SpellsUnit letter word.now n rest
        → option_map {U = ℕ × List ℕ} (λ taken. (taken.0, taken.1.now)) result ≡ Some (n, rest) }
{
    let Some((number, rest)) = cut_at(letter, word) else {
        return Some((0, word));
    };
    let Some(number) = read_number(number) else {
        return None;
    };
    Some((number, rest))
}

// A number of seconds.
fn read_seconds(word: &[u8]) -> Option<Reach>
    ensures found { IfSome result (SpellsSeconds word.now) }
    ensures only { (reach : Reach) → SpellsSeconds word.now reach → result ≡ Some reach }
{
    let Some(seconds) = read_number(word) else {
        return None;
    };
    Some(Reach { months: 0, seconds })
}

// A number of one unit.
fn read_borg(word: &[u8]) -> Option<Reach>
    ensures found { IfSome result (SpellsBorg word.now) }
    ensures only { (reach : Reach) → SpellsBorg word.now reach → result ≡ Some reach }
{
    let Some((letter, number)) = word.split_last() else {
        return None;
    };
    let Some(unit) = borg_unit(*letter) else {
        return None;
    };
    let Some(count) = read_some(number) else {
        return None;
    };
    let Some(seconds) = count.checked_mul(unit) else {
        return None;
    };
    Some(Reach { months: 0, seconds })
}

// The seconds of the unit that a letter means to borg.
fn borg_unit(letter: u8) -> Option<u64>
    ensures { result ≡ borg_unit letter }
{
    match letter {
        b'H' => Some(3_600),
        b'd' => Some(86_400),
        b'w' => Some(604_800),
        b'm' => Some(2_678_400),
        b'y' => Some(31_536_000),
        _ => None,
    }
}
