//! Readers of the pairs of a ladder. A contract sees a pair as its two numbers.
ghost use Rattle.std.specs.Prelude.{◌≡◌, ◌==◌, List, IfSome, IfNone};
ghost use Rattle.std.specs.List.{position};
ghost use Rattle.ele_policy.specs.Ladder.{Rung};
ghost use Rattle.ele_script.specs.KeptPairs.{KeepsLadder, KeepsPairs};
ghost use Rattle.ele_script.specs.PolicyWord.{IsLadderWord, SpellsPair, SpellsPairs};

use arrayvec::ArrayVec;
use ele_moment::read_number;

// One more than a ladder may have, so that too many pairs can be seen.
const MOST_PAIRS: usize = 9;

/// Returns the first nine pairs of a word of the form `landmarks:AGE/WIDTH,..`, and `None` for any
/// other word. They may be those of no ladder.
pub fn ladder_pairs(word: &[u8]) -> Option<ArrayVec<(u64, u64), MOST_PAIRS>>
    ensures some { IfSome result (λ pairs. KeepsLadder word.now pairs.items) }
    ensures none { IfNone result ((pairs : List Rung) → ¬ IsLadderWord word.now pairs) }
{
    read_pairs(word.strip_prefix(b"landmarks:")?)
}

// Reads pairs with a comma between each two, and keeps the first nine.
fn read_pairs(text: &[u8]) -> Option<ArrayVec<(u64, u64), MOST_PAIRS>>
    ensures some { IfSome result (λ pairs. KeepsPairs text.now pairs.items) }
    ensures none { IfNone result ((pairs : List Rung) → ¬ SpellsPairs text.now pairs) }
{
    let mut pairs = ArrayVec::new();
    if text.is_empty() {
        return Some(pairs);
    }
    for part in text.split(|byte| *byte == b',') {
        let pair = read_pair(part)?;
        if !pairs.is_full() {
            pairs.push(pair);
        }
    }
    Some(pairs)
}

// Reads two numbers with a slash between them.
pub(crate) fn read_pair(word: &[u8]) -> Option<(u64, u64)>
    ensures some { IfSome result (SpellsPair word.now) }
    ensures none { IfNone result ((pair : Rung) → ¬ SpellsPair word.now pair) }
{
    let (age, behind) = word.split_at(slash_in(word)?);
    Some((read_number(age)?, read_number(behind.split_at(1).1)?))
}

fn slash_in(word: &[u8]) -> Option<usize>
    ensures { result ≡ position (λ byte. byte == 47) word.now }
{
    word.iter().position(|byte| *byte == b'/')
}
