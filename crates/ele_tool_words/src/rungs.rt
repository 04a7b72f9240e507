//! The rungs of a ladder in text. A contract sees a rung as its age and its width.
ghost use Rattle.std.specs.Prelude.{◌≡◌, ◌<◌, List, Some, IfSome, IfNone, length};
ghost use Rattle.ele_policy.specs.Ladder.{Rung};
ghost use Rattle.ele_tool_words.specs.PolicyWord.{SpellsRung, SpellsRungs};

use crate::cut::cut_at_slash;
use crate::length::read_length;
use arrayvec::ArrayVec;

/// So many rungs has the longest ladder.
pub const MOST_RUNGS: usize = 8;

/// The rungs that a text spells, if there are no more than a ladder has.
pub fn read_rungs(text: &[u8]) -> Option<ArrayVec<(u64, u64), MOST_RUNGS>>
    ensures some { IfSome result (λ rungs. SpellsRungs text.now rungs.items) }
    ensures none { IfNone result ((rungs : List Rung) → SpellsRungs text.now rungs → 8 < length rungs) }
{
    let mut rungs = ArrayVec::new();
    for part in text.split(|byte| *byte == b',') {
        let Some(rung) = read_rung(part) else {
            return None;
        };
        if rungs.is_full() {
            return None;
        }
        rungs.push(rung);
    }
    Some(rungs)
}

// The rung that a word spells.
fn read_rung(word: &[u8]) -> Option<(u64, u64)>
    ensures found { IfSome result (SpellsRung word.now) }
    ensures only { (rung : Rung) → SpellsRung word.now rung → result ≡ Some rung }
{
    let Some((age, width)) = cut_at_slash(word) else {
        return None;
    };
    let Some(age) = read_length(age) else {
        return None;
    };
    let Some(width) = read_length(width) else {
        return None;
    };
    Some((age, width))
}
