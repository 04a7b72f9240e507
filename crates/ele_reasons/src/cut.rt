//! The first words of a line, or its first word that no line may have. A contract sees words as
//! their bytes.
ghost use Rattle.std.specs.Prelude.{◌≡◌, ◌≤◌, ◌++◌, ◌∷◌, [], map, take, length, true, false, IfOk, IfErr, OnOk, OnErr};
ghost use Rattle.ele_reasons.specs.Reason.{HasUnfit};
ghost use Rattle.ele_script.specs.Words.{words_of, is_worded};

use crate::reasons::Reason;
use arrayvec::ArrayVec;
use ele_script::{LONGEST_LINE, word_end};

// One more word than a command has, so that too many words can be seen.
const FIRST_WORDS: usize = 5;

/// Returns the first words of a line. `Err` names the first word that is empty or has a byte that
/// no word may have.
pub(crate) fn first_words(line: &[u8]) -> Result<ArrayVec<&[u8], FIRST_WORDS>, Reason>
    requires short { length line.now ≤ LONGEST_LINE }
    ensures found { IfOk result
        (λ words. map (λ word. word.now) words.items ≡ take FIRST_WORDS (words_of line.now)) }
    ensures worded { OnOk result (is_worded line.now ≡ true) }
    ensures unfit { IfErr result (HasUnfit (words_of line.now)) }
    ensures unworded { OnErr result (is_worded line.now ≡ false) }
{
    let mut words = ArrayVec::new();
    let mut number = 1;
    let mut rest = line;
    'words: while let Some(at) = word_end(rest) {
        if rest[at] != b' ' {
            return Err(Reason::Byte(number, rest[at]));
        }
        if at == 0 {
            return Err(Reason::Empty(number));
        }
        let (word, behind) = rest.split_at(at);
        keep(word, &mut words);
        number += 1;
        rest = behind.split_at(1).1;
    }
    if rest.is_empty() {
        return Err(Reason::Empty(number));
    }
    keep(rest, &mut words);
    Ok(words)
}

// Adds a word, unless the list is full.
fn keep<'l>(word: &'l [u8], words: &mut ArrayVec<&'l [u8], FIRST_WORDS>)
    ensures { map (λ word. word.now) words.new.items
        ≡ take FIRST_WORDS (map (λ word. word.now) words.old.items ++ word.now ∷ []) }
{
    if !words.is_full() {
        words.push(word);
    }
}
