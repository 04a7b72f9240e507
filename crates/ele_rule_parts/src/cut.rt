//! A word around a mark. A contract sees a word as its bytes.
ghost use Rattle.std.specs.Prelude.{◌≡◌, None, IfSome, true, false};
ghost use Rattle.std.specs.List.{after_first, before_first, list_any};
ghost use Rattle.ele_rule_parts.specs.Marked.{is_mark};

use memchr::memchr;

/// Returns what precedes the first such mark in a word, and what follows it. None if the word hasn't the mark.
/// It takes no memory.
pub fn cut_at(mark: u8, word: &[u8]) -> Option<(&[u8], &[u8])>
    ensures some { IfSome result (λ parts. list_any (is_mark mark) word.now ≡ true) }
    ensures before { IfSome result (λ parts. parts.0.now ≡ before_first (is_mark mark) word.now) }
    ensures after { IfSome result (λ parts. parts.1.now ≡ after_first (is_mark mark) word.now) }
    ensures none { result ≡ None → list_any (is_mark mark) word.now ≡ false }
{
    let Some(at) = memchr(mark, word) else {
        return None;
    };
    let (front, rest) = word.split_at(at);
    Some((front, rest.split_at(1).1))
}
