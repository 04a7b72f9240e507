//! A word around its slash. A contract sees a word as its bytes.
ghost use Rattle.std.specs.Prelude.{◌≡◌, ◌≢◌, None, IfSome, true, false};
ghost use Rattle.std.specs.List.{after_first, before_first, list_any};
ghost use Rattle.ele_tool_words.specs.PolicyWord.{is_slash};

use memchr::memchr;

/// What stands before the first slash of a word and what stands behind it. None if it has no slash.
pub(crate) fn cut_at_slash(word: &[u8]) -> Option<(&[u8], &[u8])>
    ensures some { IfSome result (λ parts. list_any is_slash word.now ≡ true) }
    ensures before { IfSome result (λ parts. parts.0.now ≡ before_first is_slash word.now) }
    ensures behind { IfSome result (λ parts. parts.1.now ≡ after_first is_slash word.now) }
    ensures none { result ≡ None → list_any is_slash word.now ≡ false }
{
    let Some(at) = memchr(b'/', word) else {
        return None;
    };
    let (front, rest) = word.split_at(at);
    Some((front, rest.split_at(1).1))
}
