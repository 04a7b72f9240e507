//! A word around its colon. A contract sees a word as its bytes.
ghost use Rattle.std.specs.Prelude.{◌≡◌, None, IfSome, true, false};
ghost use Rattle.std.specs.List.{after_first, before_first, list_any};
ghost use Rattle.ele_suggest.specs.Words.{is_colon};

use memchr::memchr;

/// What precedes the first colon of a word, and what follows it. None if it has none.
pub(crate) fn cut_at_colon(word: &[u8]) -> Option<(&[u8], &[u8])>
    ensures some { IfSome result (λ parts. list_any is_colon word.now ≡ true) }
    ensures before { IfSome result (λ parts. parts.0.now ≡ before_first is_colon word.now) }
    ensures after { IfSome result (λ parts. parts.1.now ≡ after_first is_colon word.now) }
    ensures none { result ≡ None → list_any is_colon word.now ≡ false }
{
    let Some(at) = memchr(b':', word) else {
        return None;
    };
    let (front, rest) = word.split_at(at);
    Some((front, rest.split_at(1).1))
}
