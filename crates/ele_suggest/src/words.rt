//! Spans in text. A contract sees a word as its bytes, and a span as plain data.
ghost use Rattle.std.specs.Prelude.{◌≡◌, List, Some, IfSome, IfNone};
ghost use Rattle.ele_suggest.specs.Words.{SpellsSpan, SpellsSpans, grain_of};
ghost use Rattle.ele_suggest.specs.declared.grain.Span.{Span};

use crate::asked::MOST_SPANS;
use crate::cut::cut_at_colon;
use crate::grain::{Grain, Span};
use arrayvec::ArrayVec;
use ele_tool_words::read_length;

/// Returns the spans that a text spells, as `7d:all,90d:daily,5y:monthly`: one to eight of them, each with its age, a colon
/// and its periods, which are `all`, `hourly`, `daily`, `weekly`, `monthly` or `yearly`. None for every other text. It takes
/// no memory.
pub fn read_spans(text: &[u8]) -> Option<ArrayVec<Span, MOST_SPANS>>
    ensures some { IfSome result (λ spans. SpellsSpans text.now spans.items) }
    ensures none { IfNone result ((spans : List Span) → SpellsSpans text.now spans → ⊥) }
{
    let mut spans = ArrayVec::new();
    for part in text.split(|byte| *byte == b',') {
        let Some(span) = read_span(part) else {
            return None;
        };
        if spans.is_full() {
            return None;
        }
        spans.push(span);
    }
    Some(spans)
}

// The span that a word spells.
fn read_span(word: &[u8]) -> Option<Span>
    ensures found { IfSome result (SpellsSpan word.now) }
    ensures only { (span : Span) → SpellsSpan word.now span → result ≡ Some span }
{
    let Some((age, grain)) = cut_at_colon(word) else {
        return None;
    };
    let Some(age) = read_length(age) else {
        return None;
    };
    let Some(grain) = grain_of(grain) else {
        return None;
    };
    Some(Span { age, grain })
}

// The periods that a word names.
fn grain_of(word: &[u8]) -> Option<Grain>
    ensures { result ≡ grain_of word.now }
{
    if word == b"all".as_slice() {
        Some(Grain::Each)
    } else if word == b"hourly".as_slice() {
        Some(Grain::Hour)
    } else if word == b"daily".as_slice() {
        Some(Grain::Day)
    } else if word == b"weekly".as_slice() {
        Some(Grain::Week)
    } else if word == b"monthly".as_slice() {
        Some(Grain::Month)
    } else if word == b"yearly".as_slice() {
        Some(Grain::Year)
    } else {
        None
    }
}
