//! Why a word is no policy. A contract sees a word as its bytes, and a pair as its two numbers.
ghost use Rattle.std.specs.Prelude.{◌≡◌, ◌≢◌, ◌<◌, ◌++◌, ℕ, List, IfNone, MatchOption};
ghost use Rattle.ele_typed_words.specs.Reason.{IsLadderReason, IsPolicyReason, IsSafeReason, begins_month, has_month, is_many, is_seconds, rung_reason, rungs_reason, safe_reason, unread_reason};

use ele_tool_words::{read_rungs, safe_numbers};

// The most seconds that a policy has.
const LONGEST: u64 = 253_402_300_799;

// The largest floor.
const MOST_VERSIONS: u64 = 16;

/// Why a word is no policy.
#[derive(Clone, Copy, Debug, PartialEq, Eq)]
pub enum PolicyReason {
    /// A length is in months, which have no length.
    Month,
    /// A length is 0, or longer than from the first moment to the last.
    Seconds,
    /// The floor is too large.
    Floor,
    /// A ladder has more than eight pairs.
    Pairs,
    /// An age isn't greater than the one before it.
    Ages,
    /// A width doesn't divide the next.
    Widths,
    /// It doesn't have the form of a policy, or nothing of it is wrong.
    Form,
}

/// Returns why a word is no policy. It takes no memory.
pub fn policy_reason(word: &[u8]) -> PolicyReason
    ensures { IsPolicyReason word.now result }
{
    if has_month(word) {
        return PolicyReason::Month;
    }
    if let Some(text) = behind(word, b"safe:") {
        return safe_text_reason(text);
    }
    match behind(word, b"landmarks:") {
        Some(text) => ladder_text_reason(text),
        None => PolicyReason::Form,
    }
}

// What stands behind a prefix of a word.
fn behind<'w>(word: &'w [u8], prefix: &[u8]) -> Option<&'w [u8]>
    ensures { MatchOption result ((text : List ℕ) → word.now ≢ prefix.now ++ text)
        (λ text. word.now ≡ prefix.now ++ text.now) }
{
    word.strip_prefix(prefix)
}

// Whether some length of a word is in months.
fn has_month(word: &[u8]) -> bool
    ensures { result ≡ has_month word.now }
{
    let mut rest = word;
    'bytes: while let [_, more @ ..] = rest {
        if begins_month(rest) {
            return true;
        }
        rest = more;
    }
    false
}

// Whether a word begins with a digit and the unit of months.
fn begins_month(word: &[u8]) -> bool
    ensures { result ≡ begins_month word.now }
{
    match word {
        [digit, b'm', b'o', ..] => *digit >= b'0' && *digit <= b'9',
        _ => false,
    }
}

// Why the text behind `safe:` is that of no policy.
fn safe_text_reason(text: &[u8]) -> PolicyReason
    ensures { IsSafeReason text.now result }
{
    match safe_numbers(text) {
        Some((seconds, floor)) => safe_reason(seconds, floor),
        None => PolicyReason::Form,
    }
}

fn safe_reason(seconds: u64, floor: u64) -> PolicyReason
    ensures { result ≡ safe_reason seconds floor }
{
    if !is_seconds(seconds) {
        PolicyReason::Seconds
    } else if floor > MOST_VERSIONS {
        PolicyReason::Floor
    } else {
        PolicyReason::Form
    }
}

// Whether a policy may have this number of seconds.
fn is_seconds(seconds: u64) -> bool
    ensures { result ≡ is_seconds seconds }
{
    0 < seconds && seconds <= LONGEST
}

// Why the text behind `landmarks:` is that of no policy.
fn ladder_text_reason(text: &[u8]) -> PolicyReason
    ensures { IsLadderReason text.now result }
{
    match read_rungs(text) {
        Some(rungs) => rungs_reason((0, 1), rungs.as_slice()),
        None => unread_reason(text),
    }
}

// Why a text spells no pairs of a ladder.
fn unread_reason(text: &[u8]) -> PolicyReason
    ensures { result ≡ unread_reason text.now }
{
    if is_many(text) {
        PolicyReason::Pairs
    } else {
        PolicyReason::Form
    }
}

// Whether there are commas for more than eight pairs.
fn is_many(text: &[u8]) -> bool
    ensures { result ≡ is_many text.now }
{
    text.iter().filter(|byte| **byte == b',').count() > 7
}

// The reason of the first pair that can't follow the one before it.
fn rungs_reason(low: (u64, u64), pairs: &[(u64, u64)]) -> PolicyReason
    requires { 0 < low.1 }
    ensures { result ≡ rungs_reason low pairs.now }
{
    match pairs {
        [] => PolicyReason::Form,
        [high, pairs @ ..] => match rung_reason(low, *high) {
            Some(reason) => reason,
            None => rungs_reason(*high, pairs),
        },
    }
}

// Why the second pair can't follow the first.
fn rung_reason(low: (u64, u64), high: (u64, u64)) -> Option<PolicyReason>
    requires { 0 < low.1 }
    ensures is { result ≡ rung_reason low high }
    ensures wide { IfNone result (0 < high.1) }
{
    let (low_age, low_width) = low;
    let (age, width) = high;
    if !is_seconds(age) || !is_seconds(width) {
        Some(PolicyReason::Seconds)
    } else if age <= low_age {
        Some(PolicyReason::Ages)
    } else if !width.is_multiple_of(low_width) {
        Some(PolicyReason::Widths)
    } else {
        None
    }
}
