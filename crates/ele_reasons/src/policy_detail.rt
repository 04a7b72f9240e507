//! Which number of a policy is wrong. A contract sees a word as its bytes, and a pair as its two
//! numbers.
ghost use Rattle.std.specs.Prelude.{◌≡◌, ◌<◌, ◌∷◌, [], IfSome, IfNone};
ghost use Rattle.ele_reasons.specs.PolicyDetail.{IsPolicyDetail, is_seconds, ladder_detail, rung_detail, rungs_detail, safe_detail};

use crate::reasons::Detail;
use ele_script::{ladder_pairs, safe_numbers};

// The maximum number of seconds of a policy.
const LONGEST: u64 = 253402300799;

// The maximum floor.
const MOST_VERSIONS: u64 = 16;

/// The detail of a word that is no policy.
pub(crate) fn policy_detail(word: &[u8]) -> Detail
    ensures { IsPolicyDetail word.now result }
{
    if let Some((seconds, floor)) = safe_numbers(word) {
        return safe_detail(seconds, floor);
    }
    match ladder_pairs(word) {
        Some(pairs) => ladder_detail(pairs.as_slice()),
        None => Detail::Other,
    }
}

fn safe_detail(seconds: u64, floor: u64) -> Detail
    ensures { result ≡ safe_detail seconds floor }
{
    if !is_seconds(seconds) {
        Detail::Seconds
    } else if floor > MOST_VERSIONS {
        Detail::Floor
    } else {
        Detail::Other
    }
}

// Whether a policy may have this number of seconds.
fn is_seconds(seconds: u64) -> bool
    ensures { result ≡ is_seconds seconds }
{
    0 < seconds && seconds <= LONGEST
}

fn ladder_detail(pairs: &[(u64, u64)]) -> Detail
    ensures { result ≡ ladder_detail pairs.now }
{
    if pairs.is_empty() || pairs.len() > 8 {
        Detail::Pairs
    } else {
        rungs_detail((0, 1), pairs)
    }
}

// The detail of the first pair that can't follow the one before it.
fn rungs_detail(low: (u64, u64), pairs: &[(u64, u64)]) -> Detail
    requires { 0 < low.1 }
    ensures { result ≡ rungs_detail low pairs.now }
{
    match pairs {
        [] => Detail::Other,
        [high, pairs @ ..] => match rung_detail(low, *high) {
            Some(detail) => detail,
            None => rungs_detail(*high, pairs),
        },
    }
}

// Why the second pair can't follow the first.
fn rung_detail(low: (u64, u64), high: (u64, u64)) -> Option<Detail>
    requires { 0 < low.1 }
    ensures is { result ≡ rung_detail low high }
    ensures wide { IfNone result (0 < high.1) }
{
    let (low_age, low_width) = low;
    let (age, width) = high;
    if !is_seconds(age) || !is_seconds(width) {
        Some(Detail::Seconds)
    } else if age <= low_age {
        Some(Detail::Ages)
    } else if !width.is_multiple_of(low_width) {
        Some(Detail::Widths)
    } else {
        None
    }
}
