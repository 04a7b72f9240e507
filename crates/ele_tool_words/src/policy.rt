//! Policies in text. A contract sees a word as its bytes and a policy as plain data.
ghost use Rattle.std.specs.Prelude.{◌≡◌, ◌≢◌, ◌++◌, ℕ, List, Some, IfSome, MatchOption};
ghost use Rattle.ele_policy.specs.Floor.{IsFloor};
ghost use Rattle.ele_policy.specs.Interval.{IsInterval};
ghost use Rattle.ele_policy.specs.declared.policy.Policy.{Policy};
ghost use Rattle.ele_tool_words.specs.Parts.{IsLandmarks, IsNamed, IsSafe};
ghost use Rattle.ele_tool_words.specs.PolicyWord.{MeansPolicy};

use crate::rungs::read_rungs;
use crate::safe::safe_numbers;
use ele_policy::{Floor, Interval, Ladder, Policy};

/// The policy that a word means where a person writes it: `one`, `all`, `standard`, `safe:LENGTH`,
/// `safe:LENGTH/FLOOR`, or `landmarks:AGE/WIDTH,..`, whose ages and widths are lengths. None for every other word. It
/// takes no memory.
pub fn read_policy(word: &[u8]) -> Option<Policy>
    ensures found { IfSome result (MeansPolicy word.now) }
    ensures only { (policy : Policy) → MeansPolicy word.now policy → result ≡ Some policy }
{
    if let Some(text) = behind(word, b"safe:") {
        return read_safe(text);
    }
    if let Some(text) = behind(word, b"landmarks:") {
        return read_landmarks(text);
    }
    read_name(word)
}

// What stands behind a prefix of a word.
fn behind<'w>(word: &'w [u8], prefix: &[u8]) -> Option<&'w [u8]>
    ensures { MatchOption result ((text : List ℕ) → word.now ≢ prefix.now ++ text)
        (λ text. word.now ≡ prefix.now ++ text.now) }
{
    word.strip_prefix(prefix)
}

// The policy of a name alone.
fn read_name(word: &[u8]) -> Option<Policy>
    ensures found { IfSome result (IsNamed word.now) }
    ensures only { (policy : Policy) → IsNamed word.now policy → result ≡ Some policy }
{
    if word == b"one".as_slice() {
        return Some(Policy::One);
    }
    if word == b"all".as_slice() {
        return Some(Policy::All);
    }
    if word == b"standard".as_slice() {
        return Some(Policy::Landmarks(Ladder::standard()));
    }
    None
}

// The policy behind `safe:`.
fn read_safe(text: &[u8]) -> Option<Policy>
    ensures found { IfSome result (IsSafe text.now) }
    ensures only { (policy : Policy) → IsSafe text.now policy → result ≡ Some policy }
{
    let Some((seconds, floor)) = safe_numbers(text) else {
        return None;
    };
    safe_of(seconds, floor)
}

// The policy of so many seconds and that floor.
fn safe_of(seconds: u64, floor: u64) -> Option<Policy>
    ensures found { IfSome result
        (λ policy. (policy ≡ Policy.Safe seconds floor) × IsInterval seconds × IsFloor floor) }
    ensures only { IsInterval seconds → IsFloor floor → result ≡ Some (Policy.Safe seconds floor) }
{
    let Ok(interval) = Interval::new(seconds) else {
        return None;
    };
    let Ok(floor) = Floor::new(floor) else {
        return None;
    };
    Some(Policy::Safe(interval, floor))
}

// The policy behind `landmarks:`.
fn read_landmarks(text: &[u8]) -> Option<Policy>
    ensures found { IfSome result (IsLandmarks text.now) }
    ensures only { (policy : Policy) → IsLandmarks text.now policy → result ≡ Some policy }
{
    let Some(rungs) = read_rungs(text) else {
        return None;
    };
    let Ok(ladder) = Ladder::new(rungs.as_slice()) else {
        return None;
    };
    Some(Policy::Landmarks(ladder))
}
