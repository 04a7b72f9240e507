//! Sets of keys for look-ups, and whether keys are different.
//! A contract sees a set as a test.
ghost use Rattle.std.specs.Prelude.{◌≡◌, ◌==◌, ◌↔◌, ℕ, false, IsTrue, IfOk};
ghost use Rattle.std.specs.BTreeSet.{contains};
ghost use Rattle.std.specs.List.{list_any};
ghost use Rattle.std.specs.Ordering.{nat_cmp};
ghost use Rattle.ele_lists.specs.Lists.{AllLater};

use ele_moment::NoMemory;
use std::alloc::Global;
use std::collections::BTreeSet;

/// Returns the numbers as a set.
///
/// `NoMemory` if memory is refused.
pub fn set_of(numbers: &[u64], alloc: Global) -> Result<BTreeSet<u64>, NoMemory>
    ensures { IfOk result (λ set. (q : ℕ) → contains nat_cmp set q
        ≡ list_any (λ n. n == q) numbers.now) }
{
    let mut set = BTreeSet::new(alloc);
    for number in numbers {
        let _new = set.insert(*number)?;
    }
    Ok(set)
}

/// Whether no number is in the list twice.
///
/// `NoMemory` if memory is refused.
pub fn are_different(numbers: &[u64], alloc: Global) -> Result<bool, NoMemory>
    ensures { IfOk result (λ different. IsTrue different
        ↔ AllLater (λ x y. (x == y) ≡ false) numbers.now) }
{
    let mut seen = BTreeSet::new(alloc);
    for at in 0..numbers.len() {
        if !seen.insert(numbers[at])? {
            return Ok(false);
        }
    }
    Ok(true)
}
