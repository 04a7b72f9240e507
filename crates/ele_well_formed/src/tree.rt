//! The tree of live names: no name means the root, and live names lead from the root to each
//! directory. A contract sees the parts of a world that say so.
ghost use Rattle.std.specs.Prelude.{◌≡◌, ℕ, IfNone, IfSome, IfOk};
ghost use Rattle.std.specs.BTreeMap.{get};
ghost use Rattle.std.specs.List.{AllByRecursion};
ghost use Rattle.std.specs.Ordering.{nat_cmp};
ghost use Rattle.ele_lists.specs.Lists.{AllLater};
ghost use Rattle.ele_model.specs.WellFormed.{AreOthers};
ghost use Rattle.ele_well_formed.specs.Fault.{IsBelow, IsHung};
ghost use Rattle.ele_well_formed.specs.Means.{HasHome, parent_of};
ghost use Rattle.ele_well_formed.specs.Wrong.{IsWrong};

use crate::homes::{directory_of, live_directory_of};
use crate::test::{Test, first_wrong};
use ele_model::{NameRow, NoMemory};
use std::alloc::Global;
use std::collections::{BTreeMap, BTreeSet};

// The test that a name doesn't mean the root.
#[derive(Drop)]
struct BelowTest;

impl Test<NameRow> for BelowTest {
    ghost use Rattle.ele_well_formed.specs.Fault.{IsBelow};

    ghost ready = { λ test. Unit {0} };

    ghost fits = { λ test row. IsBelow row };

    fn fits(&self, row: &NameRow) -> bool {
        directory_of(row) != Some(0)
    }
}

/// Returns the place of a name that means the root.
pub fn root_name(names: &[NameRow]) -> Option<usize>
    ensures none { IfNone result (AllByRecursion IsBelow names.now) }
    ensures some { IfSome result (IsWrong IsBelow names.now) }
{
    first_wrong(names, &BelowTest)
}

// The directories that have live names, with the directories that these names are in.
fn parents(names: &[NameRow], alloc: Global) -> Result<BTreeMap<u64, u64>, NoMemory>
    ensures { IfOk result (λ above. (q : ℕ) → get nat_cmp above q ≡ parent_of names.now q) }
{
    let mut above = BTreeMap::new(alloc);
    for row in names {
        if let Some(id) = live_directory_of(row) {
            let _older = above.insert(id, row.directory.0)?;
        }
    }
    Ok(above)
}

/// Returns the place of a live name in a directory to which no live names lead from the root.
///
/// `NoMemory` if memory is refused.
pub fn cyclic_name(names: &[NameRow], alloc: Global) -> Result<Option<usize>, NoMemory>
    requires homes { AllByRecursion (HasHome names.now) names.now }
    requires others { AllLater AreOthers names.now }
    requires below { AllByRecursion IsBelow names.now }
    ensures none { IfOk result (λ found. IfNone found (AllByRecursion (IsHung names.now) names.now)) }
    ensures some { IfOk result (λ found. IfSome found (IsWrong (IsHung names.now) names.now)) }
{
    // a walk up takes out the directories that it passes, so each is passed once. It ends at the
    // root, or where an earlier walk came by on its way to the root, or goes round
    let mut above = parents(names, alloc)?;
    for at in 0..names.len() {
        let row = names[at];
        if row.death.is_some() {
            continue;
        }
        let mut passed = BTreeSet::new(alloc);
        let mut directory = row.directory.0;
        while let Some(parent) = above.remove(&directory) {
            let _new = passed.insert(directory)?;
            directory = parent;
        }
        if passed.contains(&directory) {
            return Ok(Some(at));
        }
    }
    Ok(None)
}
