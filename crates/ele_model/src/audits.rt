//! An audit: a comparison of answers with the scans of plain rows.
ghost use Rattle.std.specs.Prelude.{◌≡◌, ◌↔◌, IfOk, IsTrue};
ghost use Rattle.std.specs.List.{AllByRecursion};
ghost use Rattle.ele_usage.specs.Sums.{Fits};
ghost use Rattle.ele_model.specs.Restorable.{restorable};
ghost use Rattle.ele_model.specs.Scan.{scan};
ghost use Rattle.ele_model.specs.Usage.{usages};

use crate::flat::Flat;
use crate::rows::DeletedName;
use ele_due::Key;
use ele_moment::NoMemory;
use ele_usage::Usage;

// Whether both lists have the same keys.
fn are_same_keys(keys: &[Key], others: &[Key]) -> bool
    ensures { IsTrue result ↔ (keys.now ≡ others.now) }
{
    keys == others
}

// Whether both lists have the same names.
fn are_same_names(names: &[DeletedName], others: &[DeletedName]) -> bool
    ensures { IsTrue result ↔ (names.now ≡ others.now) }
{
    names == others
}

// Whether all sums are the same.
fn are_same_sums(sums: &[Usage; 4], others: &[Usage; 4]) -> bool
    ensures { IsTrue result ↔ (sums.now ≡ others.now) }
{
    sums == others
}

/// Returns whether these due keys, restorable names and sums of usage are those of the three scans
/// of the world. The caller knows that the sums are within 64 bits.
///
/// `NoMemory` if memory for a scan is refused.
/// Cost: that of the three scans of `Flat`, which are `due_keys`, `deleted_names` and `usage`, and of
/// a comparison with each answer.
pub fn audit(
    due: &[Key],
    names: &[DeletedName],
    usage: &[Usage; 4],
    world: &Flat,
) -> Result<bool, NoMemory>
    requires { AllByRecursion Fits (usages world.now) }
    ensures { IfOk result (λ equal. IsTrue equal ↔ ((due.now ≡ scan world.entry.now)
        × (names.now ≡ restorable world.entry.now) × (usage.now ≡ usages world.entry.now))) }
{
    let keys = world.due_keys()?;
    let dead = world.deleted_names()?;
    Ok(
        are_same_keys(due, keys.as_slice())
            && are_same_names(names, dead.as_slice())
            && are_same_sums(usage, &world.usage()),
    )
}
