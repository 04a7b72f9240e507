//! An audit of answers that are plain slices.
//! A contract sees them as lists, a name as a triple.
ghost use Rattle.std.specs.Prelude.{◌≡◌, ◌↔◌, IfOk, IsTrue, map};
ghost use Rattle.std.specs.List.{AllByRecursion};
ghost use Rattle.ele_usage.specs.Sums.{Fits};
ghost use Rattle.ele_model.specs.Restorable.{restorable, triple_of};
ghost use Rattle.ele_model.specs.Scan.{scan};
ghost use Rattle.ele_model.specs.Usage.{usages};

use ele_core::{DirId, Flat, Key, Name, NoMemory, Target, Usage, deleted_names};
use std::alloc::Global;

/// Returns whether these due keys, restorable names and sums of usage are those of the three scans
/// of the world. Each name is a triple of its directory, its name and what it last meant. The usage
/// has a sum for each kind of policy. The caller knows that the sums fit 64 bits, as they do in the
/// world of each core (`laws::usage_fits` of `ele_core`).
///
/// `NoMemory` if memory for the scans or for rows of the names is refused.
pub fn audit(
    alloc: Global,
    due: &[Key],
    names: &[(DirId, Name, Target)],
    usage: &[Usage; 4],
    world: &Flat,
) -> Result<bool, NoMemory>
    requires { AllByRecursion Fits (usages world.now) }
    ensures { IfOk result (λ equal. IsTrue equal ↔ ((due.now ≡ scan world.entry.now)
        × (names.now ≡ map triple_of (restorable world.entry.now))
        × (usage.now ≡ usages world.entry.now))) }
{
    let rows = deleted_names(alloc, names)?;
    ele_model::audit(due, rows.as_slice(), usage, world)
}
