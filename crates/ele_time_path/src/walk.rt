//! Walks of paths, now or at an earlier moment.
//! A contract sees the names as their rows, and a walk as `ele_model` defines it.
ghost use Rattle.std.specs.Prelude.{◌≡◌};
ghost use Rattle.std.specs.Result.{ForErr, result_map_both};
ghost use Rattle.ele_model.specs.Walk.{parent_now, walk_now};
ghost use Rattle.ele_model.specs.WalkAt.{walk_at};
ghost use Rattle.ele_time_path.specs.Faults.{IsOfWalk, refusal_of};

use crate::fault::WalkFault;
use crate::listed::Path;
use ele_model::{Refusal, Target};
use ele_moment::{DirId, Moment, Name};
use ele_names::Names;

/// Returns what the path leads to by the live names.
///
/// `NoEntry` if one of its names isn't live, `NotDirectory` if a name follows a file.
#[tactic(auto, using(crate::proofs::Walks::walk_refuses))]
pub fn resolve_now(names: &Names, path: &Path) -> Result<Target, WalkFault>
    ensures { result_map_both (λ target. target) refusal_of result
        ≡ walk_now names.now path.now }
{
    with_fault(ele_names::resolve_now(names, path.kept()))
}

/// Returns what the path led to at the moment `t`.
///
/// `Future` if `t` is later than `now`; `NoEntry` if one of its names meant nothing then,
/// `NotDirectory` if a name follows the name of a file.
#[tactic(auto, using(crate::proofs::Walks::walk_at_refuses))]
pub fn resolve_at(names: &Names, path: &Path, t: Moment, now: Moment) -> Result<Target, WalkFault>
    ensures { result_map_both (λ target. target) refusal_of result
        ≡ walk_at names.now t now path.now }
{
    with_fault(ele_names::resolve_at(names, path.kept(), t, now))
}

/// Returns the directory of the path's last name, and that name, which may be free.
///
/// `IsRoot` if the path has no name; `NoEntry` if one of the names before the last isn't live,
/// `NotDirectory` if one of them is a file's.
#[tactic(auto, using(crate::proofs::Walks::parent_refuses))]
pub fn parent_now(names: &Names, path: &Path) -> Result<(DirId, Name), WalkFault>
    ensures { result_map_both (λ at. at) refusal_of result ≡ parent_now names.now path.now }
{
    with_fault(ele_names::parent_now(names, path.kept()))
}

// The same result, with the fault that the refusal is.
fn with_fault<T>(walked: Result<T, Refusal>) -> Result<T, WalkFault>
    requires { ForErr walked IsOfWalk }
    ensures { result_map_both (λ value. value) refusal_of result ≡ walked }
{
    match walked {
        Ok(value) => Ok(value),
        Err(refusal) => Err(fault_of(refusal)),
    }
}

// The fault that the refusal is.
fn fault_of(refusal: Refusal) -> WalkFault
    requires { IsOfWalk refusal }
    ensures { refusal_of result ≡ refusal }
{
    match refusal {
        Refusal::Future => WalkFault::Future,
        Refusal::IsRoot => WalkFault::IsRoot,
        Refusal::NoEntry => WalkFault::NoEntry,
        Refusal::NotDirectory => WalkFault::NotDirectory,
        _ => unreachable!(),
    }
}
