//! Walks of paths, now or at an earlier moment.
//! A contract sees the names as their rows, and a walk as `ele_model` defines it.
ghost use Rattle.std.specs.Prelude.{◌≡◌, ◌-◌, ◌⊎◌, Ok, Err, IfOk, IfErr, length, take};
ghost use Rattle.ele_model.specs.Walk.{walk_now, parent_now, comes_through, stands_in};
ghost use Rattle.ele_model.specs.WalkAt.{walk_at, walk_covering};
ghost use Rattle.ele_model.specs.World.{root};
ghost use Rattle.ele_model.specs.declared.rows.Target.TheVariants.{Directory};
ghost use Rattle.ele_names.specs.Stops.{StopsAtPlace};

use crate::found::Found;
use crate::names::Names;
use ele_model::{Refusal, Target};
use ele_moment::{DirId, Moment, Name};
use ele_path::Path;

/// The directory where each path starts.
const ROOT: DirId = DirId(0);

/// Returns what the path names. `NoEntry` if a name isn't there, `NotDirectory` if one follows the
/// name of a file.
pub fn resolve_now(names: &Names, path: &Path) -> Result<Target, Refusal>
    ensures { result ≡ walk_now names.now path.now }
{
    walk(names, path.names())
}

/// Returns what the path named at the moment. `Future` if that is later than now, else as
/// `resolve_now`.
pub fn resolve_at(
    names: &Names,
    path: &Path,
    moment: Moment,
    now: Moment,
) -> Result<Target, Refusal>
    ensures { result ≡ walk_at names.now moment now path.now }
{
    if moment > now {
        return Err(Refusal::Future);
    }
    walk_back(names, path.names(), moment)
}

/// Returns the directory of the path's last name, and that name. `IsRoot` if the path has no name,
/// else as `resolve_now` of the names before the last, which may not lead to a file.
pub fn parent_now(names: &Names, path: &Path) -> Result<(DirId, Name), Refusal>
    ensures { result ≡ parent_now names.now path.now }
{
    let Some(name) = path.last() else {
        return Err(Refusal::IsRoot);
    };
    match walk(names, path.parents())? {
        Target::Directory(directory) => Ok((directory, name)),
        Target::File(_) => Err(Refusal::NotDirectory),
    }
}

/// Returns the directory of the path's last name, and that name, as `parent_now` does, if they are
/// known for another path. If the names before the last are the same in both, it looks up none of
/// them again.
#[tactic(auto, using(crate::proofs::Words::nat_tests, crate::proofs::Leads::beside))]
pub fn parent_beside(
    names: &Names,
    path: &Path,
    other: &Path,
    known: &(DirId, Name),
) -> Result<(DirId, Name), Refusal>
    requires { parent_now names.now other.now ≡ Ok known.now }
    ensures { result ≡ parent_now names.now path.now }
{
    let beside = path.parents() == other.parents();
    match path.last() {
        Some(name) if beside => Ok((known.0, name)),
        _ => parent_now(names, path),
    }
}

/// Returns the directory of the path's last name, that name, and its target. One walk does what
/// `parent_now` and then `resolve_now` do in two. It refuses as the first of them that refuses.
#[tactic(auto, using(crate::proofs::Leads::leads_to, std::proofs::Common::inr, crate::proofs::Leads::stops_at))]
pub fn placed_now(names: &Names, path: &Path) -> Result<(DirId, Name, Found), Refusal>
    ensures place { IfOk result (λ found. parent_now names.now path.now ≡ Ok (found.0, found.1)) }
    ensures leads { IfOk result (λ found. walk_now names.now path.now ≡ Ok found.2) }
    ensures refusal { IfErr result (λ refusal. (parent_now names.now path.now ≡ Err refusal)
        ⊎ StopsAtPlace names.now path.now refusal) }
{
    let (directory, name) = parent_now(names, path)?;
    match names.find(directory, &name) {
        Some(found) => Ok((directory, name, found)),
        None => Err(Refusal::NoEntry),
    }
}

/// Whether the path's last name is in the target or below it: whether the walk of the names before
/// the last passes through that directory. No name is in a file. It takes no memory.
pub fn stands_in(names: &Names, target: Target, path: &Path) -> bool
    ensures { result ≡ stands_in names.now target path.now }
{
    let Target::Directory(directory) = target else {
        return false;
    };
    comes_through(names, directory, path.parents())
}

// Whether the walk of the live names from the root passes through the directory.
fn comes_through(names: &Names, id: DirId, path: ele_path::Names<'_>) -> bool
    ensures { result ≡ comes_through names.now id (Directory root) path.entry }
{
    let mut at = Target::Directory(ROOT);
    for name in path {
        if at == Target::Directory(id) {
            return true;
        }
        let Target::Directory(directory) = at else {
            return false;
        };
        let Some(target) = names.live(directory, &name) else {
            return false;
        };
        at = target;
    }
    at == Target::Directory(id)
}

// Walks along live names from the root.
fn walk(names: &Names, path: ele_path::Names<'_>) -> Result<Target, Refusal>
    ensures { result ≡ walk_now names.now path.entry }
{
    let mut at = Target::Directory(ROOT);
    for name in path {
        let Target::Directory(directory) = at else {
            return Err(Refusal::NotDirectory);
        };
        let Some(target) = names.live(directory, &name) else {
            return Err(Refusal::NoEntry);
        };
        at = target;
    }
    Ok(at)
}

// Walks along names that covered the moment, from the root.
fn walk_back(names: &Names, path: ele_path::Names<'_>, moment: Moment) -> Result<Target, Refusal>
    ensures { result ≡ walk_covering names.now moment (Directory root) path.entry }
{
    let mut at = Target::Directory(ROOT);
    for name in path {
        let Target::Directory(directory) = at else {
            return Err(Refusal::NotDirectory);
        };
        let Some(target) = names.at(directory, &name, moment) else {
            return Err(Refusal::NoEntry);
        };
        at = target;
    }
    Ok(at)
}
