//! Walks of paths, now or at an earlier moment.
ghost use Rattle.std.specs.Prelude.{◌≡◌, ◌<◌, ◌⊎◌, true, Ok, Some, IfOk, IfErr};
ghost use Rattle.ele_names.specs.Stops.{StopsAtPlace};
ghost use Rattle.ele_model.specs.Tagged.{walk_meant, walk_then};
ghost use Rattle.ele_model.specs.Walk.{directory_in, directory_now, file_at, file_now, live_target, parent_now, stands_in, walk_now};
ghost use Rattle.ele_model.specs.WellFormed.{IsThere};
ghost use Rattle.ele_model.specs.World.{is_live, next_of};
ghost use Rattle.ele_state.specs.Home.{IsHome};

use crate::State;
use ele_model::{DirId, FileId, Name, Path, PathAt, Refusal, Tag, Target};
use ele_names::{Found, resolve_at, resolve_now};

/// Returns the target's file. Refused: `IsDirectory`.
pub fn file_in(target: Target) -> Result<FileId, Refusal>
    ensures { result ≡ file_at (Ok target) }
{
    match target {
        Target::File(file) => Ok(file),
        Target::Directory(_) => Err(Refusal::IsDirectory),
    }
}

/// Returns the target's directory. Refused: `NotDirectory`.
pub fn directory_in(target: Target) -> Result<DirId, Refusal>
    ensures { result ≡ directory_in (Ok target) }
{
    match target {
        Target::Directory(directory) => Ok(directory),
        Target::File(_) => Err(Refusal::NotDirectory),
    }
}

impl State {
    /// Returns the directory of the path's last name, and that name. Refused: `IsRoot`, `NoEntry`,
    /// `NotDirectory`.
    #[tactic(auto, using(crate::proofs::Walked::parent_is_home))]
    pub fn parent_now(&self, path: &Path) -> Result<(DirId, Name), Refusal>
        ensures value { result ≡ parent_now self.now.world.names path.now }
        ensures home { IfOk result (λ at. IsHome self.now.world at.0) }
    {
        ele_names::parent_now(&self.rows.names, path)
    }

    /// Returns the directory of the path's last name, and that name, if they are known for another
    /// path. Refused: as `parent_now`.
    #[tactic(auto, using(crate::proofs::Walked::parent_is_home))]
    pub fn parent_beside(
        &self,
        path: &Path,
        other: &Path,
        known: &(DirId, Name),
    ) -> Result<(DirId, Name), Refusal>
        requires { parent_now self.now.world.names other.now ≡ Ok known.now }
        ensures value { result ≡ parent_now self.now.world.names path.now }
        ensures home { IfOk result (λ at. IsHome self.now.world at.0) }
    {
        ele_names::parent_beside(&self.rows.names, path, other, known)
    }

    /// Returns the directory of the path's last name, that name, and its target. It refuses as
    /// `parent_now`, and then as a walk of the whole path.
    #[tactic(auto, using(crate::proofs::NewNames::placed_stands))]
    pub fn placed_now(&self, path: &Path) -> Result<(DirId, Name, Found), Refusal>
        ensures place { IfOk result
            (λ found. parent_now self.now.world.names path.now ≡ Ok (found.0, found.1)) }
        ensures leads { IfOk result
            (λ found. walk_now self.now.world.names path.now ≡ Ok found.2) }
        ensures stands { IfOk result
            (λ found. live_target self.now.world.names found.0 found.1 ≡ Some found.2) }
        ensures refusal { IfErr result (λ refusal.
            (parent_now self.now.world.names path.now ≡ Err refusal)
            ⊎ StopsAtPlace self.now.world.names path.now refusal) }
    {
        ele_names::placed_now(&self.rows.names, path)
    }

    /// Returns the file that the path names. Refused: `NoEntry`, `NotDirectory`, `IsDirectory`.
    #[tactic(auto, using(crate::proofs::Words::nat_tests, crate::proofs::Walked::file_is_there, crate::proofs::Walked::file_is_live))]
    pub fn file_now(&self, path: &Path) -> Result<FileId, Refusal>
        ensures value { result ≡ file_now self.now.world.names path.now }
        ensures there { IfOk result (λ file. 0 < next_of self.now.world.files file) }
        ensures live { IfOk result (λ file. is_live self.now.world file ≡ true) }
    {
        match resolve_now(&self.rows.names, path) {
            Ok(target) => file_in(target),
            Err(refusal) => Err(refusal),
        }
    }

    /// Returns the directory that the path names. Refused: `NoEntry`, `NotDirectory`.
    pub fn directory_now(&self, path: &Path) -> Result<DirId, Refusal>
        ensures { result ≡ directory_now self.now.world.names path.now }
    {
        match resolve_now(&self.rows.names, path) {
            Ok(target) => directory_in(target),
            Err(refusal) => Err(refusal),
        }
    }

    /// Returns what the path leads to by the names of the tag's moment; for a number by the names
    /// of now. Refused: as `walk_then`.
    pub fn walk_meant(&self, path: &Path, tag: Tag) -> Result<Target, Refusal>
        ensures value { result ≡ walk_meant self.now.world path.now tag }
        ensures there { IfOk result (λ target. IsThere self.now.world.files target) }
    {
        match tag {
            Tag::At(moment) => resolve_at(&self.rows.names, path, moment, self.rows.moment),
            Tag::Now => resolve_now(&self.rows.names, path),
            Tag::Number(_) => resolve_now(&self.rows.names, path),
        }
    }

    /// Returns what the path led to at its moment, or leads to now. Refused: `Future` for a moment
    /// after now, `NoEntry`, `NotDirectory`.
    pub fn walk_then(&self, at: &PathAt) -> Result<Target, Refusal>
        ensures { result ≡ walk_then self.now.world at.now }
    {
        match at.moment {
            Some(moment) => resolve_at(&self.rows.names, &at.path, moment, self.rows.moment),
            None => resolve_now(&self.rows.names, &at.path),
        }
    }

    /// Returns whether the path's last name is in the target or below it.
    pub fn stands_in(&self, target: Target, path: &Path) -> bool
        ensures { result ≡ stands_in self.now.world.names target path.now }
    {
        ele_names::stands_in(&self.rows.names, target, path)
    }
}
