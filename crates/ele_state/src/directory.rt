//! Directories and their default policies.
ghost use Rattle.std.specs.Prelude.{◌≡◌, ◌<◌, ◌+◌, IfOk, OnErr, find, is_some, position, false};
ghost use Rattle.std.specs.Option.{option_copied};
ghost use Rattle.ele_lists.specs.Lists.{update_first, AllLater};
ghost use Rattle.ele_policy.specs.Policy.{IsPolicy};
ghost use Rattle.ele_model.specs.Change.{EndName, SetDirectoryDefault, MakeDirectory, after_change, governed_by};
ghost use Rattle.ele_model.specs.May.{MayEnd};
ghost use Rattle.ele_model.specs.Walk.{live_target};
ghost use Rattle.ele_model.specs.World.{default_of, is_directory};
ghost use Rattle.ele_state.specs.Home.{IsHome};

use crate::State;
use ele_model::{DirId, DirectoryRow, Name, NoMemory, Target};
use ele_names::Found;
use ele_policy::{Floor, Interval, Policy};
use ele_rows::place_of;

// The place of the directory's row, by a binary search of the numbers.
fn directory_at(directories: &[DirectoryRow], id: DirId) -> Option<usize>
    requires { AllLater (λ x y. x.id < y.id) directories.now }
    ensures { result ≡ position (is_directory id) directories.now }
{
    match place_of(directories, id.0) {
        Ok(at) => Some(at),
        Err(_gap) => None,
    }
}

// The directory's row.
#[tactic(auto, using(ele_lists::proofs::Places::first_places))]
fn directory_row(directories: &[DirectoryRow], id: DirId) -> Option<&DirectoryRow>
    requires { AllLater (λ x y. x.id < y.id) directories.now }
    ensures { option_copied result ≡ find (is_directory id) directories.now }
{
    let at = directory_at(directories, id)?;
    directories.get(at)
}

// Sets the default policy of the directory.
#[tactic(auto, using(ele_lists::proofs::Places::first_places, crate::proofs::Words::nat_tests, crate::proofs::Words::set_first))]
fn put_default(directories: &mut Vec<DirectoryRow>, directory: DirId, policy: Policy)
    requires { AllLater (λ x y. x.id < y.id) directories.old.items }
    ensures { directories.new.items
        ≡ update_first (is_directory directory) (governed_by policy) directories.old.items }
{
    if let Some(at) = directory_at(directories, directory) {
        let row = &mut directories[at];
        row.default = policy;
    }
}

// The default policy of the directory, or one of a day if there is no such directory.
pub fn default_in(directories: &[DirectoryRow], id: DirId) -> Policy
    requires { AllLater (λ x y. x.id < y.id) directories.now }
    ensures { result ≡ default_of directories.now id }
{
    match directory_row(directories, id) {
        Some(row) => row.default,
        None => Policy::Safe(Interval::DAY, Floor::NONE),
    }
}

impl State {
    /// Returns the default policy of the directory, or one of a day if there is no such directory.
    #[tactic(auto, using(crate::proofs::Words::nat_tests, crate::proofs::Bounded::directories_placed))]
    pub fn default_of(&self, id: DirId) -> Policy
        ensures { result ≡ default_of self.now.world.directories id }
    {
        default_in(&self.rows.directories, id)
    }

    /// Sets the default policy of the directory.
    #[tactic(auto, using(crate::proofs::Words::nat_tests, crate::proofs::Bounded::directories_placed))]
    pub fn set_default(&mut self, directory: DirId, policy: Policy)
        ensures world { self.new.world ≡ after_change self.old.world (SetDirectoryDefault directory policy) }
        ensures valid { IsPolicy policy }
    {
        policy.lemma_valid();
        put_default(&mut self.rows.directories, directory, policy);
    }

    /// Makes a directory in another, with that one's default policy, and its name.
    ///
    /// `NoMemory` if memory is refused; the world stays as it was.
    #[tactic(auto, using(crate::proofs::Words::nat_tests, crate::proofs::Bounded::directories_placed))]
    pub fn make_directory(&mut self, directory: DirId, name: Name) -> Result<DirId, NoMemory>
        requires home { IsHome self.old.world directory }
        requires free { is_some (live_target self.old.world.names directory name) ≡ false }
        requires directories { self.old.world.made.directories
            < self.old.world.limits.directories }
        requires names { self.old.world.made.names < self.old.world.limits.names }
        ensures id { IfOk result (λ id. id ≡ self.old.world.made.directories + 1) }
        ensures ok { IfOk result (λ id. self.new.world ≡ after_change self.old.world
            (MakeDirectory directory name id (default_of self.old.world.directories directory))) }
        ensures err { OnErr result (self.new.world ≡ self.old.world) }
    {
        let id = DirId(self.rows.made.directories + 1);
        let default = default_in(&self.rows.directories, directory);
        self.rows.directories.reserve(1)?;
        self.rows
            .names
            .add(directory, name, Target::Directory(id), self.rows.moment)?;
        self.rows
            .directories
            .push_reserved(DirectoryRow { id, default });
        self.rows.made.directories += 1;
        self.rows.made.names += 1;
        Ok(id)
    }

    /// Ends the name of a directory that has no live name in it.
    pub fn end_name(&mut self, directory: DirId, name: &Name, found: &Found)
        requires { MayEnd self.old.world directory name.now }
        ensures { self.new.world ≡ after_change self.old.world (EndName directory name.now) }
    {
        self.rows
            .names
            .kill_found(directory, name, found, self.rows.moment);
    }
}
