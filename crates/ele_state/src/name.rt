//! New names, moved names and ended names.
ghost use Rattle.std.specs.Prelude.{◌≡◌, ◌<◌, OnOk, OnErr, IfOk, IfSome, None, Some, is_some, false, not};
ghost use Rattle.std.specs.List.{count_by, list_any};
ghost use Rattle.ele_model.specs.Change.{AddName, EndFileName, MoveName, after_change};
ghost use Rattle.ele_model.specs.May.{MayHaveMore};
ghost use Rattle.ele_model.specs.NameRows.{is_live_in, last_dead};
ghost use Rattle.ele_model.specs.Told.{listing};
ghost use Rattle.ele_model.specs.Walk.{live_target};
ghost use Rattle.ele_model.specs.declared.rows.Target.TheVariants.{File};
ghost use Rattle.ele_model.specs.World.{is_live_name_of};
ghost use Rattle.ele_state.specs.Home.{IsHome, IsPresent};
ghost use Rattle.ele_state.specs.Inside.{world_of, IsTracked, IsSound};

use crate::State;
use crate::append::head;
use crate::policy::freed;
use crate::rows::Rows;
use ele_fates::put_changed;
use ele_model::{DirId, FileId, Moment, Name, NameList, NameRow, NoMemory, Target, name_list};
use ele_names::Found;

impl State {
    /// Returns the target of the directory's live name, if there is such a name.
    pub fn live(&self, directory: DirId, name: &Name) -> Option<Target>
        ensures value { result ≡ live_target self.now.world.names directory name.now }
        ensures there { IfSome result (λ target. IsPresent self.now.world target) }
    {
        self.rows.names.live(directory, name)
    }

    /// Returns whether the directory has such a live name.
    pub fn is_taken(&self, directory: DirId, name: &Name) -> bool
        ensures { result ≡ is_some (live_target self.now.world.names directory name.now) }
    {
        self.rows.names.live(directory, name).is_some()
    }

    /// Returns whether the directory has no live name.
    pub fn is_empty(&self, directory: DirId) -> bool
        ensures { result ≡ not (list_any (is_live_in directory) self.now.world.names) }
    {
        self.rows.names.is_empty(directory)
    }

    /// Returns the directory's names at the moment with their targets, by the bytes of the names.
    ///
    /// `NoMemory` if memory is refused.
    pub fn names_in(&self, directory: DirId, moment: Moment) -> Result<NameList, NoMemory>
        ensures { IfOk result
            (λ names. names ≡ listing self.now.world.names directory moment) }
    {
        let names = self.rows.names.list(directory, moment)?;
        name_list(self.rows.alloc, names.as_slice())
    }

    /// Returns a copy of the rows of names, live and dead, in order of making.
    ///
    /// `NoMemory` if memory is refused.
    pub fn name_rows(&self) -> Result<Vec<NameRow>, NoMemory>
        ensures { IfOk result (λ rows. rows.items ≡ self.now.world.names) }
    {
        self.rows.names.rows()
    }

    /// Returns the target of the newest such name, if that name is dead. No such name is live then.
    pub fn last_dead(&self, directory: DirId, name: &Name) -> Option<Target>
        ensures value { result ≡ last_dead self.now.world.names directory name.now }
        ensures there { IfSome result (λ target. IsPresent self.now.world target) }
        ensures free { IfSome result
            (λ _. live_target self.now.world.names directory name.now ≡ None) }
    {
        self.rows.names.last_dead(directory, name)
    }

    /// Gives the target a new name from now on.
    ///
    /// `NoMemory` if memory is refused; the world stays as it was.
    pub fn add_name(&mut self, directory: DirId, name: Name, target: Target) -> Result<(), NoMemory>
        requires home { IsHome self.old.world directory }
        requires free { is_some (live_target self.old.world.names directory name) ≡ false }
        requires room { self.old.world.made.names < self.old.world.limits.names }
        requires there { IsPresent self.old.world target }
        requires more { MayHaveMore self.old.world target }
        ensures ok { OnOk result
            (self.new.world ≡ after_change self.old.world (AddName directory name target)) }
        ensures err { OnErr result (self.new.world ≡ self.old.world) }
    {
        self.rows
            .names
            .add(directory, name, target, self.rows.moment)?;
        self.rows.made.names += 1;
        Ok(())
    }

    /// Replaces the live name by another name of its target.
    ///
    /// `NoMemory` if memory is refused; the world stays as it was.
    #[tactic(auto, using(crate::proofs::Words::nat_tests, crate::proofs::NewNames::dies_before, crate::proofs::Words::name_stands))]
    pub fn move_name(
        &mut self,
        from: &(DirId, Name),
        to: &(DirId, Name),
        found: &Found,
    ) -> Result<(), NoMemory>
        requires stands { live_target self.old.world.names from.now.0 from.now.1 ≡ Some found.now }
        requires home { IsHome self.old.world to.now.0 }
        requires free { is_some (live_target self.old.world.names to.now.0 to.now.1) ≡ false }
        requires room { self.old.world.made.names < self.old.world.limits.names }
        ensures ok { OnOk result (self.new.world ≡ after_change self.old.world
            (MoveName from.now.0 from.now.1 to.now.0 to.now.1 found.now)) }
        ensures err { OnErr result (self.new.world ≡ self.old.world) }
    {
        // The new name is first, since it may be refused memory.
        self.rows
            .names
            .add(to.0, to.1, found.target(), self.rows.moment)?;
        self.rows
            .names
            .kill_found(from.0, &from.1, found, self.rows.moment);
        self.rows.made.names += 1;
        Ok(())
    }

    /// Ends the file's name. With the last name the current version ends too.
    ///
    /// `NoMemory` if memory is refused; the world stays as it was.
    #[tactic(auto, using(crate::proofs::Words::nat_tests, crate::proofs::Unlinked::others_live))]
    pub fn end_file_name(
        &mut self,
        directory: DirId,
        name: &Name,
        found: &Found,
        file: FileId,
    ) -> Result<(), NoMemory>
        requires { live_target self.old.world.names directory name.now ≡ Some (File file) }
        ensures ok { OnOk result (self.new.world
            ≡ after_change self.old.world (EndFileName directory name.now file)) }
        ensures err { OnErr result (self.new.world ≡ self.old.world) }
    {
        if self.rows.names.names_of(file) == 1 {
            return end_last_name(&mut self.rows, directory, name, found, file);
        }
        self.rows
            .names
            .kill_found(directory, name, found, self.rows.moment);
        Ok(())
    }
}

// Ends the only name of the file and its current version. Without a name the file's rule asks for
// no newer versions, so those that it kept get keys.
#[tactic(auto, using(crate::proofs::Words::nat_tests, crate::proofs::ClosedSteps::past, crate::proofs::Unlinked::name_there, crate::proofs::Unlinked::last_ends, crate::proofs::Unlinked::ended_queue, crate::proofs::Unlinked::ended_book))]
fn end_last_name(
    rows: &mut Rows,
    directory: DirId,
    name: &Name,
    found: &Found,
    file: FileId,
) -> Result<(), NoMemory>
    requires sound { IsSound rows.old }
    requires stands { live_target rows.old.names directory name.now ≡ Some (File file) }
    requires last { count_by (is_live_name_of file) rows.old.names ≡ 1 }
    ensures ok { OnOk result (world_of rows.new
        ≡ after_change (world_of rows.old) (EndFileName directory name.now file)) }
    ensures err { OnErr result (world_of rows.new ≡ world_of rows.old) }
    ensures tracked { IsTracked rows.new }
{
    let head = head(&rows.files, file);
    let asked = head.policy.rule_in(true).newer;
    // The newest version also gets a key, since it is the current one, and ends.
    let changes = freed(rows, file, &head, asked.max(1))?;
    put_changed(&mut rows.queue, &changes)?;
    rows.names.kill_found(directory, name, found, rows.moment);
    rows.files.end_current(file, rows.moment);
    Ok(())
}
