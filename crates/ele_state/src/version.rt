//! Versions that are restored or removed, and questions about them.
ghost use Rattle.std.specs.Prelude.{◌≡◌, ◌-◌, ◌<◌, ◌≤◌, ◌∷◌, [], true, false, Some, IfOk, OnOk, OnErr, filter, is_some, length, map};
ghost use Rattle.std.specs.Result.{result_map_both};
ghost use Rattle.ele_content.specs.Content.{longest_content};
ghost use Rattle.ele_model.specs.Change.{Append, DropIdle, Revive, Take, after_change, after_changes, version_cells};
ghost use Rattle.ele_model.specs.FileView.{is_version_of};
ghost use Rattle.ele_model.specs.Scan.{first_due};
ghost use Rattle.ele_model.specs.Step.{cells_by, versions_made};
ghost use Rattle.ele_model.specs.Tagged.{version_at, version_meant};
ghost use Rattle.ele_model.specs.Told.{info_of};
ghost use Rattle.ele_model.specs.Walk.{live_target};
ghost use Rattle.ele_model.specs.World.{has_draft, is_held, is_live, next_of};
ghost use Rattle.ele_state.specs.Home.{IsHome};
ghost use Rattle.ele_state.specs.Told.{found_of};

use crate::State;
use crate::append::{Source, append, head};
use crate::book::{blocks, charge_blocks, one_version};
use crate::file::drop_idle;
use crate::path::file_in;
use crate::policy::freed;
use ele_fates::{take, take_back};
use ele_model::{
    DirId, FileId, Key, Name, NoMemory, Refusal, StampsList, Tag, TaggedPath, Target, VersionInfo,
    VersionNo,
};

impl State {
    /// Returns the file's version that the tag means; without one that is the current version.
    /// Refused: `NoVersion`, `Forgotten`.
    pub fn version_meant(&self, file: FileId, tag: Tag) -> Result<VersionInfo, Refusal>
        requires { 0 < next_of self.now.world.files file }
        ensures { result ≡ result_map_both info_of (λ refusal. refusal)
            (version_meant self.now.world.files self.now.world.versions file tag) }
    {
        self.rows.files.version_meant(file, tag)
    }

    /// Returns the file and the info of the version that the path and its tag mean. Refused: as
    /// `walk_meant`, `IsDirectory`, and as `version_meant`.
    pub fn version_at(&self, tagged: &TaggedPath) -> Result<(FileId, VersionInfo), Refusal>
        ensures value { result ≡ found_of (version_at self.now.world tagged.now) }
        ensures held { IfOk result (λ found. is_held self.now.world found.0 found.1.number ≡ true) }
        ensures cells { IfOk result (λ found. IfOk (version_at self.now.world tagged.now)
            (λ row. version_cells self.now.world found.0 found.1.number ≡ row.cells)) }
    {
        let tag = tagged.tag();
        let file = file_in(self.walk_meant(tagged.path(), tag)?)?;
        let info = self.rows.files.version_meant(file, tag)?;
        Ok((file, info))
    }

    /// Returns the held versions of the file, by number.
    ///
    /// `NoMemory` if memory is refused.
    pub fn versions(&self, file: FileId) -> Result<StampsList, NoMemory>
        ensures { IfOk result (λ rows. rows
            ≡ map info_of (filter (is_version_of file) self.now.world.versions)) }
    {
        self.rows.files.stamps_of_file(file)
    }

    /// Makes a new version of a file without a draft, with the content of the held version of that
    /// number. Returns the new version's number.
    ///
    /// `NoMemory` if memory is refused; the world stays as it was.
    #[tactic(auto, using(crate::proofs::Words::nat_tests))]
    pub fn revert_to(&mut self, file: FileId, number: VersionNo) -> Result<VersionNo, NoMemory>
        requires held { is_held self.old.world file number ≡ true }
        requires undrafted { has_draft self.old.world file ≡ false }
        requires room { versions_made self.old.world < self.old.world.limits.versions }
        ensures number { IfOk result (λ number. number ≡ next_of self.old.world.files file) }
        ensures ok { OnOk result (self.new.world ≡ after_change self.old.world
            (Append file self.old.world.now
            (version_cells self.old.world file number))) }
        ensures err { OnErr result (self.new.world ≡ self.old.world) }
    {
        let head = head(&self.rows.files, file);
        let source = Source::Version(number);
        append(&mut self.rows, file, &head, false, source, &[])
    }

    /// Makes a new version of a file without a draft, with these bytes. Returns the new version's
    /// number.
    ///
    /// `NoMemory` if memory is refused; the world stays as it was.
    #[tactic(auto, using(crate::proofs::Words::nat_tests))]
    pub fn save(&mut self, file: FileId, bytes: &[u8]) -> Result<VersionNo, NoMemory>
        requires there { 0 < next_of self.old.world.files file }
        requires undrafted { has_draft self.old.world file ≡ false }
        requires room { versions_made self.old.world < self.old.world.limits.versions }
        requires short { length bytes.now ≤ longest_content }
        ensures number { IfOk result (λ number. number ≡ next_of self.old.world.files file) }
        ensures ok { OnOk result (self.new.world ≡ after_change self.old.world
            (Append file self.old.world.now
            (cells_by (next_of self.old.world.files file) bytes.now))) }
        ensures err { OnErr result (self.new.world ≡ self.old.world) }
    {
        let head = head(&self.rows.files, file);
        append(&mut self.rows, file, &head, false, Source::Bytes, bytes)
    }

    /// Gives a file without a live name and without a draft a name again, and a new version with
    /// the content of the held version of that number. Returns the new version's number.
    ///
    /// `NoMemory` if memory is refused; the world stays as it was.
    #[tactic(auto, using(crate::proofs::Words::nat_tests))]
    pub fn revive(
        &mut self,
        directory: DirId,
        name: Name,
        file: FileId,
        number: VersionNo,
    ) -> Result<VersionNo, NoMemory>
        requires home { IsHome self.old.world directory }
        requires free { is_some (live_target self.old.world.names directory name) ≡ false }
        requires names { self.old.world.made.names < self.old.world.limits.names }
        requires versions { versions_made self.old.world < self.old.world.limits.versions }
        requires dead { is_live self.old.world file ≡ false }
        requires held { is_held self.old.world file number ≡ true }
        requires undrafted { has_draft self.old.world file ≡ false }
        ensures number { IfOk result (λ number. number ≡ next_of self.old.world.files file) }
        ensures ok { OnOk result (self.new.world
            ≡ after_change self.old.world (Revive directory name file number)) }
        ensures err { OnErr result (self.new.world ≡ self.old.world) }
    {
        let head = head(&self.rows.files, file);
        // With a name the rule asks for newer versions again, and the new version is one of them.
        let asked = head.policy.rule_in(true).newer;
        let gone = freed(&self.rows, file, &head, asked.saturating_sub(1))?;
        // The name is first: its removal takes no memory.
        self.rows
            .names
            .add(directory, name, Target::File(file), self.rows.moment)?;
        let source = Source::Version(number);
        match append(&mut self.rows, file, &head, true, source, &[]) {
            Ok(number) => {
                take_back(&mut self.rows.queue, &gone);
                self.rows.made.names += 1;
                Ok(number)
            }
            Err(refused) => {
                self.rows.names.take_back();
                Err(refused)
            }
        }
    }

    /// Removes the version of the key, which is the first due one. A file without live name,
    /// version and draft is then dropped. It takes no memory, and reads one row.
    #[tactic(auto, using(crate::proofs::Words::nat_tests, crate::proofs::Words::first_is_due, crate::proofs::Words::placed_of, crate::proofs::Removed::held_stays, crate::proofs::Removed::removed_queue))]
    pub fn remove(&mut self, key: &Key)
        requires first { first_due self.old.world ≡ Some key.now }
        requires meter { self.old.rows_read ≡ 0 }
        ensures world { self.new.world ≡ after_changes self.old.world
            (Take key.now.file key.now.number ∷ DropIdle key.now.file ∷ []) }
        ensures read { self.new.rows_read ≡ 1 }
    {
        let before = blocks(&self.rows.files);
        let Some(removed) = self
            .rows
            .files
            .remove_version(key.file, key.number, &mut self.rows.meter)
        else {
            unreachable!()
        };
        // No other key changes, so a clean takes no memory and can't be stopped.
        take(&mut self.rows.queue, key.file, key.number, Some(key.ripe));
        self.rows.book.sub(removed.kind, one_version(removed.bytes));
        charge_blocks(&mut self.rows.book, &self.rows.files, removed.kind, before);
        if removed.was_last {
            drop_idle(&mut self.rows, key.file);
        }
    }
}
