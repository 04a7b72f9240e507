//! New files, and the drop of a file without live name, held version and draft.
ghost use Rattle.std.specs.Prelude.{◌≡◌, ◌<◌, ◌≤◌, ◌+◌, ◌-◌, ◌∷◌, [], IfOk, OnOk, OnErr, is_some, false, true, filter, length, not};
ghost use Rattle.ele_content.specs.Content.{longest_content};
ghost use Rattle.ele_files.specs.Held.{is_bare, without, without_file};
ghost use Rattle.ele_model.specs.Change.{Append, DropIdle, MakeFile, after_change, after_changes};
ghost use Rattle.ele_model.specs.Step.{cells_by, versions_made};
ghost use Rattle.ele_model.specs.Walk.{live_target};
ghost use Rattle.ele_model.specs.World.{default_of, has_draft, is_target_file, policy_for};
ghost use Rattle.ele_policy.specs.declared.policy.Kind.{Kind};
ghost use Rattle.ele_state.specs.Home.{IsHome};
ghost use Rattle.ele_state.specs.Inside.{world_of, IsTracked, IsSound};
ghost use Rattle.ele_state.specs.Tracked.{new_file};
ghost use Rattle.ele_usage.specs.Adding.{plus, IsWithin};
ghost use Rattle.ele_usage.specs.Book.{sums_of};
ghost use Rattle.ele_usage.specs.OnlyAt.{only_at};

use crate::State;
use crate::append::{Source, append, head};
use crate::book::blocks_fit;
use crate::directory::default_in;
use crate::rows::Rows;
use ele_files::Meter;
use ele_model::{DirId, FileId, Name, NoMemory, Target, VersionNo};
use ele_policy::{Floor, Interval, Kind, Policy};
use ele_usage::Usage;

// What a file uses without versions and draft.
const ONE_FILE: Usage = Usage {
    files: 1,
    versions: 0,
    bytes: 0,
    blocks: 0,
};

// What a new file uses.
const NEW_FILE: Usage = Usage {
    versions: 1,
    ..ONE_FILE
};

impl State {
    /// Returns whether the file has a draft.
    pub fn has_draft(&self, file: FileId) -> bool
        ensures { result ≡ has_draft self.now.world file }
    {
        self.rows.files.has_draft(file)
    }

    /// Returns the policy of the file, or one of a day if there is no such file.
    pub fn policy_for(&self, file: FileId) -> Policy
        ensures { result ≡ policy_for self.now.world.files file }
    {
        match self.rows.files.policy_of(file) {
            Some(policy) => policy,
            None => Policy::Safe(Interval::DAY, Floor::NONE),
        }
    }

    /// Makes a file in the directory, with the directory's default policy, its name, and an empty
    /// first version.
    ///
    /// `NoMemory` if memory is refused; the world stays as it was.
    #[tactic(auto, using(crate::proofs::Words::nat_tests, crate::proofs::Bounded::directories_placed, crate::proofs::Bounded::files_before, crate::proofs::Booked::made_fits))]
    pub fn make_file(&mut self, directory: DirId, name: Name) -> Result<FileId, NoMemory>
        requires home { IsHome self.old.world directory }
        requires free { is_some (live_target self.old.world.names directory name) ≡ false }
        requires files { self.old.world.made.files < self.old.world.limits.files }
        requires names { self.old.world.made.names < self.old.world.limits.names }
        requires versions { versions_made self.old.world < self.old.world.limits.versions }
        ensures id { IfOk result (λ id. id ≡ self.old.world.made.files + 1) }
        ensures ok { IfOk result (λ id. self.new.world ≡ after_change self.old.world
            (MakeFile directory name id (default_of self.old.world.directories directory))) }
        ensures err { OnErr result (self.new.world ≡ self.old.world) }
    {
        let id = FileId(self.rows.made.files + 1);
        let policy = default_in(&self.rows.directories, directory);
        blocks_fit(&self.rows.files);
        self.rows
            .names
            .add(directory, name, Target::File(id), self.rows.moment)?;
        if let Err(refused) = self.rows.files.add(id, policy, self.rows.moment) {
            // This deletes the name again: it is the file's only one.
            self.rows.names.drop_file(id);
            return Err(refused);
        }
        self.rows.book.add(policy.kind(), NEW_FILE);
        self.rows.made.files += 1;
        self.rows.made.names += 1;
        self.rows.made.versions += 1;
        Ok(id)
    }
}

impl State {
    /// Makes a file as `make_file` does, and at once its second version, with these bytes. Returns
    /// that version's number.
    ///
    /// `NoMemory` if memory is refused; the world stays as it was.
    #[tactic(auto, using(crate::proofs::Words::nat_tests, crate::proofs::Bounded::directories_placed))]
    pub fn make_saved(
        &mut self,
        directory: DirId,
        name: Name,
        bytes: &[u8],
    ) -> Result<VersionNo, NoMemory>
        requires home { IsHome self.old.world directory }
        requires free { is_some (live_target self.old.world.names directory name) ≡ false }
        requires files { self.old.world.made.files < self.old.world.limits.files }
        requires names { self.old.world.made.names < self.old.world.limits.names }
        requires versions { versions_made self.old.world + 1 < self.old.world.limits.versions }
        requires short { length bytes.now ≤ longest_content }
        ensures number { IfOk result (λ number. number ≡ 2) }
        ensures ok { let id = self.old.world.made.files + 1 in
            let policy = default_of self.old.world.directories directory in
            OnOk result (self.new.world ≡ after_changes self.old.world
            (MakeFile directory name id policy
            ∷ Append id self.old.world.now (cells_by 2 bytes.now) ∷ [])) }
        ensures err { OnErr result (self.new.world ≡ self.old.world) }
    {
        let kind = default_in(&self.rows.directories, directory).kind();
        let id = self.make_file(directory, name)?;
        let head = head(&self.rows.files, id);
        match append(&mut self.rows, id, &head, false, Source::Bytes, bytes) {
            Ok(number) => Ok(number),
            Err(refused) => {
                unmake(&mut self.rows, id, kind);
                Err(refused)
            }
        }
    }
}

// Removes the file that was made last, with its name and its first version, which is empty, and
// takes back the counts. No other name is the file's.
fn unmake(rows: &mut Rows, id: FileId, kind: Kind)
    requires bare { is_bare (without rows.old.files id 1) id ≡ true }
    requires within { IsWithin new_file (sums_of rows.old.book kind) }
    requires files { 1 ≤ rows.old.made.files }
    requires names { 1 ≤ rows.old.made.names }
    requires versions { 1 ≤ rows.old.made.versions }
    ensures rows { rows.new ≡ record rows.old {
      files = without_file (without rows.old.files id 1) id;
      names = filter (λ row. not (is_target_file id row.target)) rows.old.names;
      book = rows.new.book;
      made = record rows.old.made {
        files = rows.old.made.files - 1;
        names = rows.old.made.names - 1;
        versions = rows.old.made.versions - 1;
      };
    } }
    ensures book { (k : Kind) → plus (sums_of rows.new.book k) (only_at kind new_file k)
        ≡ sums_of rows.old.book k }
{
    let _first = rows
        .files
        .remove_version(id, VersionNo(1), &mut Meter::new());
    rows.files.drop_file(id);
    rows.names.drop_file(id);
    rows.book.sub(kind, NEW_FILE);
    rows.made.files -= 1;
    rows.made.names -= 1;
    rows.made.versions -= 1;
}

// Drops the file with its deleted names and its memberships, if it has no live name, no held
// version and no draft.
#[tactic(auto, using(crate::proofs::Words::nat_tests, crate::proofs::DroppedFiles::absent_stays, crate::proofs::DroppedFiles::dropped_within))]
pub fn drop_idle(rows: &mut Rows, file: FileId)
    requires { IsSound rows.old }
    ensures world { world_of rows.new ≡ after_change (world_of rows.old) (DropIdle file) }
    ensures tracked { IsTracked rows.new }
    ensures read { rows.new.meter ≡ rows.old.meter }
{
    if rows.names.is_live(file) || !rows.files.is_bare(file) {
        return;
    }
    let Some(policy) = rows.files.policy_of(file) else {
        return;
    };
    rows.files.drop_file(file);
    rows.names.drop_file(file);
    rows.groups.forget_file(file);
    rows.book.sub(policy.kind(), ONE_FILE);
}
