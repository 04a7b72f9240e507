//! One file.
//! A contract sees its number, its policy, its next version's number, and the rows of its log.
ghost use Rattle.std.specs.Prelude.{◌≡◌, ◌<◌, ◌≤◌, ◌+◌, ◌^◌, [], ◌∷◌, ◌++◌, OnOk};
ghost use Rattle.std.specs.List.{AllByRecursion};
ghost use Rattle.std.specs.Option.{ForSome};
ghost use Rattle.ele_files.specs.Adding.{logged};
ghost use Rattle.ele_files.specs.Appending.{IsRowPast, HasRows, HasAppended, ended_rows, next_row};
ghost use Rattle.ele_files.specs.Inside.{IsFileKept};
ghost use Rattle.ele_inode_log.specs.Rows.{EndsInTime, Precedes, last_of};

use ele_blocks::BlockMap;
use ele_inode_log::{InodeLog, Meter, VersionRow};
use ele_model::VersionRow as FlatVersion;
use ele_moment::{FileId, Moment, NoMemory, VersionNo};
use ele_policy::Policy;

/// A new version of a file: its number, and its length in bytes.
#[derive(Clone, Copy)]
pub struct NewVersion {
    pub number: VersionNo,
    pub length: u64,
}

/// A file: its policy, the number that its next version gets, and its held versions.
#[derive(Drop)]
pub struct File {
    pub id: FileId,
    pub next: VersionNo,
    pub log: InodeLog,
    // The policy is last, since it is long: the fields before it stay close together.
    pub policy: Policy,
}

impl File {
    /// Ends the version before the next one, unless it has ended.
    #[tactic(auto, using(std::proofs::lemmas::Bool::Decides::nat_tests, crate::proofs::Endings::can_end, crate::proofs::Endings::no_end, crate::proofs::Endings::last_row, crate::proofs::Words::update_first_same, crate::proofs::Words::update_first_unfound, crate::proofs::Words::all_not_found))]
    pub fn end_before(&mut self, now: Moment)
        requires kept { IsFileKept self.old }
        requires past { AllByRecursion (IsRowPast now) self.old.log.rows }
        ensures ended { HasRows self.old self.new (ended_rows self.old now) }
        ensures room { 1 ≤ self.old.log.spare → 1 ≤ self.new.log.spare }
    {
        if let Some(row) = self.log.get(self.next.before(), &mut Meter::new()) {
            if row.ended.is_none() {
                self.log.end_last(now);
            }
        }
    }

    /// Appends the next version, which closes now, and returns its number and its length. If the
    /// file isn't live, it also ends now. The version before it ends. The caller has reserved the
    /// memory.
    pub fn append(
        &mut self,
        opened: Moment,
        now: Moment,
        is_live: bool,
        cells: BlockMap,
    ) -> NewVersion
        requires kept { IsFileKept self.old }
        requires past { AllByRecursion (IsRowPast now) self.old.log.rows }
        requires numbered { self.old.next < 2 ^ 62 }
        requires room { 1 ≤ self.old.log.spare }
        ensures number { result.number ≡ self.old.next }
        ensures length { result.length ≡ cells.size }
        ensures appended { HasAppended self.old self.new now
            (next_row self.old.next opened now is_live cells) }
    {
        self.end_before(now);
        let (number, length) = (self.next, cells.length());
        let ended = if is_live { None } else { Some(now) };
        let row = VersionRow {
            number,
            opened,
            closed: now,
            ended,
            cells,
        };
        match self.log.append(row) {
            Ok(()) => {}
            Err(_refused) => unreachable!(),
        }
        self.next = number.after();
        NewVersion { number, length }
    }
    /// Appends a version that is given as a row, with the map of its content.
    pub fn push(&mut self, row: &FlatVersion, cells: BlockMap) -> Result<(), NoMemory>
        requires last { ForSome (last_of self.old.log.rows)
            (λ last. Precedes last (logged row.now cells)) }
        requires ends { EndsInTime (logged row.now cells) }
        ensures { OnOk result (HasRows self.old self.new
            (self.old.log.rows ++ logged row.now cells ∷ [])) }
    {
        let row = VersionRow {
            number: row.number,
            opened: row.opened,
            closed: row.closed,
            ended: row.ended,
            cells,
        };
        match self.log.append(row) {
            Ok(()) => Ok(()),
            Err(_refused) => Err(NoMemory),
        }
    }
}
