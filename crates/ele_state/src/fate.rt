//! What becomes of a held version, and which versions will be due.
ghost use Rattle.std.specs.Prelude.{◌≡◌, ◌≢◌, false, [], IfOk, OnErr, IfSome, IfNone};
ghost use Rattle.ele_model.specs.Change.{Time, after_change};
ghost use Rattle.ele_model.specs.Fate.{HasFate};
ghost use Rattle.ele_model.specs.Scan.{scan};
ghost use Rattle.ele_model.specs.Why.{IsWhy};
ghost use Rattle.ele_model.specs.World.{is_held};
ghost use Rattle.ele_state.specs.Inside.{world_of, IsSound};
ghost use Rattle.ele_state.specs.Queued.{IsInfoOf};

use crate::State;
use crate::rows::Rows;
use ele_fates::{first_mark, free_fate, newer_of};
use ele_model::{
    Fate, FileId, KeyList, ListOf, Moment, NoMemory, Refusal, TaggedPath, VersionInfo, VersionNo,
};

// The fate of the file's held version with this info.
fn fate_of(rows: &Rows, file: FileId, info: &VersionInfo) -> Fate
    requires sound { IsSound rows.now }
    requires held { IsInfoOf rows.now.files file info.now }
    ensures { HasFate (world_of rows.now) file info.now.number result }
{
    let (number, closed) = (info.number, info.closed);
    let Some(ended) = info.ended else {
        return Fate::Current;
    };
    if rows.files.is_open(file, number) {
        return Fate::Open;
    }
    let now = rows.moment;
    let cover = rows.groups.cover(file, closed, Some(ended));
    if let Some((group, mark)) = first_mark(&rows.groups, &cover, file, closed, ended, now) {
        return Fate::Marked { group, mark };
    }
    let is_live = rows.names.is_live(file);
    let Some(beside) = rows.files.beside(file, info, is_live) else {
        unreachable!()
    };
    let next = newer_of(&beside.next);
    free_fate(cover, &beside.case, &next, ended, now)
}

impl State {
    /// Returns what becomes of the version, and why. None if it isn't held. It takes no memory.
    pub fn fate(&self, file: FileId, number: VersionNo) -> Option<Fate>
        ensures some { IfSome result (HasFate self.now.world file number) }
        ensures none { IfNone result (is_held self.now.world file number ≡ false) }
    {
        let info = self.rows.files.info(file, number)?;
        Some(fate_of(&self.rows, file, &info))
    }

    /// Returns what becomes of the version that the path and its tag mean, and why. It takes no
    /// memory. Refused: as `version_at`.
    pub fn fate_at(&self, tagged: &TaggedPath) -> Result<Fate, Refusal>
        ensures { IsWhy self.now.world tagged.now result }
    {
        let (file, info) = self.version_at(tagged)?;
        Ok(fate_of(&self.rows, file, &info))
    }

    /// Returns the keys of the versions that are due at the moment if only the clock moves until
    /// then, in order of removal. For a moment before now these are the keys of versions that are
    /// due now and were ripe by then.
    ///
    /// `NoMemory` if memory is refused. If there is no such version, it takes none.
    pub fn due_by(&self, moment: Moment) -> Result<KeyList, NoMemory>
        ensures keys { IfOk result
            (λ keys. keys ≡ scan (after_change self.now.world (Time moment))) }
        ensures taken { OnErr result
            (scan (after_change self.now.world (Time moment)) ≢ []) }
    {
        if self.first_by(moment).is_none() {
            return Ok(ListOf::new(self.rows.alloc));
        }
        Ok(ListOf::from_vec(self.rows.queue.until(moment)?))
    }
}
