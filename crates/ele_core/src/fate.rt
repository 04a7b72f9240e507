//! Explains what becomes of a held version, and which versions will be due. Neither call changes
//! anything.
ghost use Rattle.std.specs.Prelude.{◌≡◌, ◌≢◌, [], false, IfOk, OnErr, IfSome, IfNone};
ghost use Rattle.ele_model.specs.Change.{Time, after_change};
ghost use Rattle.ele_model.specs.Fate.{HasFate};
ghost use Rattle.ele_model.specs.Scan.{scan};
ghost use Rattle.ele_model.specs.World.{is_held};

use crate::Core;
use ele_model::{Fate, FileId, KeyList, Moment, NoMemory, VersionNo};

impl Core {
    /// Returns what becomes of the version, and why: the first case of `Fate` that holds. None if
    /// the version isn't held. It takes no memory.
    ///
    /// Each held version has exactly one fate (`one_fate` of `ele_world::laws::fate`). The fate is
    /// `Due` exactly if the scan has the version's key (`due_fate`).
    /// Cost: the logarithms of files and versions, and the file's groups with their marks; of a
    /// marked version also all groups, up to the first whose mark covers it.
    pub fn fate(&self, file: FileId, number: VersionNo) -> Option<Fate>
        ensures some { IfSome result (HasFate self.now.world file number) }
        ensures none { IfNone result (is_held self.now.world file number ≡ false) }
    {
        self.state.fate(file, number)
    }

    /// Returns the keys of the versions that are due at the moment if only the clock moves until
    /// then, in order of removal. For a moment before now these are the keys of versions that are
    /// due now and were ripe by then.
    ///
    /// `NoMemory` if memory is refused. If there is no such version, it takes none.
    /// Cost: grows with the keys in the answer, which take memory, and the logarithm of the queued
    /// keys.
    pub fn due_by(&self, moment: Moment) -> Result<KeyList, NoMemory>
        ensures keys { IfOk result
            (λ keys. keys ≡ scan (after_change self.now.world (Time moment))) }
        ensures taken { OnErr result
            (scan (after_change self.now.world (Time moment)) ≢ []) }
    {
        self.state.due_by(moment)
    }
}
