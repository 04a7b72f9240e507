//! Worlds that explain why a version is held, and which versions will be due. A contract sees one
//! as its flat world.
ghost use Rattle.std.specs.Prelude.{◌≡◌, ◌≢◌, [], IfOk, OnErr};

use crate::fate::Fate;
use crate::list::KeyList;
use crate::refusal::Refusal;
use crate::rows::{HandleRow, NameRow};
use crate::step::Step;
use ele_moment::{FileId, Moment, NoMemory, VersionNo};
use ele_path::TaggedPath;

/// A world that events change, and that explains its rows: why a version is held, what will be due,
/// and what is open. No call changes anything.
pub trait Explain: Step {
    ghost use Rattle.ele_model.specs.Change.{Time, after_change};
    ghost use Rattle.std.specs.Prelude.{false, IfNone, IfSome, find};
    ghost use Rattle.std.specs.Option.{option_map};
    ghost use Rattle.ele_model.specs.Fate.{HasFate};
    ghost use Rattle.ele_model.specs.Scan.{scan};
    ghost use Rattle.ele_model.specs.Why.{IsWhy};
    ghost use Rattle.ele_model.specs.World.{is_draft, is_held};

    /// Returns what becomes of the version that the path and its tag mean, and why. It takes no
    /// memory. Refused: `Future`, `NoEntry`, `NotDirectory`, `IsDirectory`, `NoVersion`,
    /// `Forgotten`.
    fn fate_at(&self, tagged: &TaggedPath) -> Result<Fate, Refusal>
        ensures { IsWhy (Self.world self.now) tagged.now result };

    /// Returns the keys of the versions that are due at the moment if only the clock moves until
    /// then, in order of removal.
    ///
    /// `NoMemory` if memory is refused. If there is no such version, it takes none.
    fn due_by(&self, moment: Moment) -> Result<KeyList, NoMemory>
        ensures keys { IfOk result
            (λ keys. keys ≡ scan (after_change (Self.world self.now) (Time moment))) }
        ensures taken { OnErr result
            (scan (after_change (Self.world self.now) (Time moment)) ≢ []) };

    /// Returns what becomes of the file's version of that number, and why. None if the version isn't held. It takes no memory.
    fn fate(&self, file: FileId, number: VersionNo) -> Option<Fate>
        ensures some { IfSome result (HasFate (Self.world self.now) file number) }
        ensures none { IfNone result (is_held (Self.world self.now) file number ≡ false) };

    /// Returns the open handles, by number.
    fn handles(&self) -> &[HandleRow]
        ensures { result.now ≡ (Self.world self.now).handles };

    /// Returns when the file's draft was opened. None if the file has no draft.
    fn draft_opened(&self, file: FileId) -> Option<Moment>
        ensures { result
            ≡ option_map (λ draft. draft.opened) (find (is_draft file) (Self.world self.now).drafts) };

    /// Returns a copy of the rows of names, live and dead, in order of making.
    ///
    /// `NoMemory` if memory is refused.
    fn name_rows(&self) -> Result<Vec<NameRow>, NoMemory>
        ensures { IfOk result (λ rows. rows.items ≡ (Self.world self.now).names) };
}
