//! A core explains why a version is held, and which versions will be due. Generic code over the
//! trait sees the core as its flat world.
ghost use Rattle.std.specs.Prelude.{◌≡◌, IfOk, find};
ghost use Rattle.std.specs.Option.{option_map};
ghost use Rattle.ele_model.specs.Why.{IsWhy};
ghost use Rattle.ele_model.specs.World.{is_draft};

use crate::Core;
use ele_model::{
    Explain, Fate, FileId, HandleRow, KeyList, Moment, NameRow, NoMemory, Refusal, TaggedPath,
    VersionNo,
};

impl Core {
    /// Returns what becomes of the version that the path and its tag mean, and why, as `fate` does.
    /// It takes no memory. Refused: `Future`, `NoEntry`, `NotDirectory`, `IsDirectory`,
    /// `NoVersion`, `Forgotten`.
    /// Cost: as `fate`, and grows with the path's names, each looked up by hashing. At a moment
    /// each look-up of a name also grows with the logarithm of older name rows.
    pub fn fate_at(&self, tagged: &TaggedPath) -> Result<Fate, Refusal>
        ensures { IsWhy self.now.world tagged.now result }
    {
        self.state.fate_at(tagged)
    }

    /// Returns the open handles, by number.
    /// Cost: constant time.
    pub fn handles(&self) -> &[HandleRow]
        ensures { result.now ≡ self.now.world.handles }
    {
        self.state.handles()
    }

    /// Returns when the file's draft was opened. None if the file has no draft.
    /// Cost: the logarithm of the drafts.
    pub fn draft_opened(&self, file: FileId) -> Option<Moment>
        ensures { result
            ≡ option_map (λ draft. draft.opened) (find (is_draft file) self.now.world.drafts) }
    {
        self.state.draft_opened(file)
    }

    /// Returns a copy of the rows of names, live and dead, in order of making.
    ///
    /// `NoMemory` if memory is refused.
    /// Cost: grows with the rows, which take memory.
    pub fn name_rows(&self) -> Result<Vec<NameRow>, NoMemory>
        ensures { IfOk result (λ rows. rows.items ≡ self.now.world.names) }
    {
        self.state.name_rows()
    }
}

impl Explain for Core {
    fn fate_at(&self, tagged: &TaggedPath) -> Result<Fate, Refusal> {
        Core::fate_at(self, tagged)
    }

    fn due_by(&self, moment: Moment) -> Result<KeyList, NoMemory> {
        Core::due_by(self, moment)
    }

    fn fate(&self, file: FileId, number: VersionNo) -> Option<Fate> {
        Core::fate(self, file, number)
    }

    fn handles(&self) -> &[HandleRow] {
        Core::handles(self)
    }

    fn draft_opened(&self, file: FileId) -> Option<Moment> {
        Core::draft_opened(self, file)
    }

    fn name_rows(&self) -> Result<Vec<NameRow>, NoMemory> {
        Core::name_rows(self)
    }
}
