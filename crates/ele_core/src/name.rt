//! The events that change names of files.
ghost use Rattle.ele_events.specs.Does.{Does, done, revived};
ghost use Rattle.ele_model.specs.declared.event.Event.TheVariants as event;
ghost use Rattle.ele_model.specs.declared.reply.Reply.TheVariants.{File};

use crate::Core;
use ele_events::Halt;
use ele_model::{FileId, Path, VersionNo};

impl Core {
    /// Makes a file at the path, with an empty first version. Refused: `IsRoot`, `NoEntry`,
    /// `NotDirectory`, `Exists`, `Full`.
    /// Cost: amortized, grows with the path's names, each hashed, and for a reused name the
    /// logarithm of older name rows; takes memory for a name, a file and a version.
    #[tactic(auto, using(crate::proofs::Reached::does))]
    pub fn create(&mut self, path: &Path) -> Result<FileId, Halt>
        ensures { Does File self.old.world (event.Create path.now) result self.new.world }
    {
        ele_events::create(&mut self.state, path)
    }

    /// Gives the file at the first path the second path as another name. Refused: as `open_write`
    /// of the first, and as `create`.
    /// Cost: amortized, grows with the names of both paths, each hashed, and for a reused name the
    /// logarithm of older name rows; takes memory for a name.
    #[tactic(auto, using(crate::proofs::Reached::does))]
    pub fn link(&mut self, from: &Path, to: &Path) -> Result<(), Halt>
        ensures { Does done self.old.world (event.Link from.now to.now) result self.new.world }
    {
        ele_events::link(&mut self.state, from, to)
    }

    /// Deletes the name of the file at the path; with the last name the current version ends.
    /// Refused: `IsRoot`, `NoEntry`, `NotDirectory`, `IsDirectory`.
    /// Cost: grows with the path's names, each hashed; a last name also takes, for up to 16
    /// versions, the file's groups and the logarithms of files, versions and queued keys. Its
    /// memory grows with the keys that these versions get.
    #[tactic(auto, using(crate::proofs::Reached::does))]
    pub fn unlink(&mut self, path: &Path) -> Result<(), Halt>
        ensures { Does done self.old.world (event.Unlink path.now) result self.new.world }
    {
        ele_events::unlink(&mut self.state, path)
    }

    /// Moves the file or directory at the first path to the second path. Refused: `IsRoot`,
    /// `NoEntry`, `NotDirectory`, `IntoItself`, `Exists`, `Full`.
    /// Cost: amortized, grows with the names of both paths, each hashed, and for a reused name the
    /// logarithm of older name rows; takes memory for a name.
    #[tactic(auto, using(crate::proofs::Reached::does))]
    pub fn rename(&mut self, from: &Path, to: &Path) -> Result<(), Halt>
        ensures { Does done self.old.world (event.Rename from.now to.now) result self.new.world }
    {
        ele_events::rename(&mut self.state, from, to)
    }

    /// Restores the deleted name at the path, with the file or directory that it last had. A file
    /// without a live name gets a version with the content of its last one, and `undelete` returns
    /// the number of that version. Refused: as `create`, `NotRestorable`, `Drafting`.
    /// Cost: amortized, grows with the path's names and the logarithms of older name rows, files
    /// and versions; takes memory for a name. For a nameless file the time and the memory also grow
    /// with what a `revert` takes, and with up to 15 keys.
    #[tactic(auto, using(crate::proofs::Reached::does))]
    pub fn undelete(&mut self, path: &Path) -> Result<Option<VersionNo>, Halt>
        ensures { Does revived self.old.world (event.Undelete path.now) result self.new.world }
    {
        ele_events::undelete(&mut self.state, path)
    }
}
