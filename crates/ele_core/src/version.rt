//! The events that make a version of given bytes or of an older one, and that set the policy of a
//! file.
ghost use Rattle.ele_events.specs.Does.{Does, done};
ghost use Rattle.ele_policy.specs.Policy.{IsPolicy};
ghost use Rattle.ele_model.specs.declared.event.Event.TheVariants as event;
ghost use Rattle.ele_model.specs.declared.reply.Reply.TheVariants.{Version};

use crate::Core;
use ele_events::Halt;
use ele_model::{ByteList, Moment, Path, Policy, VersionNo};

impl Core {
    /// Makes a new version of the file at the path with these bytes, without a handle, and returns
    /// its number. Where nothing stands at the path, it makes the file, with an empty first version
    /// before that one, so that it returns 2. Refused: `IsRoot`, `NoEntry`, `NotDirectory`,
    /// `IsDirectory`, `TooBig`, `Drafting`, `Full`.
    /// Cost: grows with the path's names, the blocks of 512 bytes that it writes, which take memory,
    /// the file's groups, and the logarithms of files, versions, drafts and queued keys; a new file
    /// also costs what `create` does.
    #[tactic(auto, using(crate::proofs::Reached::does))]
    pub fn save(&mut self, path: &Path, bytes: &ByteList) -> Result<VersionNo, Halt>
        ensures { Does Version self.old.world (event.Save path.now bytes.now) result self.new.world }
    {
        ele_events::save(&mut self.state, path, bytes)
    }

    /// Makes a new version of the file at the path, with the content of the version of that number,
    /// and returns its number. Refused: as `open_write`, `NoVersion`, `Forgotten`, `Drafting`.
    /// Cost: grows with the path's names, the file's groups, the logarithms of files, versions,
    /// drafts and queued keys, and a count for each 8 KiB. Its memory is one version, which grows
    /// with the content by 4 bytes for each 8 KiB.
    #[tactic(auto, using(crate::proofs::Reached::does))]
    pub fn revert(&mut self, path: &Path, number: VersionNo) -> Result<VersionNo, Halt>
        ensures { Does Version self.old.world (event.Revert path.now number) result self.new.world }
    {
        ele_events::revert(&mut self.state, path, number)
    }

    /// Makes what the path held at the moment the newest version of the file at the path, and
    /// returns its number. A file that had another name then is found by its own versions. Where
    /// nothing stands at the path, the file of that version has the name again if it has no other
    /// one; else a new file is made, with an empty first version and then that content. Refused:
    /// as `open_read` at the moment, `IsRoot`, `Drafting`.
    /// Cost: that of `revert`, and of a look-up of the path at the moment, which also grows with the
    /// logarithms of older name rows. The content of another file's version is copied, and costs
    /// what `save` takes for so many bytes; a name that comes back costs what `undelete` takes.
    #[tactic(auto, using(crate::proofs::Reached::does))]
    pub fn restore(&mut self, path: &Path, moment: Moment) -> Result<VersionNo, Halt>
        ensures { Does Version
            self.old.world (event.Restore path.now moment) result self.new.world }
    {
        ele_events::restore(&mut self.state, path, moment)
    }

    /// Sets the policy of the file at the path, for all its versions. Refused: `NoEntry`,
    /// `NotDirectory`, `IsDirectory`.
    /// Cost: grows with the path's names, and for each version of the file with its blocks, the
    /// file's groups and the logarithms of files, versions and queued keys. Its memory grows with
    /// the file's versions and blocks while it runs, and with the keys that are new.
    #[tactic(auto, using(crate::proofs::Reached::does))]
    pub fn set_policy(&mut self, path: &Path, policy: Policy) -> Result<(), Halt>
        ensures does { Does done
            self.old.world (event.SetPolicy path.now policy) result self.new.world }
        ensures valid { IsPolicy policy }
    {
        ele_events::set_policy(&mut self.state, path, policy)
    }
}
