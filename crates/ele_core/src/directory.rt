//! The events of directories.
ghost use Rattle.ele_events.specs.Does.{Does, DoesAtOnce, done};
ghost use Rattle.ele_policy.specs.Policy.{IsPolicy};
ghost use Rattle.ele_model.specs.declared.event.Event.TheVariants as event;
ghost use Rattle.ele_model.specs.declared.reply.Reply.TheVariants.{Directory};

use crate::Core;
use ele_events::Halt;
use ele_model::{DirId, Path, Policy, Refusal};

impl Core {
    /// Makes a directory at the path, with the default policy of its parent. Refused: `IsRoot`,
    /// `NoEntry`, `NotDirectory`, `Exists`, `Full`.
    /// Cost: amortized, grows with the path's names, each hashed, and for a reused name the
    /// logarithm of older name rows; takes memory for a name and a directory.
    #[tactic(auto, using(crate::proofs::Reached::does))]
    pub fn make_dir(&mut self, path: &Path) -> Result<DirId, Halt>
        ensures { Does Directory self.old.world (event.MakeDir path.now) result self.new.world }
    {
        ele_events::make_dir(&mut self.state, path)
    }

    /// Deletes the name of the empty directory at the path. Refused: `IsRoot`, `NoEntry`,
    /// `NotDirectory`, `NotEmpty`.
    /// Cost: grows with the path's names, each looked up by hashing.
    #[tactic(auto, using(crate::proofs::Reached::does_at_once))]
    pub fn remove_dir(&mut self, path: &Path) -> Result<(), Refusal>
        ensures { DoesAtOnce done self.old.world (event.RemoveDir path.now) result self.new.world }
    {
        ele_events::remove_dir(&mut self.state, path)
    }

    /// Sets the policy that later files and directories in the directory at the path get. Refused:
    /// `NoEntry`, `NotDirectory`.
    /// Cost: grows with the path's names, each looked up by hashing.
    #[tactic(auto, using(crate::proofs::Reached::does_at_once))]
    pub fn set_default(&mut self, path: &Path, policy: Policy) -> Result<(), Refusal>
        ensures does { DoesAtOnce done
            self.old.world (event.SetDefault path.now policy) result self.new.world }
        ensures valid { IsPolicy policy }
    {
        ele_events::set_default(&mut self.state, path, policy)
    }
}
