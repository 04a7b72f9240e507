//! The events that remove due versions.
ghost use Rattle.std.specs.Prelude.{◌≡◌, false};
ghost use Rattle.ele_core.specs.Stopped.{is_stopped};
ghost use Rattle.ele_events.specs.Does.{removed};
ghost use Rattle.ele_events.specs.Reads.{CleanReads};
ghost use Rattle.ele_model.specs.Pass.{EndsPass};
ghost use Rattle.ele_model.specs.Step.{clean_step};

use crate::Core;
use ele_model::{Key, PassEnd};
use ele_policy::laws;

impl Core {
    /// Removes the first due version, and returns its key. It takes no memory.
    /// Cost: the logarithms of queued keys, files and the file's versions, and the version's
    /// blocks; rarely the file's list of chunks moves. If the file is dropped with its last
    /// version, the time also grows with its deleted names, its groups and the later files.
    pub fn clean_one(&mut self) -> Option<Key>
        ensures step { (removed result, self.new.world) ≡ clean_step self.old.world }
        ensures read { CleanReads (removed result) self.new.rows_read }
    {
        ele_events::clean_one(&mut self.state)
    }

    /// Repeats `clean_one` until nothing is due or as many versions are removed as the budget
    /// allows. It takes no memory, so it always finishes or uses up its budget.
    /// Cost: that of `clean_one` for each version that is removed, and one look at the queue of
    /// keys if nothing is due.
    #[tactic(auto, using(ele_model::proofs::PassEnds::cleaned_none, ele_model::proofs::PassEnds::cleaned_more, ele_model::proofs::PassEnds::pass_finishes))]
    pub fn clean_pass(&mut self, budget: u64) -> PassEnd
        ensures end { EndsPass self.old.world budget result self.new.world }
        ensures unstopped { is_stopped result ≡ false }
    {
        // For the proof: the world is well formed.
        laws::policies_are_lawful();
        let _now = self.now();
        for removed in 0..budget {
            if self.clean_one().is_none() {
                return PassEnd::Finished(removed);
            }
        }
        PassEnd::Budget(budget)
    }
}
