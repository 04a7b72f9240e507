//! Passes of a history: clean events in a row, each with its entry.
ghost use Rattle.std.specs.Prelude.{◌≡◌};
ghost use Rattle.ele_history.specs.Clean.{MayClean, is_removed};
ghost use Rattle.ele_history.specs.Past.{world_of};
ghost use Rattle.ele_history.specs.Pass.{MayPass};
ghost use Rattle.ele_model.specs.Pass.{EndsPass};

use crate::{History, laws};
use ele_model::{Event, PassEnd, Reply, Step, Stop};

impl<C: Step> History<C> {
    /// Repeats clean events until nothing is due, or so many versions are removed. Each is an
    /// entry, also the last one, which finds nothing due. A stop ends the pass, and removed
    /// versions stay removed. The world is as after a core's pass with the same end.
    /// Cost: that of a `record` of a clean for each version that is removed, and of one more if
    /// nothing is due.
    pub fn pass(&mut self, budget: u64) -> PassEnd
        ensures entries { MayPass self.old budget result self.new }
        ensures world { EndsPass (world_of self.old) budget result (world_of self.new) }
    {
        // For the proof: the world is well formed.
        let _now = self.core.now();
        laws::pass_ends();
        self.clean_often(budget)
    }

    // Repeats clean events until nothing is due, so many versions are removed, or an event is
    // stopped.
    fn clean_often(&mut self, budget: u64) -> PassEnd
        ensures { MayPass self.old budget result self.new }
    {
        for removed in 0..budget {
            match self.clean() {
                Ok(true) => {}
                Ok(false) => return PassEnd::Finished(removed),
                Err(stop) => return PassEnd::Stopped(stop, removed),
            }
        }
        PassEnd::Budget(budget)
    }

    // Makes a clean event, and returns whether it removed a version.
    fn clean(&mut self) -> Result<bool, Stop>
        ensures { MayClean self.old result self.new }
    {
        let reply = self.record(Event::CleanOne)?;
        Ok(is_removed(reply))
    }
}

// Whether the reply has a removed version.
fn is_removed(reply: &Reply) -> bool
    ensures { result ≡ is_removed reply.now }
{
    matches!(reply, Reply::Removed(_))
}
