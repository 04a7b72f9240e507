//! What keeps a world and answers its events: a history, or a core alone.
//! A contract sees the world with the last reply, or the history.
ghost use Rattle.std.specs.Prelude.{◌≡◌};

use crate::said::{Said, explain, record_event};
use ele_history::History;
use ele_model::{Event, Explain, FromFlat, PassEnd, Stop};
use ele_script::Question;
use std::alloc::Global;

/// What keeps a world and answers its events.
pub trait Keep {
    ghost use Rattle.ele_runs.specs.Kept.{Kept, Passes, has_past};
    ghost use Rattle.ele_runs.specs.Said.{Explains, Records, Trims};

    ghost kept: { Self → Kept };

    /// Answers an event, whose reply is kept then, or returns the stop in its place, which changes
    /// nothing.
    fn hear_event(&mut self, event: Event) -> Said
        ensures { Records (kept self.old) event result (kept self.new) };

    /// Removes due versions, at most `budget` of them.
    fn hear_pass(&mut self, budget: u64) -> PassEnd
        ensures { Passes (kept self.old) budget result (kept self.new) };

    /// Folds the history, if there is one. That takes no memory if there is no entry.
    fn hear_trim(&mut self) -> Said
        ensures { Trims (kept self.old) result (kept self.new) };

    /// Answers a question. Without a history that is a fault of the line, if it needs one.
    fn explain(&self, alloc: Global, question: &Question) -> Said
        ensures { Explains (kept self.now) question.now result };

    /// Whether there is a history.
    fn has_history(&self) -> bool
        ensures { result ≡ has_past (kept self.now) };
}

impl<C: Explain + FromFlat> Keep for History<C> {
    ghost use Rattle.ele_runs.specs.Kept.{Recorded};

    ghost kept = { Recorded };

    fn hear_event(&mut self, event: Event) -> Said {
        match record_event(event, self) {
            None => Said::Replied,
            Some(stop) => Said::Stopped(stop),
        }
    }

    fn hear_pass(&mut self, budget: u64) -> PassEnd {
        self.pass(budget)
    }

    fn hear_trim(&mut self) -> Said {
        match self.trim() {
            Ok(count) => Said::Trimmed(count),
            Err(_) => Said::Stopped(Stop::NoMemory),
        }
    }

    fn explain(&self, alloc: Global, question: &Question) -> Said {
        explain(alloc, question, self)
    }

    fn has_history(&self) -> bool {
        true
    }
}
