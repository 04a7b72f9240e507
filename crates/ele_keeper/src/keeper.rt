//! The core of a store, alone or in a history. A contract sees it as the state of the store.
ghost use Rattle.std.specs.Prelude.{◌≡◌};
ghost use Rattle.std.specs.Option.{option_copied};
ghost use Rattle.ele_keeper.specs.Kept.{state_of};
ghost use Rattle.ele_runs.specs.Kept.{Plain, last_in, past_in, world_in};
ghost use Rattle.ele_runs.specs.Said.{Records};

use ele_core::Core;
use ele_history::History;
use ele_model::{Event, PassEnd, Reply, Stop};
use ele_runs::{Keep, Said, explain_alone, last_reply};
use ele_script::{LineFault, Question};
use std::alloc::Global;

/// A core with the reply to its last event, or a history.
#[derive(Drop)]
pub enum Keeper {
    Plain(Core, Option<Reply>),
    Recorded(History<Core>),
}

impl Keep for Keeper {
    ghost use Rattle.ele_keeper.specs.Kept.{state_of};

    ghost kept = { state_of };

    fn hear_event(&mut self, event: Event) -> Said {
        match self {
            Keeper::Plain(core, last) => hear_alone(&event, core, last),
            Keeper::Recorded(history) => history.hear_event(event),
        }
    }

    #[tactic(auto, using(crate::proofs::Steps::unstopped))]
    fn hear_pass(&mut self, budget: u64) -> PassEnd {
        match self {
            Keeper::Plain(core, last) => {
                *last = None;
                core.clean_pass(budget)
            }
            Keeper::Recorded(history) => history.hear_pass(budget),
        }
    }

    fn hear_trim(&mut self) -> Said {
        match self {
            Keeper::Plain(..) => Said::Bad(LineFault::Syntax),
            Keeper::Recorded(history) => history.hear_trim(),
        }
    }

    fn explain(&self, alloc: Global, question: &Question) -> Said {
        match self {
            Keeper::Plain(core, _) => explain_alone(question, core),
            Keeper::Recorded(history) => history.explain(alloc, question),
        }
    }

    fn has_history(&self) -> bool {
        matches!(self, Keeper::Recorded(_))
    }
}

// Applies the event, and keeps its reply.
#[tactic(auto, using(crate::proofs::Steps::takes_some))]
fn hear_alone(event: &Event, core: &mut Core, last: &mut Option<Reply>) -> Said
    ensures { Records (Plain core.old.world last.old) event.now result
        (Plain core.new.world last.new) }
{
    *last = None;
    match core.apply(event) {
        Ok(reply) => {
            *last = Some(reply);
            Said::Replied
        }
        Err(_) => Said::Stopped(Stop::NoMemory),
    }
}

impl Keeper {
    /// Returns the core.
    pub fn core(&self) -> &Core
        ensures { result.now.world ≡ world_in (state_of self.now) }
    {
        match self {
            Keeper::Plain(core, _) => core,
            Keeper::Recorded(history) => history.core(),
        }
    }

    /// Returns the history, if there is one.
    pub fn history(&self) -> Option<&History<Core>>
        ensures { option_copied result ≡ past_in (state_of self.now) }
    {
        match self {
            Keeper::Plain(..) => None,
            Keeper::Recorded(history) => Some(history),
        }
    }

    /// Returns the reply to the last event, if there is one.
    pub fn last(&self) -> Option<&Reply>
        ensures { option_copied result ≡ last_in (state_of self.now) }
    {
        match self {
            Keeper::Plain(_, last) => last.as_ref(),
            Keeper::Recorded(history) => last_reply(history),
        }
    }
}
