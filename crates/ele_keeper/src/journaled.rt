//! What keeps a store's world, with its journal, if it has one.
//! A contract sees it as the state of the store.
ghost use Rattle.std.specs.Prelude.{◌≡◌, OnErr, OnOk, IfSome, ◌<◌, length, true};
ghost use Rattle.std.specs.Option.{option_copied};
ghost use Rattle.ele_keeper.specs.Kept.{MayClean, has_changed, is_removed, journaled_state, state_of};
ghost use Rattle.ele_journal.specs.Events.{changes};
ghost use Rattle.ele_journaled.specs.JournalState.{adding};
ghost use Rattle.ele_runs.specs.Kept.{Journaled, Passes, last_in, past_in, world_in};
ghost use Rattle.ele_runs.specs.Said.{Records};

use crate::keeper::Keeper;
use ele_core::Core;
use ele_history::History;
use ele_journal::is_change;
use ele_journaled::{Journal, copy_of};
use ele_model::{Event, NoMemory, PassEnd, Reply, Stop};
use ele_runs::{Keep, Said};
use ele_script::Question;
use std::alloc::Global;

/// What keeps a store's world, and its journal, if it has one.
#[derive(Drop)]
pub struct JournaledKeeper {
    /// The core, alone or in its history.
    pub bare: Keeper,
    /// The journal, if there is one.
    pub journal: Option<Journal>,
    /// What gives the journal its memory.
    pub alloc: Global,
}

impl Keep for JournaledKeeper {
    ghost use Rattle.ele_keeper.specs.Kept.{journaled_state};

    ghost kept = { journaled_state };

    fn hear_event(&mut self, event: Event) -> Said {
        match &mut self.journal {
            None => self.bare.hear_event(event),
            Some(journal) => hear_journaled(self.alloc, event, &mut self.bare, journal),
        }
    }

    fn hear_pass(&mut self, budget: u64) -> PassEnd {
        match &mut self.journal {
            None => self.bare.hear_pass(budget),
            Some(journal) => pass_journaled(self.alloc, budget, &mut self.bare, journal),
        }
    }

    #[tactic(auto, using(crate::proofs::Journaling::trims_with))]
    fn hear_trim(&mut self) -> Said {
        self.bare.hear_trim()
    }

    #[tactic(auto, using(crate::proofs::Journaling::explains_with))]
    fn explain(&self, alloc: Global, question: &Question) -> Said {
        self.bare.explain(alloc, question)
    }

    #[tactic(auto, using(crate::proofs::Journaling::has_past_with))]
    fn has_history(&self) -> bool {
        self.bare.has_history()
    }
}

// Answers an event. Unless it is a question, is refused or finds nothing due, it is in the change under
// way from then on.
#[tactic(auto, using(crate::proofs::Journaling::asked, crate::proofs::Journaling::lacking, crate::proofs::Journaling::under_way, crate::proofs::Journaling::taken_back))]
fn hear_journaled(alloc: Global, event: Event, keeper: &mut Keeper, journal: &mut Journal) -> Said
    ensures { Records (Journaled (state_of keeper.old) journal.old) event result
        (Journaled (state_of keeper.new) journal.new) }
{
    if !is_change(&event) {
        return keeper.hear_event(event);
    }
    if add_copy(alloc, &event, journal).is_err() {
        return Said::Stopped(Stop::NoMemory);
    }
    let said = keeper.hear_event(event);
    if !has_changed(&said, keeper.last()) {
        journal.take_back();
    }
    said
}

// Adds a copy of an event to the change under way.
fn add_copy(alloc: Global, event: &Event, journal: &mut Journal) -> Result<(), NoMemory>
    requires { changes event.now ≡ true }
    ensures ok { OnOk result (journal.new ≡ adding journal.old event.entry.now) }
    ensures last { OnOk result
        (IfSome journal.new.offer (λ offer. offer.count < length journal.new.change)) }
    ensures err { OnErr result (journal.new ≡ journal.old) }
{
    journal.add(copy_of(alloc, event)?)
}

// Whether an event was answered, and neither refused nor found nothing due.
fn has_changed(said: &Said, last: Option<&Reply>) -> bool
    ensures { result ≡ has_changed said.now (option_copied last.entry) }
{
    match (said, last) {
        (Said::Replied, Some(reply)) => !matches!(reply, Reply::Refused(_) | Reply::Nothing),
        _ => false,
    }
}

// Repeats clean events until nothing is due, so many versions are removed, or one is stopped.
fn pass_journaled(alloc: Global, budget: u64, keeper: &mut Keeper, journal: &mut Journal) -> PassEnd
    ensures { Passes (Journaled (state_of keeper.old) journal.old) budget result
        (Journaled (state_of keeper.new) journal.new) }
{
    for removed in 0..budget {
        match clean_journaled(alloc, keeper, journal) {
            Ok(true) => {}
            Ok(false) => return PassEnd::Finished(removed),
            Err(stop) => return PassEnd::Stopped(stop, removed),
        }
    }
    PassEnd::Budget(budget)
}

// Makes a clean event, and returns whether it removed a version.
#[tactic(auto, using(crate::proofs::Journaling::replied_clean))]
fn clean_journaled(alloc: Global, keeper: &mut Keeper, journal: &mut Journal) -> Result<bool, Stop>
    ensures { MayClean (Journaled (state_of keeper.old) journal.old) result
        (Journaled (state_of keeper.new) journal.new) }
{
    match hear_journaled(alloc, Event::CleanOne, keeper, journal) {
        Said::Stopped(stop) => Err(stop),
        _ => Ok(is_removed(keeper.last())),
    }
}

// Whether the reply has a removed version.
fn is_removed(last: Option<&Reply>) -> bool
    ensures { result ≡ is_removed (option_copied last.entry) }
{
    matches!(last, Some(Reply::Removed(_)))
}

impl JournaledKeeper {
    /// Returns the core.
    #[tactic(auto, using(crate::proofs::Journaling::world_with))]
    pub fn core(&self) -> &Core
        ensures { result.now.world ≡ world_in (journaled_state self.now) }
    {
        self.bare.core()
    }

    /// Returns the history, if there is one.
    #[tactic(auto, using(crate::proofs::Journaling::past_with))]
    pub fn history(&self) -> Option<&History<Core>>
        ensures { option_copied result ≡ past_in (journaled_state self.now) }
    {
        self.bare.history()
    }

    /// Returns the reply to the last event, if there is one.
    #[tactic(auto, using(crate::proofs::Journaling::last_with))]
    pub fn last(&self) -> Option<&Reply>
        ensures { option_copied result ≡ last_in (journaled_state self.now) }
    {
        self.bare.last()
    }
}
