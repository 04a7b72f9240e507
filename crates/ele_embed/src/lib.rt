//! A store for programs in other languages: a core, alone or with its history, and the answer to the last call.
//! A contract sees the world or the history, the last answer, and the last text.
#![tactic(auto)]

ghost use Rattle.std.specs.Prelude.{◌≡◌, ◌<◌, ◌≤◌, ◌+◌, ◌++◌, [], Some, None, List, ℕ, length, true, false, IfOk, OnOk, OnErr, vec_capacity};
ghost use Rattle.std.specs.Option.{option_copied};
ghost use Rattle.ele_embed.specs.Embedding.{Plain, Recorded, events_in, fresh_plain, fresh_recorded, opened, reply_of, world_in, past_in};
ghost use Rattle.ele_embed.specs.Hears.{Hears, explaining};
ghost use Rattle.ele_keeper.specs.Kept.{journaled_state, state_of};
ghost use Rattle.ele_embed.specs.Takes.{CopiesRead, Runs, Passes, FoldsOrNot, TellsWhy, TellsAhead};
ghost use Rattle.ele_embed.specs.Text.{IsLong, IsTold, IsRunBlock};
ghost use Rattle.ele_model.specs.CountsOf.{counts_of};
ghost use Rattle.ele_output.specs.Outlet.{room};
ghost use Rattle.ele_output.specs.Prints.{Prints};
ghost use Rattle.ele_runs.specs.declared.said.Said.TheVariants as said;

mod checkpoint;
mod from_flat;
mod journal;
mod opening;
mod renewal;

pub use crate::checkpoint::CheckpointError;
pub use crate::from_flat::OpenError;
pub use crate::opening::{OpenJournalError, OpenedStore};
pub use ele_core::Copied;
use ele_core::Core;
use ele_history::History;
pub use ele_journal::Fault;
use ele_keeper::{JournaledKeeper, Keeper, explain_why};
pub use ele_keeper::{JournalError, RenewalError};
use ele_model::{
    Counts, Event, Limits, Moment, NoMemory, PassEnd, Refusal, Reply, Source, TaggedPath,
};
use ele_output::{Printer, ROOM, WriteFault};
pub use ele_runs::Said;
use ele_runs::{Keep, RunOptions, explain_alone, hear_kept, kept_line};
use ele_script::{LineFault, Question};
use std::alloc::Global;
use std::io::Write;
use std::marker::Model;

/// A store, the answer to its last call, and the last text that it made.
#[derive(Drop)]
pub struct Store {
    keeper: JournaledKeeper,
    said: Said,
    answer: Vec<u8>,
    alloc: Global,
}

impl Model for Store {
    ghost use Rattle.std.specs.Prelude.{◌≤◌, vec_capacity};
    ghost use Rattle.ele_embed.specs.Embedding.{Embedding};
    ghost use Rattle.ele_keeper.specs.Kept.{journaled_state, state_of};
    ghost use Rattle.ele_embed.specs.StateCode.{state_code};
    ghost use Rattle.ele_output.specs.Outlet.{room};
    ghost use Rattle.std.specs.Coded.{codes};

    ghost Value = { Embedding };

    // A state may hold another, within its journal.
    ghost coded = { Prim.hlevel (codes, state_code) };

    ghost view = { λ s. record { state = journaled_state s.keeper; said = s.said; answer = s.answer.items } };

    // A text that a printer's buffer has room for takes no memory.
    ghost invariant = { λ s. room ≤ vec_capacity s.answer };
}

impl Store {
    /// Makes an empty store without a history.
    ///
    /// `NoMemory` if memory is refused.
    pub fn plain(alloc: Global, limits: Limits) -> Result<Store, NoMemory>
        ensures { IfOk result (λ store. store ≡ fresh_plain limits) }
    {
        let core = Core::new(alloc, limits)?;
        Store::opened(alloc, Keeper::Plain(core, None))
    }

    /// Makes an empty store with a history.
    ///
    /// `NoMemory` if memory is refused.
    pub fn recorded(alloc: Global, limits: Limits) -> Result<Store, NoMemory>
        ensures { IfOk result (λ store. store ≡ fresh_recorded limits) }
    {
        let history = History::new(alloc, limits)?;
        Store::opened(alloc, Keeper::Recorded(history))
    }

    // A store that has answered nothing, with room for a short text.
    fn opened(alloc: Global, keeper: Keeper) -> Result<Store, NoMemory>
        ensures { IfOk result (λ store. store ≡ opened (state_of keeper)) }
    {
        Ok(Store {
            keeper: JournaledKeeper {
                bare: keeper,
                journal: None,
                alloc,
            },
            said: Said::Nothing,
            answer: Vec::with_capacity(alloc, ROOM)?,
            alloc,
        })
    }

    /// Applies the event, or answers with the fault in its place, which changes nothing. The text stays.
    pub fn run(&mut self, asked: Result<Event, LineFault>)
        ensures runs { Runs self.old.state asked self.new.said self.new.state }
        ensures answer { self.new.answer ≡ self.old.answer }
    {
        match asked {
            Ok(event) => self.said = self.keeper.hear_event(event),
            Err(fault) => self.said = Said::Bad(fault),
        }
    }

    /// Removes due versions until nothing is due or `budget` versions are removed. Returns how the pass
    /// ended.
    pub fn pass(&mut self, budget: u64) -> PassEnd
        ensures passes { Passes self.old.state budget result self.new.state }
        ensures said { self.new.said ≡ said.Passed result }
        ensures answer { self.new.answer ≡ self.old.answer }
    {
        let end = self.keeper.hear_pass(budget);
        self.said = Said::Passed(end);
        end
    }

    /// Folds the history into its base. Returns false, and changes nothing, if there is no history.
    #[tactic(auto, using(crate::proofs::Steps::no_past))]
    pub fn trim(&mut self) -> bool
        ensures { FoldsOrNot self.old result self.new }
    {
        if !self.keeper.has_history() {
            return false;
        }
        self.said = self.keeper.hear_trim();
        true
    }

    /// Answers why a version is held or due, and which mark held one that is due after its policy had let
    /// it go, or with the fault in place of its path. The store stays. It takes no memory unless the
    /// version is due.
    ///
    /// Cost: of a due version a copy of the groups, and of all rows if a mark ended at the moment since
    /// which it is due.
    pub fn why(&mut self, asked: Result<TaggedPath, LineFault>)
        ensures why { TellsWhy (world_in self.old.state) asked self.new.said }
        ensures state { self.new.state ≡ self.old.state }
        ensures answer { self.new.answer ≡ self.old.answer }
    {
        match asked {
            Ok(tagged) => self.said = explain_why(tagged, self.keeper.core()),
            Err(fault) => self.said = Said::Bad(fault),
        }
    }

    /// Answers which versions will be due at a moment, or with the fault in its place. The store stays. It
    /// takes no memory if no version is due by then.
    pub fn ahead(&mut self, asked: Result<Moment, LineFault>)
        ensures ahead { TellsAhead (world_in self.old.state) asked self.new.said }
        ensures state { self.new.state ≡ self.old.state }
        ensures answer { self.new.answer ≡ self.old.answer }
    {
        match asked {
            Ok(moment) => {
                self.said = explain_alone(&Question::Ahead(moment), self.keeper.core());
            }
            Err(fault) => self.said = Said::Bad(fault),
        }
    }

    /// Copies the bytes of a read from the offset on into the start of the caller's, as many as fit. The
    /// history gets no entry, and the last answer stays. Returns the refusal of the read, and then copies
    /// nothing.
    pub fn copy(&self, source: &Source, offset: u64, into: &mut [u8]) -> Result<Copied, Refusal>
        ensures { CopiesRead self.now.state source.now offset into.old into.new result }
    {
        self.keeper.core().copy(source, offset, into)
    }

    /// Runs a line of the script language, without its line feed, and makes the text of its answer.
    ///
    /// `WriteFault` if the text is longer than 8,192 bytes and memory for it is refused. Then the text is
    /// empty, but the line was run.
    #[tactic(auto, using(crate::proofs::Steps::run_block))]
    pub fn line(&mut self, line: &[u8]) -> Result<(), WriteFault>
        ensures hears { Hears self.old.state line.now self.new.said self.new.state }
        ensures told { OnOk result (IsTold self.new.state self.new.said self.new.answer) }
        ensures block { OnOk result
            (IsRunBlock self.old.state line.now self.new.state self.new.answer) }
        ensures err { OnErr result (self.new.answer ≡ []) }
        ensures long { OnErr result (IsLong self.new.state self.new.said) }
    {
        self.said = hear_kept(self.alloc, explaining(), kept_line(line), &mut self.keeper);
        self.tell()
    }

    /// Makes the text of the last answer.
    ///
    /// `WriteFault` if it is longer than 8,192 bytes and memory for it is refused. Then the text is empty.
    pub fn tell(&mut self) -> Result<(), WriteFault>
        ensures told { OnOk result (IsTold self.old.state self.old.said self.new.answer) }
        ensures err { OnErr result (self.new.answer ≡ []) }
        ensures long { OnErr result (IsLong self.old.state self.old.said) }
        ensures state { self.new.state ≡ self.old.state }
        ensures said { self.new.said ≡ self.old.said }
    {
        self.answer.clear();
        let told = write_said(&self.said, &self.keeper, self.alloc, &mut self.answer);
        if told.is_err() {
            self.answer.clear();
        }
        told
    }

    /// Returns the last text.
    pub fn answer(&self) -> &[u8]
        ensures { result.now ≡ self.now.answer }
    {
        &self.answer
    }

    /// Returns the answer to the last call.
    pub fn said(&self) -> &Said
        ensures { result.now ≡ self.now.said }
    {
        &self.said
    }

    /// Returns the reply to the last call, if that ran an event and was not stopped.
    pub fn reply(&self) -> Option<&Reply>
        ensures { option_copied result ≡ reply_of self.now }
    {
        match self.said {
            Said::Replied => self.keeper.last(),
            _ => None,
        }
    }

    /// Returns the current moment.
    pub fn now(&self) -> Moment
        ensures { result ≡ (world_in self.now.state).now }
    {
        self.keeper.core().now()
    }

    /// Returns the history, if there is one.
    pub fn history(&self) -> Option<&History<Core>>
        ensures { option_copied result ≡ past_in self.now.state }
    {
        self.keeper.history()
    }

    /// Returns how many of each kind were ever made, as the limits count them: open drafts count as
    /// versions.
    pub fn counts(&self) -> Counts
        ensures { result ≡ counts_of (world_in self.now.state) }
    {
        self.keeper.core().counts()
    }

    /// Returns how many events the history has, with those that are folded. Without a history it returns 0.
    pub fn events(&self) -> u64
        ensures { result ≡ events_in (past_in self.now.state) }
    {
        match self.keeper.history() {
            Some(history) => history.count(),
            None => 0,
        }
    }
}

// Returns the options of a run that explains.
fn explaining() -> RunOptions
    ensures { result ≡ explaining }
{
    let mut options = RunOptions::plain();
    options.explain = true;
    options
}

// Writes the text of an answer into an empty list, which has room for a short one. A fault means that
// memory for a long one was refused.
fn write_said(
    said: &Said,
    keeper: &JournaledKeeper,
    alloc: Global,
    answer: &mut Vec<u8>,
) -> Result<(), WriteFault>
    requires empty { answer.old.items ≡ [] }
    requires room { room ≤ vec_capacity answer.old }
    ensures ok { OnOk result (IsTold (journaled_state keeper.now) said.now answer.new.items) }
    ensures long { OnErr result (IsLong (journaled_state keeper.now) said.now) }
    ensures room { room ≤ vec_capacity answer.new }
{
    // What the printer had no room for, which comes before what it holds.
    let mut front = Vec::new(alloc);
    let mut printer = Printer::new(&mut front);
    put_said(said, keeper, &mut printer);
    printer.check()?;
    append(answer, printer.held())?;
    let held = answer.len();
    append(answer, &front)?;
    answer.rotate_left(held);
    Ok(())
}

// Prints the text of an answer.
fn put_said<W: Write>(said: &Said, keeper: &JournaledKeeper, printer: &mut Printer<'_, W>)
    ensures { (text : List ℕ) × IsTold (journaled_state keeper.now) said.now text
        × Prints W.contents printer.old printer.new text }
{
    match keeper.history() {
        Some(history) => said.put(keeper.last(), history.folded(), history.entries(), printer),
        None => said.put(keeper.last(), 0, &[], printer),
    }
}

// Appends bytes to a list. A fault means that memory was refused.
fn append(list: &mut Vec<u8>, bytes: &[u8]) -> Result<(), WriteFault>
    ensures ok { OnOk result (list.new.items ≡ list.old.items ++ bytes.now) }
    ensures full { OnErr result (vec_capacity list.old < length list.old.items + length bytes.now) }
    ensures capacity { vec_capacity list.old ≤ vec_capacity list.new }
{
    match list.extend_from_slice(bytes) {
        Ok(()) => Ok(()),
        Err(_) => Err(WriteFault),
    }
}
