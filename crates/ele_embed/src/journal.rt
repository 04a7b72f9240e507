//! Stores with a journal: the bytes that their files get.
//! A contract sees the state of the store and its text.
ghost use Rattle.std.specs.Prelude.{◌≡◌, ◌≤◌, IfErr, IfOk, OnErr, OnOk, is_some, false, true, vec_capacity};
ghost use Rattle.ele_embed.specs.Embedding.{journal_in, world_in};
ghost use Rattle.ele_embed.specs.Journals.{IsNotBegun, IsNotGiven, IsSoundState, begun_journal, compacted, is_offered, pended, settled};
ghost use Rattle.ele_journal.specs.Journal.{first_check, start};
ghost use Rattle.ele_journaled.specs.JournalState.{idle};
ghost use Rattle.ele_model.specs.Start.{IsStart};
ghost use Rattle.ele_output.specs.Outlet.{room};

use crate::{Store, append};
use ele_journaled::{Journal, NewFile};
use ele_keeper::{JournalError, compact_of, pending_of};
use ele_model::NoMemory;
use ele_output::ROOM;

impl Store {
    /// Begins a journal, and makes the text the bytes that its file is to have. From now on each event
    /// belongs to the change under way, but for questions, refused events and cleans that find nothing
    /// due. The last answer stays.
    ///
    /// `HasJournal` if there is one, `NoMemory` if memory is refused. Each error leaves the store and
    /// the text as they were.
    /// Cost: that of a copy of all rows and bytes, and of their checkpoint.
    #[tactic(auto, using(ele_keeper::proofs::Journaling::journal_with, ele_keeper::proofs::Journaling::world_with))]
    pub fn begin_journal(&mut self) -> Result<(), JournalError>
        ensures ok { OnOk result (self.new ≡ begun_journal self.old) }
        ensures none { OnOk result (is_some (journal_in self.old.state) ≡ false) }
        ensures err { IfErr result (IsNotBegun self.old.state) }
        ensures unchanged { OnErr result (self.new ≡ self.old) }
    {
        if self.keeper.journal.is_some() {
            return Err(JournalError::HasJournal);
        }
        let Ok(file) = self.new_file() else {
            return Err(JournalError::NoMemory);
        };
        put_text(&mut self.answer, file.bytes);
        self.keeper.journal = Some(file.journal);
        Ok(())
    }

    /// Makes the text the bytes that the change under way adds to the file, as one change. It is empty
    /// if no event is under way. `written` says that the bytes are on the disk. If bytes were given
    /// before, those no longer count. The last answer stays.
    ///
    /// `NoJournal` if there is none, `NoMemory` if memory is refused. Each error leaves the store and
    /// the text as they were.
    /// Cost: grows with the bytes, which it copies.
    #[tactic(auto, using(ele_keeper::proofs::Journaling::journal_with))]
    pub fn pending(&mut self) -> Result<(), JournalError>
        ensures ok { OnOk result (self.new ≡ pended self.old) }
        ensures journal { OnOk result (is_some (journal_in self.old.state) ≡ true) }
        ensures err { IfErr result (IsNotGiven self.old.state) }
        ensures unchanged { OnErr result (self.new ≡ self.old) }
    {
        let bytes = pending_of(self.alloc, &mut self.keeper)?;
        put_text(&mut self.answer, bytes);
        Ok(())
    }

    /// Makes the text the bytes of a new file: a checkpoint of the store as it is, with what the change
    /// under way did. `written` says that the bytes are on the disk, in the place of the old file. If
    /// bytes were given before, those no longer count. The last answer stays.
    ///
    /// `NoJournal` if there is none, `NoMemory` if memory is refused. Each error leaves the store and
    /// the text as they were.
    /// Cost: that of a copy of all rows and bytes, and of their checkpoint.
    #[tactic(auto, using(ele_keeper::proofs::Journaling::journal_with))]
    pub fn compact(&mut self) -> Result<(), JournalError>
        ensures ok { OnOk result (self.new ≡ compacted self.old) }
        ensures journal { OnOk result (is_some (journal_in self.old.state) ≡ true) }
        ensures err { IfErr result (IsNotGiven self.old.state) }
        ensures unchanged { OnErr result (self.new ≡ self.old) }
    {
        let bytes = compact_of(&mut self.keeper)?;
        put_text(&mut self.answer, bytes);
        Ok(())
    }

    /// Says that the bytes that were given last are on the disk: those of `pending` at the end of the
    /// file, or those of `begin_journal` and `compact` as the file. Their events are no longer under
    /// way. Returns whether any bytes of `pending` or `compact` were given since the last call; else
    /// nothing changes. The text and the last answer stay. It takes no memory.
    ///
    /// `NoJournal` if there is none.
    /// Cost: grows with the change, whose written events it drops.
    #[tactic(auto, using(ele_keeper::proofs::Journaling::journal_with, ele_keeper::proofs::Giving::nothing_settled))]
    pub fn written(&mut self) -> Result<bool, JournalError>
        ensures new { self.new ≡ settled self.old }
        ensures value { IfOk result (λ given. given ≡ is_offered (journal_in self.old.state)) }
        ensures journal { OnOk result (is_some (journal_in self.old.state) ≡ true) }
        ensures err { IfErr result (λ error. (error ≡ JournalError.NoJournal)
            × (is_some (journal_in self.old.state) ≡ false)) }
        ensures unchanged { OnErr result (self.new ≡ self.old) }
    {
        match &mut self.keeper.journal {
            Some(journal) => Ok(journal.written()),
            None => Err(JournalError::NoJournal),
        }
    }

    /// Returns whether the store has a journal. Its contract also says what the laws of files ask of
    /// a store.
    pub fn has_journal(&self) -> bool
        ensures value { result ≡ is_some (journal_in self.now.state) }
        ensures sound { IsSoundState self.now.state }
        ensures start { IsStart (world_in self.now.state) }
    {
        // For the proof: events led to the world, so a run may begin in it.
        let _reached = self.keeper.core().now();
        ele_world::laws::start_stays();
        match &self.keeper.journal {
            Some(journal) => {
                // For the proof: the journal is sound.
                let _change = journal.change();
                true
            }
            None => false,
        }
    }

    // The journal of the store as it is, and the bytes of its file.
    fn new_file(&self) -> Result<NewFile, NoMemory>
        ensures journal { IfOk result
            (λ file. file.journal ≡ idle (first_check (world_in self.now.state))) }
        ensures bytes { IfOk result (λ file. file.bytes.items ≡ start (world_in self.now.state)) }
    {
        let flat = self.keeper.core().flat()?;
        Journal::begin(self.alloc, &flat)
    }
}

// Makes the bytes the text, which keeps its room for a short one. It takes no memory.
fn put_text(text: &mut Vec<u8>, bytes: Vec<u8>)
    requires { room ≤ vec_capacity text.old }
    ensures text { text.new.items ≡ bytes.items }
    ensures room { room ≤ vec_capacity text.new }
{
    if bytes.len() >= ROOM {
        *text = bytes;
        return;
    }
    text.clear();
    // The text has room for the bytes, so this can't fail.
    if append(text, &bytes).is_err() {
        text.clear();
    }
}
