//! The drafts and handles of all files.
//! A contract sees them as drafts, handles and the count of handles ever opened.
ghost use Rattle.std.specs.Prelude.{◌≡◌, ◌≤◌, ◌<◌, ◌+◌, ◌^◌, [], Some, OnOk, OnErr, IfOk};
ghost use Rattle.std.specs.List.{AllByRecursion};
ghost use Rattle.ele_blocks.specs.LivesIn.{LivesIn};
ghost use Rattle.ele_blocks.specs.Owes.{IsUncrowded};
ghost use Rattle.ele_sessions.specs.Orderly.{AreOrderly};
ghost use Rattle.ele_sessions.specs.Closes.{closing, closed};
ghost use Rattle.ele_sessions.specs.Found.{StandsAt};
ghost use Rattle.ele_sessions.specs.Opening.{new_draft, opened_by, reader_opened, Opens};

mod asking;
mod writing;

use crate::closing::Closing;
use crate::drafts::Drafts;
use crate::entries::{Entry, enter, handle_by, take_found, tally_of};
use crate::found_handle::FoundHandle;
use crate::leaving::leave;
use crate::opening::{DraftSpec, join};
use ele_blocks::{BlockMap, BlockStore};
use ele_model::{HandleRow, Reads};
use ele_moment::{FileId, Handle, Moment, NoMemory, VersionNo};
use ele_rows::Tally;
use std::alloc::Global;
use std::marker::Model;

/// Drafts and handles of all files. Before they are dropped, each handle has to be closed, and each
/// returned map kept or given up, or its blocks stay in the store.
#[derive(Drop)]
pub struct Sessions {
    drafts: Vec<Entry>,
    handles: Vec<HandleRow>,
    counts: Tally<Reads>,
    opened: u64,
    alloc: Global,
}

impl Model for Sessions {
    ghost use Rattle.ele_sessions.specs.Sessions.{AllSessions};

    ghost Value = { AllSessions };

    ghost use Rattle.ele_sessions.specs.Kept.{sessions_of, IsKept};

    ghost view = { sessions_of };

    ghost invariant = { IsKept };
}

impl Sessions {
    /// Makes an empty list, without drafts and handles. It takes no memory.
    pub fn new(alloc: Global) -> Sessions
        ensures { result ≡ record { drafts = []; handles = []; opened = 0 } }
    {
        Sessions {
            drafts: Vec::new(alloc),
            handles: Vec::new(alloc),
            counts: Tally::new(alloc),
            opened: 0,
            alloc,
        }
    }

    /// Makes the sessions with these drafts and handles, after so many handles were opened.
    ///
    /// `NoMemory` if memory is refused; the blocks of the drafts' maps stay in the store.
    /// Cost: the handles.
    pub fn from_parts(
        alloc: Global,
        drafts: Drafts,
        handles: &[HandleRow],
        opened: u64,
    ) -> Result<Sessions, NoMemory>
        requires orderly { AreOrderly
            (record { drafts = drafts; handles = handles.now; opened = opened }) }
        requires numbered { AllByRecursion (λ handle. 1 ≤ handle.number) handles.now }
        ensures { IfOk result (λ sessions. sessions
            ≡ record { drafts = drafts; handles = handles.now; opened = opened }) }
    {
        Ok(Sessions {
            drafts: drafts.into_entries(),
            handles: Vec::from_slice(alloc, handles)?,
            counts: tally_of(alloc, handles)?,
            opened,
            alloc,
        })
    }

    /// Opens a handle that writes the file. It joins the file's draft, or starts one with a copy of
    /// the map, for the version of that number, opened at that moment. If memory is refused,
    /// sessions and store are as they were.
    #[tactic(auto, using(crate::proofs::Found::rises_in))]
    pub fn open_write(
        &mut self,
        store: &mut BlockStore,
        file: FileId,
        number: VersionNo,
        opened: Moment,
        map: &BlockMap,
    ) -> Result<Handle, NoMemory>
        requires lives { LivesIn store.old map.now }
        requires few { IsUncrowded store.old }
        requires room { self.old.opened < 2 ^ 63 }
        ensures handle { IfOk result (λ handle. handle ≡ self.old.opened + 1) }
        ensures sessions { OnOk result
            (self.new ≡ opened_by self.old (new_draft file number opened map.now)) }
        ensures opens { OnOk result (Opens store.old store.new self.old.drafts file map.now) }
        ensures err { OnErr result (self.new ≡ self.old) }
        ensures err_store { OnErr result (store.new ≡ store.old) }
    {
        self.handles.reserve(1)?;
        self.counts.reserve()?;
        let spec = DraftSpec {
            file,
            number,
            opened,
        };
        join(self.alloc, &mut self.drafts, store, spec, map)?;
        self.opened += 1;
        let number = Handle(self.opened);
        let handle = HandleRow {
            number,
            reads: Reads::Draft(file),
        };
        enter(&mut self.handles, &mut self.counts, &handle);
        Ok(number)
    }

    /// Opens a handle that reads the version. If memory is refused, the sessions are as they were.
    pub fn open_read(&mut self, file: FileId, version: VersionNo) -> Result<Handle, NoMemory>
        requires { self.old.opened < 2 ^ 63 }
        ensures handle { IfOk result (λ handle. handle ≡ self.old.opened + 1) }
        ensures sessions { OnOk result (self.new ≡ reader_opened self.old file version) }
        ensures err { OnErr result (self.new ≡ self.old) }
    {
        self.handles.reserve(1)?;
        self.counts.reserve()?;
        self.opened += 1;
        let number = Handle(self.opened);
        let handle = HandleRow {
            number,
            reads: Reads::Version(file, version),
        };
        enter(&mut self.handles, &mut self.counts, &handle);
        Ok(number)
    }

    /// Closes the handle. None if no open handle has that number. With the last writer of a file
    /// its draft is discarded, and its map returned, for the caller to keep or to give up.
    pub fn close(&mut self, handle: Handle) -> Option<(Closing, Option<BlockMap>)>
        ensures answer { result ≡ closing self.old handle }
        ensures sessions { self.new ≡ closed self.old handle }
        ensures orderly { AreOrderly self.old }
    {
        let Ok(found) = handle_by(&self.handles, handle) else {
            return None;
        };
        Some(self.close_found(&found))
    }

    /// Closes the handle that was found, as `close` does, without another search for it.
    #[tactic(auto, using(crate::proofs::Found::rises_in))]
    pub fn close_found(&mut self, found: &FoundHandle) -> (Closing, Option<BlockMap>)
        requires { StandsAt self.old.handles found.now }
        ensures answer { Some result ≡ closing self.old found.now.row.number }
        ensures sessions { self.new ≡ closed self.old found.now.row.number }
        ensures orderly { AreOrderly self.old }
    {
        match take_found(&mut self.handles, found) {
            Reads::Draft(file) => {
                self.counts.take(Reads::Draft(file));
                let stays = self.counts.count(Reads::Draft(file)) > 0;
                leave(&mut self.drafts, file, stays)
            }
            Reads::Version(file, number) => {
                self.counts.take(Reads::Version(file, number));
                (Closing::Unread(file, number), None)
            }
        }
    }
}
