//! Questions about the sessions.
//! A contract sees each answer as a look-up in drafts or handles.
ghost use Rattle.std.specs.Prelude.{◌≡◌, IfOk, Some, length, slice_get, true};
ghost use Rattle.std.specs.List.{list_any};
ghost use Rattle.std.specs.Option.{option_map, option_copied};
ghost use Rattle.std.specs.Result.{result_map_both, result_ok};
ghost use Rattle.ele_sessions.specs.Closes.{closing};
ghost use Rattle.ele_sessions.specs.Found.{StandsAt};
ghost use Rattle.ele_sessions.specs.Orderly.{AreOrderly};
ghost use Rattle.ele_sessions.specs.Sessions.{draft_of, is_draft};
ghost use Rattle.ele_model.specs.World.{file_by, is_open, reads_by};

use crate::closing::Closing;
use crate::draft::Draft;
use crate::entries::{file_by, handle_by, place_of, reads_by};
use crate::found_handle::FoundHandle;
use crate::leaving::peek;
use crate::sessions::Sessions;
use ele_blocks::BlockMap;
use ele_model::{HandleRow, Reads, Refusal};
use ele_moment::{FileId, Handle, Moment, VersionNo};

impl Sessions {
    /// Returns how many handles were ever opened.
    pub fn handles_opened(&self) -> u64
        ensures { result ≡ self.now.opened }
    {
        self.opened
    }

    /// Returns how many drafts are open.
    pub fn drafts_open(&self) -> usize
        ensures value { result ≡ length self.now.drafts }
        ensures orderly { AreOrderly self.now }
    {
        self.drafts.len()
    }

    /// Returns what closing the handle would return. None if no open handle has that number.
    pub fn peek_close(&self, handle: Handle) -> Option<Closing>
        ensures { result ≡ option_map (λ answer. answer.0) (closing self.now handle) }
    {
        let Ok(found) = self.handle(handle) else {
            return None;
        };
        Some(self.peek_close_found(&found))
    }

    /// Returns what closing the handle that was found would return.
    #[tactic(auto, using(crate::proofs::Found::rises_in))]
    pub fn peek_close_found(&self, found: &FoundHandle) -> Closing
        requires { StandsAt self.now.handles found.now }
        ensures { Some result
            ≡ option_map (λ answer. answer.0) (closing self.now found.now.row.number) }
    {
        match found.row.reads {
            Reads::Draft(file) => {
                let stays = self.counts.count(Reads::Draft(file)) > 1;
                peek(&self.drafts, file, stays)
            }
            Reads::Version(file, number) => Closing::Unread(file, number),
        }
    }

    /// Returns the open handle of that number, and its place. Refused: `NoHandle`.
    pub fn handle(&self, handle: Handle) -> Result<FoundHandle, Refusal>
        ensures number { IfOk result (λ found. found.row.number ≡ handle) }
        ensures stands { IfOk result (StandsAt self.now.handles) }
        ensures reads { result_map_both (λ found. found.row.reads) (λ refusal. refusal) result
            ≡ reads_by self.now.handles handle }
    {
        handle_by(&self.handles, handle)
    }

    /// Returns what the handle reads. None if no open handle has that number.
    pub fn read(&self, handle: Handle) -> Option<Reads>
        ensures { result ≡ result_ok (reads_by self.now.handles handle) }
    {
        let Ok(reads) = self.reads_by(handle) else {
            return None;
        };
        Some(reads)
    }

    /// Returns what the handle reads. Refused: `NoHandle`.
    pub fn reads_by(&self, handle: Handle) -> Result<Reads, Refusal>
        ensures { result ≡ reads_by self.now.handles handle }
    {
        reads_by(&self.handles, handle)
    }

    /// Returns the file that the handle writes, which has a draft. Refused: `NoHandle`,
    /// `NotWriter`.
    pub fn file_by(&self, handle: Handle) -> Result<FileId, Refusal>
        ensures file { result ≡ file_by self.now.handles handle }
        ensures drafted { IfOk result (λ file. list_any (is_draft file) self.now.drafts ≡ true) }
    {
        file_by(&self.handles, handle)
    }

    /// Returns whether some open handle reads the version.
    pub fn pins(&self, file: FileId, number: VersionNo) -> bool
        ensures { result ≡ is_open self.now.handles file number }
    {
        self.counts.count(Reads::Version(file, number)) > 0
    }

    /// Returns the map of the file's draft. None if no handle writes the file.
    #[tactic(auto, using(crate::proofs::Found::rises_in))]
    pub fn draft(&self, file: FileId) -> Option<&BlockMap>
        ensures map { option_copied result
            ≡ option_map (λ draft. draft.layout) (draft_of self.now file) }
        ensures orderly { AreOrderly self.now }
    {
        let Ok(at) = place_of(&self.drafts, file) else {
            return None;
        };
        let entry = &self.drafts[at];
        let draft: &Draft = &entry.draft;
        Some(&draft.map)
    }

    /// Returns when the file's draft was opened. None if no handle writes the file.
    #[tactic(auto, using(crate::proofs::Found::rises_in))]
    pub fn draft_opened(&self, file: FileId) -> Option<Moment>
        ensures { result ≡ option_map (λ draft. draft.opened) (draft_of self.now file) }
    {
        let Ok(at) = place_of(&self.drafts, file) else {
            return None;
        };
        let draft: &Draft = &self.drafts[at].draft;
        Some(draft.opened)
    }

    /// Returns the file of a draft, when the draft was opened, and whether it was changed, by the
    /// draft's place. None past the last one.
    pub fn draft_at(&self, place: usize) -> Option<(FileId, Moment, bool)>
        ensures { result ≡ option_map (λ draft. (draft.file, draft.opened, draft.changed))
            (slice_get self.now.drafts place) }
    {
        let entry = self.drafts.get(place)?;
        Some((entry.file, entry.draft.opened, entry.draft.changed))
    }

    /// Returns the number of an open handle, and what it reads, by the handle's place. None past
    /// the last one.
    pub fn handle_at(&self, place: usize) -> Option<(Handle, Reads)>
        ensures { result ≡ option_map (λ handle. (handle.number, handle.reads))
            (slice_get self.now.handles place) }
    {
        let handle = self.handles.get(place)?;
        Some((handle.number, handle.reads))
    }

    /// Returns the open handles, by number.
    pub fn handles(&self) -> &[HandleRow]
        ensures { result.now ≡ self.now.handles }
    {
        &self.handles
    }
}
