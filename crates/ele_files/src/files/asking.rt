//! Questions about files, drafts and handles.
//! A contract sees each answer as a look-up in the rows.
ghost use Rattle.std.specs.Prelude.{◌≡◌, IfOk, length, find, true};
ghost use Rattle.std.specs.List.{list_any};
ghost use Rattle.std.specs.Option.{option_map};
ghost use Rattle.std.specs.Result.{result_map_both};
ghost use Rattle.ele_content.specs.Content.{content_of};
ghost use Rattle.ele_files.specs.Held.{cells_of_draft};
ghost use Rattle.ele_model.specs.World.{policy_of, is_file, is_draft, is_open, reads_by, file_by};
ghost use Rattle.ele_sessions.specs.Found.{StandsAt};

use crate::files::{Files, file_of};
use ele_lists::{ByteList, ListOf};
use ele_model::{HandleRow, Reads, Refusal};
use ele_moment::{FileId, Handle, Moment, NoMemory, VersionNo};
use ele_policy::Policy;
use ele_sessions::FoundHandle;

impl Files {
    /// Returns the file's policy. None if there is no such file.
    #[tactic(auto, using(std::proofs::lemmas::Bool::Decides::nat_tests, crate::proofs::Rows::file_row_found))]
    pub fn policy_of(&self, file: FileId) -> Option<Policy>
        ensures { result ≡ policy_of self.now.files file }
    {
        let held = file_of(&self.files, file)?;
        Some(held.policy)
    }

    /// Returns the number that the file's next version gets. None if there is no such file.
    #[tactic(auto, using(std::proofs::lemmas::Bool::Decides::nat_tests, crate::proofs::Rows::file_row_found))]
    pub fn next_of(&self, file: FileId) -> Option<VersionNo>
        ensures { result ≡ option_map (λ row. row.next) (find (is_file file) self.now.files) }
    {
        let held = file_of(&self.files, file)?;
        Some(held.next)
    }

    /// Returns what the handle reads. Refused: `NoHandle` if no open handle has that number.
    pub fn reads_by(&self, handle: Handle) -> Result<Reads, Refusal>
        ensures { result ≡ reads_by self.now.handles handle }
    {
        self.sessions.reads_by(handle)
    }

    /// Returns the open handles, by number.
    pub fn handles(&self) -> &[HandleRow]
        ensures { result.now ≡ self.now.handles }
    {
        self.sessions.handles()
    }

    /// Returns when the file's draft was opened. None if the file has no draft.
    #[tactic(auto, using(crate::proofs::Rows::draft_found))]
    pub fn draft_opened(&self, file: FileId) -> Option<Moment>
        ensures { result ≡ option_map (λ draft. draft.opened) (find (is_draft file) self.now.drafts) }
    {
        self.sessions.draft_opened(file)
    }

    /// Returns the open handle of that number, and its place. Refused: `NoHandle`.
    pub fn handle(&self, handle: Handle) -> Result<FoundHandle, Refusal>
        ensures number { IfOk result (λ found. found.row.number ≡ handle) }
        ensures stands { IfOk result (StandsAt self.now.handles) }
        ensures reads { result_map_both (λ found. found.row.reads) (λ refusal. refusal) result
            ≡ reads_by self.now.handles handle }
    {
        self.sessions.handle(handle)
    }

    /// Returns the file that the handle writes, which has a draft. Refused: `NoHandle`,
    /// `NotWriter`.
    #[tactic(auto, using(std::proofs::lemmas::Bool::Decides::nat_tests, crate::proofs::Rows::any_draft))]
    pub fn file_by(&self, handle: Handle) -> Result<FileId, Refusal>
        ensures file { result ≡ file_by self.now.handles handle }
        ensures drafted { IfOk result (λ file. list_any (is_draft file) self.now.drafts ≡ true) }
    {
        self.sessions.file_by(handle)
    }

    /// Returns whether some handle reads the version. It looks at a count, and at no handle.
    pub fn is_open(&self, file: FileId, number: VersionNo) -> bool
        ensures { result ≡ is_open self.now.handles file number }
    {
        self.sessions.pins(file, number)
    }

    /// Returns how many handles were ever opened.
    pub fn handles_opened(&self) -> u64
        ensures { result ≡ self.now.opened }
    {
        self.sessions.handles_opened()
    }

    /// Returns how many drafts are open.
    pub fn drafts_open(&self) -> usize
        ensures { result ≡ length self.now.drafts }
    {
        self.sessions.drafts_open()
    }

    /// Returns whether the file has a draft.
    #[tactic(auto, using(std::proofs::lemmas::Bool::Decides::nat_tests, crate::proofs::Tagged::drafted))]
    pub fn has_draft(&self, file: FileId) -> bool
        ensures { result ≡ list_any (is_draft file) self.now.drafts }
    {
        self.sessions.draft(file).is_some()
    }

    /// Returns the bytes of the file's draft, or no bytes if it has none.
    #[tactic(auto, using(std::proofs::lemmas::Bool::Decides::nat_tests, crate::proofs::Rows::draft_found, crate::proofs::Stock::draft_lives))]
    pub fn draft_content(&self, file: FileId) -> Result<ByteList, NoMemory>
        ensures { IfOk result (λ bytes. bytes ≡ content_of (cells_of_draft self.now file)) }
    {
        match self.sessions.draft(file) {
            Some(map) => {
                let bytes = map.content(&self.store)?;
                Ok(ListOf::from_vec(bytes))
            }
            None => Ok(ListOf::new(self.alloc)),
        }
    }
}
