//! Changes of drafts.
//! A contract sees the list of drafts, in which one has other cells.
ghost use Rattle.std.specs.Prelude.{◌≡◌, ◌≤◌, ◌+◌, [], ◌∷◌, OnOk, OnErr, IsOk, IsTrue, length, true};
ghost use Rattle.std.specs.List.{list_any};
ghost use Rattle.ele_content.specs.Content.{longest_content};
ghost use Rattle.ele_files.specs.Held.{changed_at, has_length};
ghost use Rattle.ele_model.specs.Change.{TruncateDraft, WriteDraft};
ghost use Rattle.ele_model.specs.World.{is_draft};

use crate::files::Files;
use ele_moment::{FileId, NoMemory};

impl Files {
    /// Writes the bytes from the offset on into the file's draft. If the draft ends before the
    /// offset, zeros fill it up to there. If memory is refused, all is as it was.
    #[tactic(auto, using(std::proofs::lemmas::Bool::Decides::nat_tests, crate::proofs::Stock::draft_lives, crate::proofs::Drafts::wrote))]
    pub fn write(&mut self, file: FileId, offset: u64, bytes: &[u8]) -> Result<(), NoMemory>
        requires there { list_any (is_draft file) self.old.drafts ≡ true }
        requires fits { offset + length bytes.now ≤ longest_content }
        ensures ok { OnOk result
            (self.new ≡ changed_at self.old 0 (WriteDraft file offset bytes.now ∷ [])) }
        ensures err { OnErr result (self.new ≡ self.old) }
    {
        self.sessions
            .write_draft(&mut self.store, file, offset, bytes)
    }

    /// Sets the length of the file's draft to so many bytes; a draft of that length stays. If
    /// memory is refused, all is as it was.
    #[tactic(auto, using(std::proofs::lemmas::Bool::Decides::nat_tests, crate::proofs::Stock::draft_lives, crate::proofs::Drafts::length_is, crate::proofs::Rows::draft_found, crate::proofs::Drafts::cut))]
    pub fn truncate(&mut self, file: FileId, size: u64) -> Result<(), NoMemory>
        requires there { list_any (is_draft file) self.old.drafts ≡ true }
        requires fits { size ≤ longest_content }
        ensures idle { IsTrue (has_length self.old file size) → IsOk result }
        ensures ok { OnOk result
            (self.new ≡ changed_at self.old 0 (TruncateDraft file size ∷ [])) }
        ensures err { OnErr result (self.new ≡ self.old) }
    {
        self.sessions.truncate_draft(&mut self.store, file, size)
    }
}
