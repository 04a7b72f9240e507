//! Writes and truncates of drafts. The calls by file expect a draft; those by handle check
//! everything. A contract sees the list of drafts, in which one has another map.
ghost use Rattle.std.specs.Prelude.{◌≡◌, ◌≤◌, ◌+◌, [], None, OnOk, OnErr, IfErr, IsOk, IsSome, IsTrue, length, true};
ghost use Rattle.std.specs.List.{list_any};
ghost use Rattle.std.specs.Option.{ForSome};
ghost use Rattle.ele_blocks.specs.Changes.{IsWritten};
ghost use Rattle.ele_blocks.specs.LivesIn.{LivesIn};
ghost use Rattle.ele_content.specs.Content.{longest_content};
ghost use Rattle.ele_sessions.specs.Changes.{write_refusal, truncate_refusal, Redrafts, Refits, Writes, Truncates, Stays, has_length};
ghost use Rattle.ele_sessions.specs.Faults.{refusal_of};
ghost use Rattle.ele_sessions.specs.Orderly.{AreOrderly};
ghost use Rattle.ele_sessions.specs.Sessions.{draft_by, draft_of, handle_file, is_draft};

use crate::changing::{truncate_draft, write_draft};
use crate::entries::written_by;
use crate::fault::SessionFault;
use crate::sessions::Sessions;
use ele_blocks::BlockStore;
use ele_content::is_too_long;
use ele_moment::{FileId, Handle, NoMemory};

impl Sessions {
    /// Writes the bytes from the offset on into the file's draft. If the draft ends before the
    /// offset, zeros fill it up to there. The draft is marked as changed, even by equal bytes or by
    /// none. If memory is refused, sessions and store are as they were.
    #[tactic(auto, using(crate::proofs::Found::rises_in))]
    pub fn write_draft(
        &mut self,
        store: &mut BlockStore,
        file: FileId,
        offset: u64,
        bytes: &[u8],
    ) -> Result<(), NoMemory>
        requires there { list_any (is_draft file) self.old.drafts ≡ true }
        requires lives { ForSome (draft_of self.old file) (λ draft. LivesIn store.old draft.layout) }
        requires fits { offset + length bytes.now ≤ longest_content }
        ensures writes { OnOk result (Redrafts self.old self.new file
            (λ was. IsWritten store.old store.new was.number offset bytes.now was.layout)) }
        ensures orderly { AreOrderly self.old }
        ensures err { OnErr result (Stays store.old store.new self.old self.new) }
    {
        write_draft(&mut self.drafts, store, file, offset, bytes)?;
        Ok(())
    }

    /// Sets the length of the file's draft to so many bytes, and marks it as changed. If it has
    /// that length, nothing changes. If memory is refused, sessions and store are as they were.
    #[tactic(auto, using(crate::proofs::Found::rises_in))]
    pub fn truncate_draft(
        &mut self,
        store: &mut BlockStore,
        file: FileId,
        size: u64,
    ) -> Result<(), NoMemory>
        requires there { list_any (is_draft file) self.old.drafts ≡ true }
        requires lives { ForSome (draft_of self.old file) (λ draft. LivesIn store.old draft.layout) }
        requires fits { size ≤ longest_content }
        ensures idle { IsTrue (has_length size (draft_of self.old file)) → IsOk result }
        ensures refits { OnOk result (Refits store.old store.new self.old self.new file size) }
        ensures orderly { AreOrderly self.old }
        ensures err { OnErr result (Stays store.old store.new self.old self.new) }
    {
        truncate_draft(&mut self.drafts, store, file, size)?;
        Ok(())
    }

    /// Writes the bytes from the offset on into the handle's draft. If the draft ends before the
    /// offset, zeros fill it up to there. Equal bytes also mark the draft as changed. An empty
    /// write changes nothing, whatever the offset.
    ///
    /// In this order: `NoHandle` if no open handle has that number, `NotWriter` if it reads a
    /// version, `TooBig` if the bytes would end past 1,048,576, `NoMemory` if memory is refused.
    /// Each fault leaves all as it was.
    #[tactic(auto, using(crate::proofs::Found::rises_in))]
    pub fn write(
        &mut self,
        store: &mut BlockStore,
        handle: Handle,
        offset: u64,
        bytes: &[u8],
    ) -> Result<(), SessionFault>
        requires { ForSome (draft_by self.old handle) (λ draft. LivesIn store.old draft.layout) }
        ensures allowed { OnOk result
            (write_refusal self.old.handles handle offset bytes.now ≡ None) }
        ensures fault { IfErr result (λ fault. refusal_of fault
            ≡ write_refusal self.old.handles handle offset bytes.now) }
        ensures idle { IsSome (handle_file self.old.handles handle)
            → bytes.now ≡ [] → IsOk result }
        ensures writes { OnOk result
            (Writes store.old store.new self.old self.new handle offset bytes.now) }
        ensures orderly { AreOrderly self.old }
        ensures err { OnErr result (Stays store.old store.new self.old self.new) }
    {
        let file = written_by(&self.handles, handle)?;
        if bytes.is_empty() {
            return Ok(());
        }
        if is_too_long(offset, bytes.len() as u64) {
            return Err(SessionFault::TooBig);
        }
        self.write_draft(store, file, offset, bytes)?;
        Ok(())
    }

    /// Sets the length of the handle's draft to so many bytes, and marks it as changed. If it has
    /// that length, nothing changes.
    ///
    /// In this order: `NoHandle` if no open handle has that number, `NotWriter` if it reads a
    /// version, `TooBig` for more than 1,048,576 bytes, `NoMemory` if memory is refused. Each fault
    /// leaves all as it was.
    #[tactic(auto, using(crate::proofs::Found::rises_in))]
    pub fn truncate(
        &mut self,
        store: &mut BlockStore,
        handle: Handle,
        size: u64,
    ) -> Result<(), SessionFault>
        requires { ForSome (draft_by self.old handle) (λ draft. LivesIn store.old draft.layout) }
        ensures allowed { OnOk result
            (truncate_refusal self.old.handles handle size ≡ None) }
        ensures fault { IfErr result (λ fault. refusal_of fault
            ≡ truncate_refusal self.old.handles handle size) }
        ensures idle { IsTrue (has_length size (draft_by self.old handle))
            → size ≤ longest_content → IsOk result }
        ensures truncates { OnOk result
            (Truncates store.old store.new self.old self.new handle size) }
        ensures orderly { AreOrderly self.old }
        ensures err { OnErr result (Stays store.old store.new self.old self.new) }
    {
        let file = written_by(&self.handles, handle)?;
        if is_too_long(0, size) {
            return Err(SessionFault::TooBig);
        }
        self.truncate_draft(store, file, size)?;
        Ok(())
    }
}
