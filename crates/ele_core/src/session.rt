//! The events of handles and drafts.
ghost use Rattle.ele_events.specs.Does.{Does, DoesAtOnce, done};
ghost use Rattle.ele_model.specs.declared.event.Event.TheVariants as event;
ghost use Rattle.ele_model.specs.declared.reply.Reply.TheVariants as reply;

use crate::Core;
use ele_events::Halt;
use ele_model::{ByteList, Handle, Path, Refusal, TaggedPath, VersionNo};

impl Core {
    /// Opens a handle that writes the file at the path. Refused: `NoEntry`, `NotDirectory`,
    /// `IsDirectory`, `Full`.
    /// Cost: grows with the path's names and the logarithms of files, versions and drafts; a first
    /// writer also takes a count for each 8 KiB, and may move all drafts. Its memory is a handle,
    /// and for a first writer a draft, which grows with the content by 4 bytes for each 8 KiB.
    #[tactic(auto, using(crate::proofs::Reached::does))]
    pub fn open_write(&mut self, path: &Path) -> Result<Handle, Halt>
        ensures { Does reply.Handle self.old.world (event.OpenWrite path.now) result self.new.world }
    {
        ele_events::open_write(&mut self.state, path)
    }

    /// Opens a handle that reads the version that the path and its tag mean. Refused: as `stat`,
    /// and `Full`.
    /// Cost: amortized, grows with the path's names, the file's groups with their marks, and the
    /// logarithms of files, versions and queued keys; takes memory for a handle. At a moment each
    /// look-up of a name also grows with the logarithm of older name rows.
    #[tactic(auto, using(crate::proofs::Reached::does))]
    pub fn open_read(&mut self, tagged: &TaggedPath) -> Result<Handle, Halt>
        ensures { Does reply.Handle self.old.world (event.OpenRead tagged.now) result self.new.world }
    {
        ele_events::open_read(&mut self.state, tagged)
    }

    /// Writes the bytes into the handle's draft, from that offset in bytes on. Refused: `NoHandle`,
    /// `NotWriter`, `TooBig`.
    /// Cost: grows with the blocks of 512 bytes that it writes or fills with zeros, which take
    /// memory, and the logarithms of handles, drafts and files.
    #[tactic(auto, using(crate::proofs::Reached::does))]
    pub fn write(&mut self, handle: Handle, offset: u64, bytes: &ByteList) -> Result<(), Halt>
        ensures { Does done
            self.old.world (event.Write handle offset bytes.now) result self.new.world }
    {
        ele_events::write(&mut self.state, handle, offset, bytes)
    }

    /// Sets the length of the handle's draft to so many bytes. Refused: `NoHandle`, `NotWriter`,
    /// `TooBig`.
    /// Cost: grows with the blocks of 512 bytes that it cuts or fills with zeros, and the
    /// logarithms of handles, drafts and files; new blocks take memory.
    #[tactic(auto, using(crate::proofs::Reached::does))]
    pub fn truncate(&mut self, handle: Handle, size: u64) -> Result<(), Halt>
        ensures { Does done self.old.world (event.Truncate handle size) result self.new.world }
    {
        ele_events::truncate(&mut self.state, handle, size)
    }

    /// Closes the handle; the last writer of a changed draft makes it the file's next version, and
    /// `close` returns its number. Refused: `NoHandle`.
    /// Cost: the logarithms of handles, drafts and files, and up to all handles and drafts move by
    /// one place. If it makes a version, or closes a reader, the time also grows with the file's
    /// groups and the logarithms of versions and queued keys; new keys take memory. If it drops an
    /// unchanged draft, the time also grows with the content, by a count for each 8 KiB, and with
    /// what `clean_one` takes for a dropped file.
    #[tactic(auto, using(crate::proofs::Reached::does))]
    pub fn close(&mut self, handle: Handle) -> Result<Option<VersionNo>, Halt>
        ensures { Does reply.Closed self.old.world (event.Close handle) result self.new.world }
    {
        ele_events::close(&mut self.state, handle)
    }

    /// Ends the handle, which writes a file, and makes no version: if no other handle writes the
    /// file, its draft is discarded with all that was written to it. A file without live name,
    /// version and draft is then dropped. It takes no memory. Refused: `NoHandle`, `NotWriter`.
    /// Cost: that of a `close` that drops an unchanged draft.
    #[tactic(auto, using(crate::proofs::Reached::does_at_once))]
    pub fn abandon(&mut self, handle: Handle) -> Result<(), Refusal>
        ensures { DoesAtOnce done self.old.world (event.Abandon handle) result self.new.world }
    {
        ele_events::abandon(&mut self.state, handle)
    }
}
