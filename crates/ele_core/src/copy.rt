//! Reads that copy a content from its blocks into the caller's buffer. They change nothing.
ghost use Rattle.ele_core.specs.Copies.{Copies};
ghost use Rattle.ele_model.specs.declared.event.Source.TheVariants as source;

use crate::Core;
use ele_model::{Handle, Reads, Refusal, Source, TaggedPath};
use ele_state::Copied;

impl Core {
    // Copies bytes of the version or draft that the handle reads.
    fn copy_handle(&self, handle: Handle, offset: u64, into: &mut [u8]) -> Result<Copied, Refusal>
        ensures { Copies self.now.world (source.Of handle) offset into.old into.new result }
    {
        let reads = match self.state.reads_by(handle) {
            Ok(reads) => reads,
            Err(refusal) => return Err(refusal),
        };
        Ok(self.state.copy_bytes(reads, offset, into))
    }

    // Copies bytes of the version that the path and its tag mean.
    fn copy_version(
        &self,
        tagged: &TaggedPath,
        offset: u64,
        into: &mut [u8],
    ) -> Result<Copied, Refusal>
        ensures { Copies self.now.world (source.Tagged tagged.now) offset into.old into.new result }
    {
        let (file, info) = match self.state.version_at(tagged) {
            Ok(found) => found,
            Err(refusal) => return Err(refusal),
        };
        let reads = Reads::Version(file, info.number);
        Ok(self.state.copy_bytes(reads, offset, into))
    }

    /// Copies the bytes that `read` returns, from the offset on, into the caller's buffer, as many
    /// as fit. It takes no memory. Refused: as `read`, and then nothing is copied.
    /// Cost: grows with the bytes copied, the path's names or the logarithm of the handles, and the
    /// logarithms of files, versions or drafts. At a moment each look-up of a name also grows with
    /// the logarithm of older name rows.
    #[inline(never)]
    pub fn copy(&self, source: &Source, offset: u64, into: &mut [u8]) -> Result<Copied, Refusal>
        ensures { Copies self.now.world source.now offset into.old into.new result }
    {
        match source {
            Source::Of(handle) => self.copy_handle(*handle, offset, into),
            Source::Tagged(tagged) => self.copy_version(tagged, offset, into),
        }
    }
}
