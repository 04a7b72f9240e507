//! The changes of a content: a write, and a truncate.
//! A contract sees the new cells as a definition over the old ones, and that the owners of leaves
//! which other maps share stay.
ghost use Rattle.std.specs.Prelude.{◌≡◌, ◌<◌, ◌≤◌, ◌+◌, ◌-◌, ◌*◌, ◌/◌, ◌^◌, OnOk, OnErr, IfOk, max, min, length, vec_len};
ghost use Rattle.ele_content.specs.Content.{content_after_write, content_of, longest_content, slot_count};
ghost use Rattle.ele_blocks.specs.Changes.{IsWritten, IsResized};
ghost use Rattle.ele_blocks.specs.Layout.{shown};
ghost use Rattle.ele_blocks.specs.LivesIn.{LivesIn};
ghost use Rattle.ele_blocks.specs.Pieces.{pieces_between};
ghost use Rattle.ele_blocks.specs.Renewed.{IsReplaced};

use crate::block::Block;
use crate::leaf::LEAF;
use crate::map::BlockMap;
use crate::patch::{patched, pieces};
use crate::slot::SLOT;
use crate::store::BlockStore;
use crate::store::leaves::Stage;
use ele_moment::{NoMemory, VersionNo};

/// New bytes for slots: how many slots before are kept, the first new slot, and the bytes of each
/// new one.
#[derive(Drop)]
struct Change {
    writer: VersionNo,
    kept: usize,
    first: usize,
    staged: Vec<Block>,
}

/// A run of leaves to replace. The change meets the slots of the leaves from the first to before
/// the second number.
#[derive(Clone, Copy)]
struct Run {
    from: usize,
    met: usize,
    to: usize,
}

// The leaves that a change meets from the first slot on, which ends in the leaf before `past`. If
// nothing after them is kept, the run has all leaves from there on.
fn run_of(first: usize, past: usize, kept: usize, leaves: usize) -> Run
    requires order { first ≤ kept }
    requires within { kept ≤ 16 * leaves }
    requires behind { first ≤ 16 * past }
    requires small { leaves < 2 ^ 56 }
    ensures from { result.from ≡ first / 16 }
    ensures met { result.met ≡ min past leaves }
    ensures to_end { kept ≤ 16 * result.met → result.to ≡ leaves }
    ensures to_met { 16 * result.met < kept → result.to ≡ result.met }
    ensures starts { result.from ≤ result.met }
    ensures goes { result.met ≤ result.to }
    ensures ends { result.to ≤ leaves }
{
    let met = past.min(leaves);
    let to = if kept <= LEAF * met { leaves } else { met };
    Run {
        from: first / LEAF,
        met,
        to,
    }
}

impl BlockMap {
    /// Writes bytes from the offset on. If the content ends before the offset, zeros fill it up to
    /// there. Each slot with filled or written bytes gets a new block and the writer. All other
    /// slots stay, and all other maps, even those that shared the replaced blocks. If no bytes are
    /// written within the content, nothing changes. If memory is refused, map and store are as they
    /// were; the store holds at most 2^32 leaves.
    #[tactic(auto, using(crate::proofs::Cited::reach, crate::proofs::Cited::write_change, crate::proofs::Cited::written_nothing))]
    pub fn write(
        &mut self,
        store: &mut BlockStore,
        writer: VersionNo,
        offset: u64,
        bytes: &[u8],
    ) -> Result<(), NoMemory>
        requires lives { LivesIn store.old self.old }
        requires fits { offset + length bytes.now ≤ longest_content }
        ensures written { OnOk result
            (IsWritten store.old store.new writer offset bytes.now self.old self.new) }
        ensures err { OnErr result (self.new ≡ self.old) }
        ensures err_store { OnErr result (store.new ≡ store.old) }
    {
        let length = self.length();
        let end = offset + bytes.len() as u64;
        let from = offset.min(length);
        if from == end {
            // The write changes no byte.
            return Ok(());
        }
        let kept = self.slots();
        let first = from as usize / SLOT;
        let staged = self.patches(store, first, offset as usize, bytes)?;
        let change = Change {
            writer,
            kept,
            first,
            staged,
        };
        let size = length.max(end);
        self.replace(store, change, size)?;
        Ok(())
    }

    // The new bytes of each slot, from the first up to the end of the write.
    #[tactic(auto, using(crate::proofs::Lemmas::piece_more))]
    fn patches(
        &self,
        store: &BlockStore,
        first: usize,
        offset: usize,
        bytes: &[u8],
    ) -> Result<Vec<Block>, NoMemory>
        requires lives { LivesIn store.now self.now }
        requires fits { offset + length bytes.now ≤ longest_content }
        requires starts { 512 * first ≤ offset }
        ensures { let content = content_of (shown store.now self.now) in
            let after = content_after_write content offset bytes.now in
            let past = slot_count (offset + length bytes.now) in
            IfOk result (λ staged. staged.items ≡ pieces_between first past after) }
    {
        let past = (offset + bytes.len()).div_ceil(SLOT);
        let mut staged = Vec::with_capacity(self.alloc, past.saturating_sub(first))?;
        for slot in first..past {
            let old = self.bytes_at(store, slot);
            staged.push(patched(self.alloc, old, slot, offset, bytes)?)?;
        }
        Ok(staged)
    }

    /// Sets the length of the content in bytes. Zeros fill a longer content, and each slot with
    /// such zeros gets a new block and the writer. A shorter content loses its last slots, and a
    /// slot that is cut gets a new block and the writer. All other slots stay, and all other maps.
    /// If memory is refused, map and store are as they were.
    pub fn truncate(
        &mut self,
        store: &mut BlockStore,
        writer: VersionNo,
        size: u64,
    ) -> Result<(), NoMemory>
        requires lives { LivesIn store.old self.old }
        requires fits { size ≤ longest_content }
        ensures resized { OnOk result
            (IsResized store.old store.new writer size self.old self.new) }
        ensures err { OnErr result (self.new ≡ self.old) }
        ensures err_store { OnErr result (store.new ≡ store.old) }
    {
        let length = self.length();
        if size > length {
            self.write(store, writer, size, &[])?;
        } else if size < length {
            self.cut(store, writer, size as usize)?;
        }
        Ok(())
    }

    // Cuts the content to fewer bytes. If memory is refused, map and store are as they were.
    fn cut(
        &mut self,
        store: &mut BlockStore,
        writer: VersionNo,
        size: usize,
    ) -> Result<(), NoMemory>
        requires lives { LivesIn store.old self.old }
        requires shorter { size < self.old.size }
        ensures resized { OnOk result
            (IsResized store.old store.new writer size self.old self.new) }
        ensures err { OnErr result (self.new ≡ self.old) }
        ensures err_store { OnErr result (store.new ≡ store.old) }
    {
        let first = size / SLOT;
        let kept = size.div_ceil(SLOT);
        let last = self.bytes_at(store, first);
        let staged = pieces(self.alloc, &last[..size - SLOT * first])?;
        let change = Change {
            writer,
            kept,
            first,
            staged,
        };
        self.replace(store, change, size as u64)?;
        Ok(())
    }

    // Keeps the first slots, and puts new blocks after them. New leaves replace those that this
    // meets, since other maps may own the old ones. If memory is refused, map and store are as they
    // were.
    fn replace(&mut self, store: &mut BlockStore, change: Change, size: u64) -> Result<(), NoMemory>
        requires lives { LivesIn store.old self.old }
        requires within { change.first ≤ change.kept }
        requires kept { change.kept ≤ slot_count self.old.size }
        requires behind { change.first + vec_len change.staged < change.kept
            → change.kept ≡ slot_count self.old.size }
        requires short { size ≤ longest_content }
        requires count { slot_count size ≡ max change.kept (change.first + vec_len change.staged) }
        ensures size { OnOk result (self.new.size ≡ size) }
        ensures replaced { OnOk result (IsReplaced store.old store.new change.writer change.first
            change.kept change.staged.items self.old self.new) }
        ensures err { OnErr result (self.new ≡ self.old) }
        ensures err_store { OnErr result (store.new ≡ store.old) }
    {
        let Change {
            writer,
            kept,
            first,
            staged,
        } = change;
        let leaves = self.list.as_slice().len();
        let past = (first + staged.len()).div_ceil(LEAF);
        let run = run_of(first, past, kept, leaves);
        let Run { from, met, to } = run;
        self.list.reserve(self.alloc, past.max(leaves))?;
        let mut window = store.slots_in(&self.list.as_slice()[from..met])?;
        window.truncate(kept - LEAF * from);
        let stage = Stage {
            window,
            first: first - LEAF * from,
            writer,
            staged,
        };
        let now = store.renew(&self.list.as_slice()[from..to], stage)?;
        let count = from + now.len() + (leaves - to);
        self.list.lay(size, from, &now, count);
        Ok(())
    }
}
