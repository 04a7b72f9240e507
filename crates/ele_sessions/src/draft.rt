//! A file's draft: the map of its content, and whether it was changed.
//! A contract sees its fields, and the map as its layout.
ghost use Rattle.std.specs.Prelude.{◌≡◌, ◌≤◌, ◌+◌, true, OnOk, OnErr, length};
ghost use Rattle.ele_content.specs.Content.{longest_content};
ghost use Rattle.ele_blocks.specs.Changes.{IsWritten, IsResized};
ghost use Rattle.ele_blocks.specs.LivesIn.{LivesIn};

use ele_blocks::{BlockMap, BlockStore};
use ele_moment::{Moment, NoMemory, VersionNo};

/// The unsaved content of a file.
#[derive(Drop)]
pub struct Draft {
    pub number: VersionNo,
    pub opened: Moment,
    pub map: BlockMap,
    pub changed: bool,
}

impl Draft {
    /// Writes the bytes, and sets `changed`. If memory is refused, draft and store are as they
    /// were.
    pub fn write(
        &mut self,
        store: &mut BlockStore,
        offset: u64,
        bytes: &[u8],
    ) -> Result<(), NoMemory>
        requires lives { LivesIn store.old self.old.map }
        requires fits { offset + length bytes.now ≤ longest_content }
        ensures draft { OnOk result
            (self.new ≡ record self.old { map = self.new.map; changed = true }) }
        ensures written { OnOk result (IsWritten store.old store.new
            self.old.number offset bytes.now self.old.map self.new.map) }
        ensures err { OnErr result (self.new ≡ self.old) }
        ensures err_store { OnErr result (store.new ≡ store.old) }
    {
        self.map.write(store, self.number, offset, bytes)?;
        self.changed = true;
        Ok(())
    }

    /// Sets the length of the content to so many bytes, and sets `changed`. If memory is refused,
    /// draft and store are as they were.
    pub fn truncate(&mut self, store: &mut BlockStore, size: u64) -> Result<(), NoMemory>
        requires lives { LivesIn store.old self.old.map }
        requires fits { size ≤ longest_content }
        ensures draft { OnOk result
            (self.new ≡ record self.old { map = self.new.map; changed = true }) }
        ensures resized { OnOk result (IsResized store.old store.new
            self.old.number size self.old.map self.new.map) }
        ensures err { OnErr result (self.new ≡ self.old) }
        ensures err_store { OnErr result (store.new ≡ store.old) }
    {
        self.map.truncate(store, self.number, size)?;
        self.changed = true;
        Ok(())
    }
}
