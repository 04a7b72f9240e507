//! Copies of contents into a caller's buffer.
//! A contract sees the copied bytes, and that nothing else was written.
ghost use Rattle.std.specs.Prelude.{◌≡◌, ◌<◌, ◌≤◌, ◌+◌, ◌-◌, ◌++◌, [], length, min, take, drop};
ghost use Rattle.ele_blocks.specs.Layout.{shown};
ghost use Rattle.ele_blocks.specs.LivesIn.{LivesIn};
ghost use Rattle.ele_blocks.specs.Stock.{StockLaws};
ghost use Rattle.ele_content.specs.Content.{content_of};
ghost use Rattle.ele_files.specs.Copied.{IsCopied};
ghost use Rattle.ele_files.specs.Held.{cells_of_draft, cells_of_version};

use crate::files::{Files, file_of};
use ele_blocks::{BlockMap, BlockStore};
use ele_inode_log::Meter;
use ele_moment::{FileId, VersionNo};

/// How many bytes a slot of a content has, unless it is the last one.
const SLOT: usize = 512;

/// The result of a copy.
#[derive(Clone, Copy)]
pub struct Copied {
    /// How many bytes the content has.
    pub length: u64,
    /// How many bytes were copied.
    pub count: u64,
}

// Copies bytes of a block after those that were copied, and returns how many.
fn put_rest(block: &[u8], skip: usize, into: &mut [u8], done: usize) -> usize
    requires skip { skip ≤ length block.now }
    requires done { done ≤ length into.old }
    ensures count { result ≡ min (length block.now - skip) (length into.old - done) }
    ensures bytes { into.new ≡ take done into.old ++ take result (drop skip block.now)
        ++ drop (done + result) into.old }
{
    let count = (block.len() - skip).min(into.len() - done);
    into[done..done + count].copy_from_slice(&block[skip..skip + count]);
    count
}

// Copies the bytes of the slots that fit, and returns how many.
fn copy_slots(store: &BlockStore, map: &BlockMap, offset: usize, into: &mut [u8]) -> usize
    requires laws { StockLaws }
    requires lives { LivesIn store.now map.now }
    requires within { offset < map.now.size }
    ensures count { result ≡ min (length into.old) (map.now.size - offset) }
    ensures bytes { into.new
        ≡ take result (drop offset (content_of (shown store.now map.now))) ++ drop result into.old }
{
    let first = offset / SLOT;
    let past = offset
        .saturating_add(into.len())
        .div_ceil(SLOT)
        .min(map.slots());
    let mut done = 0;
    for slot in first..past {
        let Some(cell) = map.cell(store, slot) else {
            unreachable!()
        };
        let skip = offset + done - SLOT * slot;
        done += put_rest(store.get(cell.1), skip, into, done);
    }
    done
}

// Copies the bytes of the map's content.
#[tactic(auto, using(crate::proofs::Reading::copied_by))]
fn copy_map(store: &BlockStore, map: &BlockMap, offset: u64, into: &mut [u8]) -> Copied
    requires laws { StockLaws }
    requires lives { LivesIn store.now map.now }
    ensures { IsCopied (content_of (shown store.now map.now)) offset into.old into.new result }
{
    let length = map.length();
    if offset >= length {
        return Copied { length, count: 0 };
    }
    let count = copy_slots(store, map, offset as usize, into);
    Copied {
        length,
        count: count as u64,
    }
}

// The result of a copy without bytes.
#[tactic(auto, using(crate::proofs::Reading::copied_by))]
fn nothing(into: &[u8], offset: u64) -> Copied
    ensures { IsCopied [] offset into.now into.now result }
{
    Copied {
        length: 0,
        count: 0,
    }
}

impl Files {
    /// Copies the bytes of the file's draft from the offset on, as many as fit, to the start of the
    /// caller's buffer. It copies none if the file has no draft.
    #[tactic(auto, using(std::proofs::lemmas::Bool::Decides::nat_tests, crate::proofs::Rows::draft_found, crate::proofs::Stock::draft_lives))]
    pub fn copy_draft(&self, file: FileId, offset: u64, into: &mut [u8]) -> Copied
        ensures { IsCopied (content_of (cells_of_draft self.now file)) offset
            into.old into.new result }
    {
        match self.sessions.draft(file) {
            Some(map) => copy_map(&self.store, map, offset, into),
            None => nothing(into, offset),
        }
    }

    /// Copies the bytes of the version in the same way; none if it isn't held.
    #[tactic(auto, using(std::proofs::lemmas::Bool::Decides::nat_tests, crate::proofs::Tagged::cells_none, crate::proofs::Tagged::cells_some, crate::proofs::Rows::version_none, crate::proofs::Stock::row_lives))]
    pub fn copy_version(
        &self,
        file: FileId,
        number: VersionNo,
        offset: u64,
        into: &mut [u8],
    ) -> Copied
        ensures { IsCopied (content_of (cells_of_version self.now file number)) offset
            into.old into.new result }
    {
        let Some(held) = file_of(&self.files, file) else {
            return nothing(into, offset);
        };
        match held.log.get(number, &mut Meter::new()) {
            Some(row) => copy_map(&self.store, &row.cells, offset, into),
            None => nothing(into, offset),
        }
    }
}
