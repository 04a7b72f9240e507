//! What one file uses. A contract sees sums over the file's versions, and how many different places
//! these and its draft have.
ghost use Rattle.std.specs.Prelude.{◌≡◌, ℕ, ◌<◌, ◌≤◌, ◌^◌, [], IfOk, OnOk, filter, length};
ghost use Rattle.std.specs.List.{AllByRecursion};
ghost use Rattle.ele_blocks.specs.Layout.{shown};
ghost use Rattle.ele_blocks.specs.LivesIn.{LivesIn};
ghost use Rattle.ele_blocks.specs.Stock.{StockLaws};
ghost use Rattle.ele_content.specs.Place.{different, is_place};
ghost use Rattle.ele_files.specs.Inside.{IsFileKept};
ghost use Rattle.ele_files.specs.Met.{Meets, log_bytes, log_places};
ghost use Rattle.ele_model.specs.FileView.{is_version_of};
ghost use Rattle.ele_model.specs.FileUsage.{file_usage};
ghost use Rattle.ele_model.specs.Usage.{bytes_in, places, places_from};
ghost use Rattle.ele_model.specs.World.{is_draft};

use crate::file::File;
use crate::files::{Files, file_of};
use ele_blocks::{BlockMap, BlockStore};
use ele_model::Usage;
use ele_moment::{FileId, NoMemory};
use std::collections::HashSet;

// Adds the slots of the map to the set.
fn meet(met: &mut HashSet<(usize, u64)>, store: &BlockStore, map: &BlockMap) -> Result<(), NoMemory>
    requires laws { StockLaws }
    requires lives { LivesIn store.now map.now }
    ensures { OnOk result ((file : ℕ) → Meets file met.old.keys met.new.keys
        (places_from file 0 (shown store.now map.now))) }
{
    for slot in 0..map.slots() {
        let Some(cell) = map.cell(store, slot) else {
            unreachable!()
        };
        let (writer, _block) = cell;
        let _new = met.insert((slot, writer.0))?;
    }
    Ok(())
}

// Adds the slots of all versions in the file's log to the set.
fn meet_log(
    met: &mut HashSet<(usize, u64)>,
    store: &BlockStore,
    file: &File,
) -> Result<(), NoMemory>
    requires laws { StockLaws }
    requires kept { IsFileKept file.now }
    requires lives { AllByRecursion (λ row. LivesIn store.now row.cells) file.now.log.rows }
    ensures { OnOk result ((id : ℕ) → Meets id met.old.keys met.new.keys
        (log_places store.now file.now.log.rows id)) }
{
    for row in file.log.rows() {
        meet(met, store, &row.cells)?;
    }
    Ok(())
}

// How many bytes the versions in the file's log have.
fn log_bytes(file: &File) -> u64
    requires kept { IsFileKept file.now }
    requires few { log_bytes file.now.log.rows < 2 ^ 64 }
    ensures { result ≡ log_bytes file.now.log.rows }
{
    let mut bytes = 0;
    for row in file.log.rows() {
        bytes += row.cells.length();
    }
    bytes
}

// How many versions a file has, and how many bytes these have.
#[derive(Clone, Copy)]
struct OwnVersions {
    count: u64,
    bytes: u64,
}

impl Files {
    // Adds the slots of the file's versions to the set, and counts these versions and their bytes.
    #[tactic(auto, using(std::proofs::lemmas::Bool::Decides::nat_tests, crate::proofs::Words::all_found, crate::proofs::Stock::logs_live, crate::proofs::Copies::own_count, crate::proofs::Copies::own_few, crate::proofs::Copies::own_bytes, crate::proofs::Tagged::none_shown))]
    fn meet_versions(
        &self,
        met: &mut HashSet<(usize, u64)>,
        file: FileId,
    ) -> Result<OwnVersions, NoMemory>
        requires few { length self.now.versions ≤ 2 ^ 40 }
        ensures met { OnOk result (Meets file met.old.keys met.new.keys
            (places (filter (is_version_of file) self.now.versions) [])) }
        ensures count { IfOk result
            (λ own. own.count ≡ length (filter (is_version_of file) self.now.versions)) }
        ensures bytes { IfOk result
            (λ own. own.bytes ≡ bytes_in (filter (is_version_of file) self.now.versions)) }
    {
        let Some(held) = file_of(&self.files, file) else {
            return Ok(OwnVersions { count: 0, bytes: 0 });
        };
        meet_log(met, &self.store, held)?;
        Ok(OwnVersions {
            count: held.log.len() as u64,
            bytes: log_bytes(held),
        })
    }

    // Adds the slots of the file's draft to the set, if it has one.
    #[tactic(auto, using(std::proofs::lemmas::Bool::Decides::nat_tests, crate::proofs::Stock::draft_lives))]
    fn meet_draft(&self, met: &mut HashSet<(usize, u64)>, file: FileId) -> Result<(), NoMemory>
        ensures { OnOk result (Meets file met.old.keys met.new.keys
            (places [] (filter (is_draft file) self.now.drafts))) }
    {
        match self.sessions.draft(file) {
            Some(map) => meet(met, &self.store, map),
            None => Ok(()),
        }
    }

    /// Returns what the file uses: one file, its held versions and their bytes, and how many
    /// different blocks these and its draft have. `NoMemory` if memory for the set of blocks is
    /// refused. It looks at each slot of each of the file's versions.
    pub fn usage_of(&self, file: FileId) -> Result<Usage, NoMemory>
        requires few { length self.now.versions ≤ 2 ^ 40 }
        ensures { IfOk result
            (λ usage. usage ≡ file_usage self.now.versions self.now.drafts file) }
    {
        let mut met = HashSet::new(self.alloc);
        let own = self.meet_versions(&mut met, file)?;
        self.meet_draft(&mut met, file)?;
        Ok(Usage {
            files: 1,
            versions: own.count,
            bytes: own.bytes,
            blocks: met.len() as u64,
        })
    }
}
