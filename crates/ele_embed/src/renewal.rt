//! Stores whose worlds get fresh numbers. A contract sees the world before and after.
ghost use Rattle.std.specs.Prelude.{◌≡◌, IfErr, IfOk, OnErr, OnOk};
ghost use Rattle.ele_embed.specs.Embedding.{world_in};
ghost use Rattle.ele_embed.specs.Renewal.{IsNotRenewed, renewed_store};
ghost use Rattle.ele_renewal.specs.Across.{directory_across, file_across, version_across};
ghost use Rattle.ele_renewal.specs.Renewed.{IsClosed};

use crate::Store;
use ele_keeper::{RenewalError, renewed, rows_of};
use ele_model::{DirId, FileId, NoMemory, VersionNo};
use ele_renewal::{directory_across, file_across, version_across};
use ele_runs::Said;

impl Store {
    /// Gives the store's world fresh numbers, and keeps its past, as `renew` of `ele_renewal` says. A
    /// history begins anew there, with one folded entry, and nothing else of it is kept. The last answer
    /// is dropped, because its numbers are the old ones; the text stays.
    ///
    /// `HasJournal` if it has a journal, `Open` if a handle is open. `Stop` for memory, or with
    /// `HistoryFull` if the limits allow a history no entry. Each error leaves the store as it was.
    /// Cost: grows with the rows and cells times the logarithm of their number, and with the bytes; takes
    /// memory for two more copies of them.
    #[tactic(auto, using(ele_keeper::proofs::Journaling::world_with))]
    pub fn renew(&mut self) -> Result<(), RenewalError>
        ensures ok { OnOk result (self.new ≡ renewed_store self.old) }
        ensures closed { OnOk result (IsClosed (world_in self.old.state)) }
        ensures unchanged { OnErr result (self.new ≡ self.old) }
        ensures err { IfErr result (IsNotRenewed self.old.state) }
    {
        if self.keeper.journal.is_some() {
            return Err(RenewalError::HasJournal);
        }
        self.keeper.bare = renewed(self.alloc, &self.keeper.bare)?;
        self.said = Said::Nothing;
        Ok(())
    }

    /// Returns the number that the directory will have after `renew`. None if there is no such directory.
    ///
    /// `NoMemory` if memory is refused.
    /// Cost: that of a copy of all rows and bytes, for each call.
    pub fn directory_across(&self, id: DirId) -> Result<Option<DirId>, NoMemory>
        ensures { IfOk result (λ fresh. fresh ≡ directory_across (world_in self.now.state) id) }
    {
        let flat = rows_of(self.keeper.core())?;
        Ok(directory_across(&flat, id))
    }

    /// Returns the number that the file will have after `renew`. None if there is no such file.
    ///
    /// `NoMemory` if memory is refused.
    /// Cost: that of a copy of all rows and bytes, for each call.
    pub fn file_across(&self, id: FileId) -> Result<Option<FileId>, NoMemory>
        ensures { IfOk result (λ fresh. fresh ≡ file_across (world_in self.now.state) id) }
    {
        let flat = rows_of(self.keeper.core())?;
        Ok(file_across(&flat, id))
    }

    /// Returns the number that the file's version will have after `renew`. None if it isn't held.
    ///
    /// `NoMemory` if memory is refused.
    /// Cost: that of a copy of all rows and bytes, for each call.
    pub fn version_across(
        &self,
        file: FileId,
        number: VersionNo,
    ) -> Result<Option<VersionNo>, NoMemory>
        ensures { IfOk result
            (λ fresh. fresh ≡ version_across (world_in self.now.state) file number) }
    {
        let flat = rows_of(self.keeper.core())?;
        Ok(version_across(&flat, file, number))
    }
}
