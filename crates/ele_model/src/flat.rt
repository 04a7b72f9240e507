//! The world as flat rows, as contracts describe it.
ghost use Rattle.std.specs.Prelude.{◌≡◌, IfOk, map};
ghost use Rattle.std.specs.List.{AllByRecursion};
ghost use Rattle.ele_usage.specs.Sums.{Fits};
ghost use Rattle.ele_model.specs.Restorable.{restorable, triple_of};
ghost use Rattle.ele_model.specs.Scan.{scan};
ghost use Rattle.ele_model.specs.Usage.{usages};

use crate::limits::{Counts, Limits};
use crate::list::{DeletedNameList, KeyList, triples_of};
use crate::rows::{
    DirectoryRow, DraftRow, FileRow, GroupRow, HandleRow, NameRow, Target, VersionRow,
};
use crate::{returning, scan, sums};
use ele_due::Key;
use ele_lists::ListOf;
use ele_moment::{DirId, Moment, Name, NoMemory};
use ele_policy::Kind;
use ele_usage::Usage;

/// All rows and counts of a world. Directories and files are in order of ids, names and groups in
/// order of making. Versions are in order of files and then of numbers, drafts in order of files,
/// and handles in order of numbers.
#[derive(Drop, PartialEq, Eq)]
pub struct Flat {
    pub now: Moment,
    pub directories: ListOf<DirectoryRow>,
    pub files: ListOf<FileRow>,
    pub names: ListOf<NameRow>,
    pub versions: ListOf<VersionRow>,
    pub drafts: ListOf<DraftRow>,
    pub handles: ListOf<HandleRow>,
    pub groups: ListOf<GroupRow>,
    pub made: Counts,
    pub limits: Limits,
}

impl Flat {
    /// Returns the keys of the versions that are due now, in order.
    ///
    /// `NoMemory` if memory is refused.
    /// Cost: grows with the versions times all rows of files, handles, names, versions and groups,
    /// which it scans for each version; takes memory for the keys.
    pub fn due(&self) -> Result<Vec<Key>, NoMemory>
        ensures { IfOk result (λ keys. keys.items ≡ scan self.entry.now) }
    {
        Ok(self.due_keys()?.into_vec())
    }

    /// Returns the keys of `due`, as the list that a reply holds.
    ///
    /// `NoMemory` if memory is refused.
    /// Cost: grows with the versions times all rows of files, handles, names, versions and groups,
    /// which it scans for each version; takes memory for the keys.
    pub fn due_keys(&self) -> Result<KeyList, NoMemory>
        ensures { IfOk result (λ keys. keys ≡ scan self.entry.now) }
    {
        scan::due(self)
    }

    /// Returns the restorable names, each with its directory and what it last meant. They are in
    /// order of directory and then of the bytes of the name.
    ///
    /// `NoMemory` if memory is refused.
    /// Cost: that of `deleted_names`, and a second copy of the names.
    pub fn restorable(&self) -> Result<Vec<(DirId, Name, Target)>, NoMemory>
        ensures { IfOk result (λ names. names.items ≡ map triple_of (restorable self.entry.now)) }
    {
        triples_of(&self.deleted_names()?)
    }

    /// Returns the names of `restorable`, as the list that a reply holds.
    ///
    /// `NoMemory` if memory is refused.
    /// Cost: grows with a sort of all names, which takes memory, and with the deleted ones times all
    /// rows of files, versions and names.
    pub fn deleted_names(&self) -> Result<DeletedNameList, NoMemory>
        ensures { IfOk result (λ names. names ≡ restorable self.entry.now) }
    {
        returning::restorable(self)
    }

    /// Returns what the files of each kind of policy use, in the order of `Kind`. The four sums are
    /// the files, their versions, the bytes of these, and the different blocks of versions and
    /// drafts. The caller knows that each sum is within 64 bits. It takes no memory, and looks at
    /// all rows for each slot.
    pub fn usage(&self) -> [Usage; 4]
        requires { AllByRecursion Fits (usages self.now) }
        ensures { result ≡ usages self.entry.now }
    {
        [
            sums::usage_of(self, Kind::One),
            sums::usage_of(self, Kind::All),
            sums::usage_of(self, Kind::Safe),
            sums::usage_of(self, Kind::Landmarks),
        ]
    }
}
