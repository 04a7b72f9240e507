//! The events that ask, and other questions. None changes anything.
ghost use Rattle.std.specs.Prelude.{◌≡◌, IfOk, map};
ghost use Rattle.ele_events.specs.Does.{Does, DoesAtOnce, stat_told};
ghost use Rattle.ele_model.specs.CountsOf.{counts_of};
ghost use Rattle.ele_model.specs.Due.{is_due};
ghost use Rattle.ele_model.specs.Restorable.{restorable, triple_of};
ghost use Rattle.ele_model.specs.Scan.{scan, first_due};
ghost use Rattle.ele_model.specs.Usage.{usages};
ghost use Rattle.ele_model.specs.declared.event.Event.TheVariants as event;
ghost use Rattle.ele_model.specs.declared.reply.Reply.TheVariants.{Bytes, NameList, Rows};

use crate::Core;
use ele_events::{Halt, Stat};
use ele_model::{
    ByteList, Counts, DeletedNameList, DirId, FileId, GroupList, Key, KeyList, Name, NameList,
    NoMemory, PathAt, Refusal, Source, StampsList, TaggedPath, Target, Usage, VersionNo,
    triples_of,
};

impl Core {
    /// Returns the bytes of the version that the path and its tag mean, or of the handle's version
    /// or draft. Refused: `Future`, `NoEntry`, `NotDirectory`, `IsDirectory`, `NoVersion`,
    /// `Forgotten`; `NoHandle`.
    /// Cost: grows with the bytes, which take memory, the path's names or the logarithm of the
    /// handles, and the logarithms of files, versions or drafts. At a moment each look-up of a name
    /// also grows with the logarithm of older name rows.
    pub fn read(&self, source: &Source) -> Result<ByteList, Halt>
        ensures { Does Bytes self.now.world (event.Read source.now) result self.now.world }
    {
        ele_events::read(&self.state, source)
    }

    /// Returns what the path and its tag mean, when it was made, how long it is, and its policy.
    /// Refused: `Future`, `NoEntry`, `NotDirectory`, `NoVersion`, `Forgotten`, and `IsDirectory`
    /// for a number.
    /// Cost: grows with the path's names, each hashed, and the logarithms of the files and the
    /// file's versions. At a moment each look-up of a name also grows with the logarithm of older
    /// name rows.
    pub fn stat(&self, tagged: &TaggedPath) -> Result<Stat, Refusal>
        ensures { DoesAtOnce stat_told self.now.world (event.Stat tagged.now) result self.now.world }
    {
        ele_events::stat_at(&self.state, tagged)
    }

    /// Returns the held versions of the file that the path names, or named at its moment. Refused:
    /// `Future`, `NoEntry`, `NotDirectory`, `IsDirectory`.
    /// Cost: grows with the file's versions, which take memory in the answer, the path's names, and
    /// the logarithm of the files. At a moment each look-up of a name also grows with the logarithm
    /// of older name rows.
    pub fn versions(&self, at: &PathAt) -> Result<StampsList, Halt>
        ensures { Does Rows self.now.world (event.Versions at.now) result self.now.world }
    {
        ele_events::versions(&self.state, at)
    }

    /// Returns the names in the directory that the path names, or named at its moment. Refused:
    /// `Future`, `NoEntry`, `NotDirectory`.
    /// Cost: grows with all names that the directory ever had, a sort of those in the answer, which
    /// take memory, and the path's names. At a moment each look-up of a name also grows with the
    /// logarithm of older name rows.
    pub fn list(&self, at: &PathAt) -> Result<NameList, Halt>
        ensures { Does NameList self.now.world (event.List at.now) result self.now.world }
    {
        ele_events::list(&self.state, at)
    }

    /// Returns all groups with their files and marks, in order of making.
    ///
    /// `NoMemory` if memory is refused.
    /// Cost: grows with all groups, their files and their marks, which it copies.
    #[inline(never)]
    pub fn groups(&self) -> Result<GroupList, NoMemory>
        ensures { IfOk result (λ groups. groups ≡ self.now.world.groups) }
    {
        self.state.groups()
    }

    /// Returns what the files of each kind of policy use: four sums, in the order of `Kind`.
    /// Cost: constant time.
    pub fn usage(&self) -> [Usage; 4]
        ensures { result ≡ usages self.now.world }
    {
        self.state.usage()
    }

    /// Returns the restorable names, each with its directory and what it last meant. They are in
    /// order of directory and then of the bytes of the name.
    ///
    /// `NoMemory` if memory is refused.
    /// Cost: that of `deleted_names`, and a second copy of the names.
    pub fn restorable(&self) -> Result<Vec<(DirId, Name, Target)>, NoMemory>
        ensures { IfOk result (λ names. names.items ≡ map triple_of (restorable self.now.world)) }
    {
        triples_of(&self.deleted_names()?)
    }

    /// Returns the names of `restorable`, as the list that its reply holds.
    ///
    /// `NoMemory` if memory is refused.
    /// Cost: grows with all names ever made, a sort of the deleted ones, and for each of them the
    /// logarithms of files and versions; takes memory for the deleted names.
    #[inline(never)]
    pub fn deleted_names(&self) -> Result<DeletedNameList, NoMemory>
        ensures { IfOk result (λ names. names ≡ restorable self.now.world) }
    {
        self.state.restorable()
    }

    /// Returns whether the version is held and due now.
    /// Cost: the logarithms of files, the file's versions and queued keys, and the file's groups
    /// with their marks.
    pub fn is_due(&self, file: FileId, number: VersionNo) -> bool
        ensures { result ≡ is_due self.now.world file number }
    {
        self.state.is_due(file, number)
    }

    /// Returns the keys of the versions that are due now, in order of removal.
    ///
    /// `NoMemory` if memory is refused.
    /// Cost: grows with the keys in the answer, which take memory, and the logarithm of the queued
    /// keys.
    pub fn due(&self) -> Result<Vec<Key>, NoMemory>
        ensures { IfOk result (λ keys. keys.items ≡ scan self.now.world) }
    {
        Ok(self.due_keys()?.into_vec())
    }

    /// Returns the keys of `due`, as the list that its reply holds.
    ///
    /// `NoMemory` if memory is refused.
    /// Cost: grows with the keys in the answer, which take memory, and the logarithm of the queued
    /// keys.
    pub fn due_keys(&self) -> Result<KeyList, NoMemory>
        ensures { IfOk result (λ keys. keys ≡ scan self.now.world) }
    {
        self.state.due()
    }

    /// Returns the key of the version that is removed next, if one is due now.
    /// Cost: the logarithm of the queued keys.
    pub fn due_first(&self) -> Option<Key>
        ensures { result ≡ first_due self.now.world }
    {
        self.state.due_first()
    }

    /// Returns how many of each kind were ever made, as the limits count them: open drafts count as
    /// versions.
    /// Cost: constant time.
    pub fn counts(&self) -> Counts
        ensures { result ≡ counts_of self.now.world }
    {
        self.state.counts()
    }
}
