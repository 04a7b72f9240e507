//! The files of one world, with their drafts and handles.
//! A contract sees the flat rows of all of them.
ghost use Rattle.std.specs.Prelude.{◌≡◌, ◌<◌, ◌≤◌, ◌+◌, ◌-◌, ◌^◌, true, [], ◌∷◌, All, OnOk, OnErr, IfOk, IfNone, IfSome, IsOkUnless, IsErrOf, Some, length, find, is_some, not, position, if◌then◌else◌};
ghost use Rattle.std.specs.List.{AllByRecursion, list_any};
ghost use Rattle.std.specs.Option.{ForSome, option_copied, option_map, option_map_or};
ghost use Rattle.ele_content.specs.Content.{content_of};
ghost use Rattle.ele_content.specs.Place.{different, is_place};
ghost use Rattle.ele_files.specs.Held.{Held, GotFile, changed_at, opened_by, without};
ghost use Rattle.ele_files.specs.Inside.{is_id};
ghost use Rattle.ele_inode_log.specs.Rows.{has_number};
ghost use Rattle.ele_lists.specs.Lists.{AllLater};
ghost use Rattle.ele_model.specs.Change.{OpenHandle};
ghost use Rattle.ele_model.specs.declared.rows.Reads.TheVariants.{Version};
ghost use Rattle.ele_model.specs.FileView.{is_version_of};
ghost use Rattle.ele_model.specs.Usage.{places};
ghost use Rattle.ele_policy.specs.Policy.{kind_of};
ghost use Rattle.ele_model.specs.World.{policy_of, next_of, is_version, is_draft};

mod asking;
mod closing;
mod copies;
mod dropping;
mod flat;
mod governing;
mod made;
pub mod neighbours;
mod new_map;
pub mod newer;
mod next_file;
pub mod reading;
mod restoring;
mod saving;
mod usage;
mod versions;
mod writing;

use crate::boxed::BoxedFile;
use crate::file::File;
use ele_blocks::{BlockMap, BlockStore, laws};
use ele_inode_log::{InodeLog, Meter};
use ele_moment::{FileId, Handle, Moment, NoMemory, VersionNo};
use ele_policy::{Kind, Policy};
use ele_sessions::Sessions;
use std::alloc::Global;
use std::marker::Model;

/// What a removed version leaves.
#[derive(Clone, Copy)]
pub struct RemovedVersion {
    /// The kind of the file's policy.
    pub kind: Kind,
    /// How many bytes the version had.
    pub bytes: u64,
    /// Whether the file now holds no version.
    pub was_last: bool,
}

/// Files by id, each with its held versions; drafts and handles; and the store of all their blocks.
#[derive(Drop)]
pub struct Files {
    files: Vec<BoxedFile>,
    sessions: Sessions,
    store: BlockStore,
    alloc: Global,
}

impl Model for Files {
    ghost use Rattle.ele_files.specs.Held.{Held};

    ghost Value = { Held };

    ghost use Rattle.ele_files.specs.Inside.{held_of, IsKept};

    ghost view = { held_of };

    ghost invariant = { IsKept };
}

// The place of the file of that number.
fn place_of(files: &[BoxedFile], id: FileId) -> Option<usize>
    requires { AllLater (λ x y. x.id < y.id) files.now }
    ensures { result ≡ position (is_id id) files.now }
{
    match ele_rows::place_of(files, id.0) {
        Ok(at) => Some(at),
        Err(_gap) => None,
    }
}

// The file of that number.
#[tactic(auto, using(std::proofs::lemmas::Bool::Decides::nat_tests, crate::proofs::Rows::no_file, crate::proofs::Words::find_position))]
fn file_of(files: &[BoxedFile], id: FileId) -> Option<&File>
    requires { AllLater (λ x y. x.id < y.id) files.now }
    ensures { option_copied result ≡ find (is_id id) files.now }
{
    let at = place_of(files, id)?;
    Some(files[at].get())
}

// The first map of a new draft of the file: that of the version before the next one, or the empty
// map if that version isn't held.
fn first_map<'a>(file: &'a File, empty: &'a BlockMap) -> &'a BlockMap
    ensures { result.now ≡ option_map_or (λ row. row.cells)
        (find (has_number (file.now.next - 1)) file.now.log.rows) empty.now }
{
    match file.log.get(file.next.before(), &mut Meter::new()) {
        Some(row) => &row.cells,
        None => empty,
    }
}

impl Files {
    /// Makes an empty list of files. It takes no memory.
    pub fn new(alloc: Global) -> Files
        ensures { result
            ≡ record { files = []; versions = []; drafts = []; handles = []; opened = 0 } }
    {
        // The laws hold without a condition; the invariant keeps them.
        laws::stocks();
        Files {
            files: Vec::new(alloc),
            sessions: Sessions::new(alloc),
            store: BlockStore::new(alloc),
            alloc,
        }
    }

    /// Adds a file of that number and policy, with an empty first version that opens and closes
    /// now. The number is greater than those before. If memory is refused, all is as it was.
    pub fn add(&mut self, id: FileId, policy: Policy, now: Moment) -> Result<(), NoMemory>
        requires { AllByRecursion (λ row. row.id < id) self.old.files }
        ensures ok { OnOk result (GotFile self.old id policy now self.new) }
        ensures err { OnErr result (self.new ≡ self.old) }
    {
        self.files.reserve(1)?;
        let mut log = InodeLog::new(self.alloc);
        log.reserve()?;
        let mut file = File {
            id,
            policy,
            next: VersionNo(1),
            log,
        };
        let empty = BlockMap::new(self.alloc);
        let _first = file.append(now, now, true, empty);
        let boxed = BoxedFile::new(self.alloc, file)?;
        self.files.push_reserved(boxed);
        Ok(())
    }

    /// Opens a handle that writes the file, which exists. It joins the file's draft, or starts one
    /// with the content of the version before the next. If memory is refused, all is as it was.
    #[tactic(auto, using(std::proofs::lemmas::Bool::Decides::nat_tests, crate::proofs::Rows::next_found, crate::proofs::Openings::maps_seen, crate::proofs::Openings::first_lives))]
    pub fn open_write(&mut self, file: FileId, now: Moment) -> Result<Handle, NoMemory>
        requires there { 0 < next_of self.old.files file }
        requires few { length self.old.versions + length self.old.drafts ≤ 2 ^ 50 }
        requires room { self.old.opened < 2 ^ 63 }
        ensures handle { IfOk result (λ handle. handle ≡ self.old.opened + 1) }
        ensures ok { OnOk result (self.new ≡ opened_by self.old file now) }
        ensures err { OnErr result (self.new ≡ self.old) }
    {
        let Some(held) = file_of(&self.files, file) else {
            unreachable!()
        };
        let empty = BlockMap::new(self.alloc);
        let map = first_map(held, &empty);
        self.sessions
            .open_write(&mut self.store, file, held.next, now, map)
    }

    /// Opens a handle that reads the version, which is held. If memory is refused, all is as it
    /// was.
    pub fn open_read(&mut self, file: FileId, number: VersionNo) -> Result<Handle, NoMemory>
        requires held { list_any (is_version file number) self.old.versions ≡ true }
        requires room { self.old.opened < 2 ^ 63 }
        ensures handle { IfOk result (λ handle. handle ≡ self.old.opened + 1) }
        ensures ok { OnOk result (self.new ≡ changed_at self.old 0
            (OpenHandle (self.old.opened + 1) (Version file number) ∷ [])) }
        ensures err { OnErr result (self.new ≡ self.old) }
    {
        self.sessions.open_read(file, number)
    }

    /// Removes the version, and returns what it leaves. None if it isn't held.
    #[tactic(auto, using(std::proofs::lemmas::Bool::Decides::nat_tests, crate::proofs::Rows::version_none, crate::proofs::Rows::no_file, crate::proofs::Words::remove_first_unfound, crate::proofs::Words::all_not_found))]
    pub fn remove_version(
        &mut self,
        file: FileId,
        number: VersionNo,
        meter: &mut Meter,
    ) -> Option<RemovedVersion>
        requires { meter.old < 2 ^ 62 }
        ensures bytes { option_map (λ removed. removed.bytes) result
            ≡ option_map (λ row. length (content_of row.cells))
            (find (is_version file number) self.old.versions) }
        ensures kind { IfSome result (λ removed.
            option_map kind_of (policy_of self.old.files file) ≡ Some removed.kind) }
        ensures last { IfSome result (λ removed.
            not removed.was_last ≡ list_any (is_version_of file) self.new.versions) }
        ensures rows { self.new ≡ without self.old file number }
        ensures read { meter.new ≡ meter.old + (if is_some result then 1 else 0) }
    {
        let at = place_of(&self.files, file)?;
        let held = self.files[at].get_mut();
        let row = held.log.remove(number, meter)?;
        let (kind, was_last) = (held.policy.kind(), held.log.is_empty());
        let bytes = row.cells.length();
        row.cells.give_up(&mut self.store);
        Some(RemovedVersion {
            kind,
            bytes,
            was_last,
        })
    }

    /// Returns how many different blocks the versions and drafts have. A slot that several have
    /// from one writer is one block.
    #[tactic(auto, using(std::proofs::lemmas::Bool::Decides::nat_tests, crate::proofs::Copies::places_shown))]
    pub fn blocks(&self) -> u64
        ensures { result ≡ different is_place (places self.now.versions self.now.drafts) }
    {
        self.store.distinct()
    }
}
