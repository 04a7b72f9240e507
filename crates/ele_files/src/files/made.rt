//! The files that are made of rows so far.
//! A contract sees the rows of these files and of their versions and drafts.
ghost use Rattle.std.specs.Prelude.{◌≡◌, ◌<◌, ◌≤◌, [], IfOk};
ghost use Rattle.std.specs.List.{AllByRecursion};
ghost use Rattle.ele_files.specs.Adding.{AreHandled, unopened_rows, with_next};

use crate::boxed::BoxedFile;
use crate::file::File;
use crate::files::Files;
use crate::files::next_file::NextFile;
use ele_blocks::{BlockStore, PlacedBlocks, laws};
use ele_inode_log::InodeLog;
use ele_model::{FileRow, HandleRow};
use ele_moment::NoMemory;
use ele_sessions::{Drafts, Sessions};
use std::alloc::Global;
use std::marker::Model;

/// Files with their versions and drafts; the handles come at the end.
#[derive(Drop)]
pub struct MadeFiles {
    pub files: Vec<BoxedFile>,
    pub drafts: Drafts,
    pub store: BlockStore,
    pub alloc: Global,
}

impl Model for MadeFiles {
    ghost use Rattle.ele_files.specs.Held.{Held};

    ghost Value = { Held };

    ghost use Rattle.ele_files.specs.Making.{made_of, IsMadeKept};

    ghost view = { made_of };

    ghost invariant = { IsMadeKept };
}

impl MadeFiles {
    /// Makes an empty list. It takes no memory.
    pub fn new(alloc: Global) -> MadeFiles
        ensures { result ≡ unopened_rows [] [] [] }
    {
        laws::stocks();
        MadeFiles {
            files: Vec::new(alloc),
            drafts: Drafts::new(alloc),
            store: BlockStore::new(alloc),
            alloc,
        }
    }

    /// Begins the next file, which has no version yet. It takes no memory.
    pub fn begin(self, row: &FileRow) -> NextFile
        requires next { 1 ≤ row.now.next }
        requires rises { AllByRecursion (λ file. file.id < row.now.id) self.files }
        ensures { result ≡ with_next self row.now }
    {
        laws::places();
        let MadeFiles {
            files,
            drafts,
            store,
            alloc,
        } = self;
        let file = File {
            id: row.id,
            next: row.next,
            log: InodeLog::new(alloc),
            policy: row.policy,
        };
        NextFile {
            files,
            drafts,
            store,
            alloc,
            file,
            placed: PlacedBlocks::new(alloc),
        }
    }

    /// Adds the handles, which write the drafts.
    #[tactic(auto, using(crate::proofs::Begun::orderly, crate::proofs::Begun::numbered))]
    pub fn finish(self, handles: &[HandleRow], opened: u64) -> Result<Files, NoMemory>
        requires { AreHandled self.drafts handles.now opened }
        ensures { IfOk result
            (λ files. files ≡ record self { handles = handles.now; opened = opened }) }
    {
        let MadeFiles {
            files,
            drafts,
            store,
            alloc,
        } = self;
        let sessions = Sessions::from_parts(alloc, drafts, handles, opened)?;
        Ok(Files {
            files,
            sessions,
            store,
            alloc,
        })
    }
}
