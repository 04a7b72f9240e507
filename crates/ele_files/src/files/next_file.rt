//! The next of the files that are made of rows.
//! A contract sees the rows of all files, and the row of the next one, which is the last of them.
ghost use Rattle.std.specs.Prelude.{◌≡◌, [], ◌∷◌, IfOk};
ghost use Rattle.ele_files.specs.Adding.{AreNextDrafts, AreNextVersions, IsNextDraft, IsNextVersion, with_drafts, with_versions};

use crate::boxed::BoxedFile;
use crate::file::File;
use crate::files::made::MadeFiles;
use crate::files::new_map::new_map;
use ele_blocks::{BlockStore, PlacedBlocks};
use ele_model::{DraftRow, VersionRow};
use ele_moment::NoMemory;
use ele_sessions::Drafts;
use std::alloc::Global;
use std::marker::Model;

/// The files before, and one that gets its versions and its draft, with the blocks of its slots.
#[derive(Drop)]
pub struct NextFile {
    pub files: Vec<BoxedFile>,
    pub drafts: Drafts,
    pub store: BlockStore,
    pub alloc: Global,
    pub file: File,
    pub placed: PlacedBlocks,
}

impl Model for NextFile {
    ghost use Rattle.ele_files.specs.Adding.{Growing};

    ghost Value = { Growing };

    ghost use Rattle.ele_files.specs.Making.{growing_of, IsGrowing};

    ghost view = { growing_of };

    ghost invariant = { IsGrowing };
}

impl NextFile {
    // Adds a version of the file.
    #[tactic(auto, using(crate::proofs::Making::blocks_there, crate::proofs::Making::same_bytes, crate::proofs::Making::new_lives))]
    fn add_version(self, row: &VersionRow) -> Result<NextFile, NoMemory>
        requires { IsNextVersion self row.now }
        ensures { IfOk result (λ next. next ≡ with_versions self (row.now ∷ [])) }
    {
        let NextFile {
            files,
            drafts,
            mut store,
            alloc,
            mut file,
            mut placed,
        } = self;
        let map = new_map(alloc, &mut store, &placed, row.cells.as_slice())?;
        placed.add(&store, &map)?;
        file.push(row, map)?;
        Ok(NextFile {
            files,
            drafts,
            store,
            alloc,
            file,
            placed,
        })
    }

    // Adds a draft of the file.
    #[tactic(auto, using(crate::proofs::Making::blocks_there, crate::proofs::Making::same_bytes, crate::proofs::Making::new_lives))]
    fn add_draft(self, row: &DraftRow) -> Result<NextFile, NoMemory>
        requires { IsNextDraft self row.now }
        ensures { IfOk result (λ next. next ≡ with_drafts self (row.now ∷ [])) }
    {
        let NextFile {
            files,
            mut drafts,
            mut store,
            alloc,
            file,
            mut placed,
        } = self;
        let map = new_map(alloc, &mut store, &placed, row.cells.as_slice())?;
        placed.add(&store, &map)?;
        drafts.push(file.id, file.next, row.opened, row.changed, map)?;
        Ok(NextFile {
            files,
            drafts,
            store,
            alloc,
            file,
            placed,
        })
    }

    /// Adds versions of the file.
    pub fn add_versions(self, rows: &[VersionRow]) -> Result<NextFile, NoMemory>
        requires { AreNextVersions self rows.now }
        ensures { IfOk result (λ next. next ≡ with_versions self rows.now) }
    {
        let mut next = self;
        for row in rows {
            next = next.add_version(row)?;
        }
        Ok(next)
    }

    /// Adds drafts of the file.
    pub fn add_drafts(self, rows: &[DraftRow]) -> Result<NextFile, NoMemory>
        requires { AreNextDrafts self rows.now }
        ensures { IfOk result (λ next. next ≡ with_drafts self rows.now) }
    {
        let mut next = self;
        for row in rows {
            next = next.add_draft(row)?;
        }
        Ok(next)
    }

    /// Ends the next file.
    pub fn done(self) -> Result<MadeFiles, NoMemory>
        ensures { IfOk result (λ made. made ≡ self.held) }
    {
        let NextFile {
            mut files,
            drafts,
            store,
            alloc,
            file,
            placed: _placed,
        } = self;
        files.push(BoxedFile::new(alloc, file)?)?;
        Ok(MadeFiles {
            files,
            drafts,
            store,
            alloc,
        })
    }
}
