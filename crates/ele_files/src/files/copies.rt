//! Plain copies of the rows.
//! A contract sees each as the list of the rows.
ghost use Rattle.std.specs.Prelude.{◌≡◌, ◌++◌, IfOk, OnOk};
ghost use Rattle.std.specs.List.{AllByRecursion};
ghost use Rattle.ele_blocks.specs.Layout.{shown};
ghost use Rattle.ele_blocks.specs.LivesIn.{LivesIn};
ghost use Rattle.ele_blocks.specs.Stock.{StockLaws};
ghost use Rattle.ele_files.specs.Inside.{IsFileKept, rows_in};

use crate::file::File;
use crate::files::Files;
use ele_blocks::{BlockMap, BlockStore};
use ele_lists::ListOf;
use ele_model::{Cell, DraftRow, FileRow, HandleRow, VersionRow};
use ele_moment::NoMemory;
use std::alloc::Global;

impl Files {
    /// Returns a copy of the files' rows, by id.
    pub fn file_rows(&self) -> Result<ListOf<FileRow>, NoMemory>
        ensures { IfOk result (λ rows. rows ≡ self.now.files) }
    {
        let mut rows = Vec::with_capacity(self.alloc, self.files.len())?;
        for file in &self.files {
            let file = file.get();
            rows.push(FileRow {
                id: file.id,
                policy: file.policy,
                next: file.next,
            })?;
        }
        Ok(ListOf::from_vec(rows))
    }

    /// Returns a copy of the versions' rows, by file and number.
    pub fn version_rows(&self) -> Result<ListOf<VersionRow>, NoMemory>
        ensures { IfOk result (λ rows. rows ≡ self.now.versions) }
    {
        let mut rows = Vec::new(self.alloc);
        for file in &self.files {
            copy_log(self.alloc, &self.store, file.get(), &mut rows)?;
        }
        Ok(ListOf::from_vec(rows))
    }

    /// Returns a copy of the drafts' rows, by file.
    pub fn draft_rows(&self) -> Result<ListOf<DraftRow>, NoMemory>
        ensures { IfOk result (λ rows. rows ≡ self.now.drafts) }
    {
        let mut rows = Vec::with_capacity(self.alloc, self.sessions.drafts_open())?;
        for place in 0..self.sessions.drafts_open() {
            let Some(draft) = self.sessions.draft_at(place) else {
                unreachable!()
            };
            let (file, opened, changed) = draft;
            let Some(map) = self.sessions.draft(file) else {
                unreachable!()
            };
            let cells = copy_cells(self.alloc, &self.store, map)?;
            rows.push(DraftRow {
                file,
                opened,
                cells,
                changed,
            })?;
        }
        Ok(ListOf::from_vec(rows))
    }

    /// Returns a copy of the handles' rows, by number.
    pub fn handle_rows(&self) -> Result<ListOf<HandleRow>, NoMemory>
        ensures { IfOk result (λ rows. rows ≡ self.now.handles) }
    {
        let rows = Vec::from_slice(self.alloc, self.sessions.handles())?;
        Ok(ListOf::from_vec(rows))
    }
}

// The cells of the map, with bytes of their own.
fn copy_cells(alloc: Global, store: &BlockStore, map: &BlockMap) -> Result<ListOf<Cell>, NoMemory>
    requires laws { StockLaws }
    requires lives { LivesIn store.now map.now }
    ensures { IfOk result (λ cells. cells ≡ shown store.now map.now) }
{
    let mut cells = Vec::with_capacity(alloc, map.slots())?;
    for slot in 0..map.slots() {
        let Some(cell) = map.cell(store, slot) else {
            unreachable!()
        };
        let (writer, block) = cell;
        let bytes = ListOf::from_vec(Vec::from_slice(alloc, store.get(block))?);
        cells.push(Cell { writer, bytes })?;
    }
    Ok(ListOf::from_vec(cells))
}

// Adds copies of the file's rows.
fn copy_log(
    alloc: Global,
    store: &BlockStore,
    file: &File,
    rows: &mut Vec<VersionRow>,
) -> Result<(), NoMemory>
    requires laws { StockLaws }
    requires kept { IsFileKept file.now }
    requires lives { AllByRecursion (λ row. LivesIn store.now row.cells) file.now.log.rows }
    ensures { OnOk result (rows.new.items ≡ rows.old.items ++ rows_in store.now file.now) }
{
    for row in file.log.rows() {
        let cells = copy_cells(alloc, store, &row.cells)?;
        rows.push(VersionRow {
            file: file.id,
            number: row.number,
            opened: row.opened,
            closed: row.closed,
            ended: row.ended,
            cells,
        })?;
    }
    Ok(())
}
