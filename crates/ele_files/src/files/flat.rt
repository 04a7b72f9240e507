//! Files that are made of the rows of a world.
//! A contract sees the rows of all files.
ghost use Rattle.std.specs.Prelude.{◌≡◌, ◌≤◌, IfOk, length};
ghost use Rattle.ele_files.specs.Adding.{AreWhole, IsNextFile, own_length, unopened_rows, with_drafts, with_next, with_versions};
ghost use Rattle.ele_files.specs.Held.{rows_of};
ghost use Rattle.ele_model.specs.Start.{IsStart};

use crate::files::Files;
use crate::files::made::MadeFiles;
use ele_model::{DraftRow, FileRow, Flat, VersionRow};
use ele_moment::{FileId, NoMemory};
use std::alloc::Global;

// How many of the first versions are of the file.
fn own_versions(rows: &[VersionRow], file: FileId) -> usize
    ensures within { result ≤ length rows.now }
    ensures count { result ≡ own_length (λ row. row.file) file rows.now }
{
    let mut count = 0;
    for row in rows {
        if row.file != file {
            return count;
        }
        count += 1;
    }
    count
}

// How many of the first drafts are of the file.
fn own_drafts(rows: &[DraftRow], file: FileId) -> usize
    ensures within { result ≤ length rows.now }
    ensures count { result ≡ own_length (λ row. row.file) file rows.now }
{
    let mut count = 0;
    for row in rows {
        if row.file != file {
            return count;
        }
        count += 1;
    }
    count
}

// Adds a file with all its versions and its draft.
fn add_file(
    made: MadeFiles,
    file: &FileRow,
    versions: &[VersionRow],
    drafts: &[DraftRow],
) -> Result<MadeFiles, NoMemory>
    requires { IsNextFile made file.now versions.now drafts.now }
    ensures { IfOk result (λ more. more ≡ (with_drafts
        (with_versions (with_next made file.now) versions.now) drafts.now).held) }
{
    let next = made.begin(file);
    let next = next.add_versions(versions)?;
    let next = next.add_drafts(drafts)?;
    let made = next.done()?;
    Ok(made)
}

// Makes the files of the rows.
#[tactic(auto, using(crate::proofs::Flat::none_made))]
fn make_files(
    alloc: Global,
    files: &[FileRow],
    versions: &[VersionRow],
    drafts: &[DraftRow],
) -> Result<MadeFiles, NoMemory>
    requires { AreWhole files.now versions.now drafts.now }
    ensures { IfOk result
        (λ made. made ≡ unopened_rows files.now versions.now drafts.now) }
{
    let mut made = MadeFiles::new(alloc);
    let mut version = 0;
    let mut draft = 0;
    for file in files {
        let versions_left = &versions[version..];
        let drafts_left = &drafts[draft..];
        let closed = own_versions(versions_left, file.id);
        let unsaved = own_drafts(drafts_left, file.id);
        made = add_file(
            made,
            file,
            &versions_left[..closed],
            &drafts_left[..unsaved],
        )?;
        version += closed;
        draft += unsaved;
    }
    Ok(made)
}

impl Files {
    /// Makes the files of these rows, with their contents: versions, drafts and handles. Slots that
    /// one version wrote in one file are one block again.
    ///
    /// `NoMemory` if memory is refused.
    /// Cost: grows with the rows and all bytes of contents, which it copies once for each block; a
    /// look-up by hash for each slot.
    #[tactic(auto, using(crate::proofs::Flat::whole_rows, crate::proofs::Flat::handled_rows))]
    pub fn from_flat(alloc: Global, flat: &Flat) -> Result<Files, NoMemory>
        requires { IsStart flat.now }
        ensures { IfOk result (λ files. files ≡ rows_of flat.entry.now) }
    {
        let (files, versions) = (flat.files.as_slice(), flat.versions.as_slice());
        let made = make_files(alloc, files, versions, flat.drafts.as_slice())?;
        let files = made.finish(flat.handles.as_slice(), flat.made.handles)?;
        Ok(files)
    }
}
