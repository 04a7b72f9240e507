//! Questions about versions.
//! A contract sees each answer as a look-up in the rows.
ghost use Rattle.std.specs.Prelude.{◌≡◌, ◌<◌, ◌≤◌, ◌+◌, ◌^◌, IfOk, OnOk, filter, find, map, is_some, if◌then◌else◌};
ghost use Rattle.std.specs.Option.{option_map};
ghost use Rattle.std.specs.Result.{result_map_both};
ghost use Rattle.ele_content.specs.Content.{content_of};
ghost use Rattle.ele_files.specs.Held.{cells_of_version};
ghost use Rattle.ele_files.specs.Meant.{stamps_in};
ghost use Rattle.ele_model.specs.FileView.{is_version_of};
ghost use Rattle.ele_model.specs.Tagged.{had_life, version_meant};
ghost use Rattle.ele_model.specs.Told.{info_of};
ghost use Rattle.ele_model.specs.World.{is_version, next_of};

use crate::file::File;
use crate::files::{Files, file_of};
use crate::meant::info_of;
use ele_inode_log::Meter;
use ele_lists::{ByteList, ListOf};
use ele_model::{Refusal, StampsList, Tag, VersionInfo};
use ele_moment::{FileId, Moment, NoMemory, VersionNo};
use std::alloc::Global;

impl Files {
    /// Returns the version's number, its moments and its length in bytes. None if it isn't held.
    #[tactic(auto, using(std::proofs::lemmas::Bool::Decides::nat_tests, crate::proofs::Tagged::stamps_shown, crate::proofs::Rows::version_none))]
    pub fn info(&self, file: FileId, number: VersionNo) -> Option<VersionInfo>
        ensures { result
            ≡ option_map info_of (find (is_version file number) self.now.versions) }
    {
        let held = file_of(&self.files, file)?;
        let row = held.log.get(number, &mut Meter::new())?;
        Some(info_of(row))
    }

    /// Returns the file's version that the tag means; without one that is the version before the
    /// next. Refused: `NoVersion` for a number that no version got. `Forgotten` if it isn't held
    /// any more, with the last held number before it.
    #[tactic(auto, using(std::proofs::lemmas::Bool::Decides::nat_tests, crate::proofs::Rows::next_found, crate::proofs::Tagged::meant_shown))]
    pub fn version_meant(&self, file: FileId, tag: Tag) -> Result<VersionInfo, Refusal>
        requires { 0 < next_of self.now.files file }
        ensures { result ≡ result_map_both info_of (λ refusal. refusal)
            (version_meant self.now.files self.now.versions file tag) }
    {
        let Some(held) = file_of(&self.files, file) else {
            unreachable!()
        };
        held.meant(tag)
    }

    /// Returns the file's version that lived at the moment. None if it isn't held.
    #[tactic(auto, using(std::proofs::lemmas::Bool::Decides::nat_tests, crate::proofs::Tagged::none_lived, crate::proofs::Tagged::at_shown, crate::proofs::Tagged::told_found, crate::proofs::Tagged::forgotten_none))]
    pub fn version_at(&self, file: FileId, moment: Moment) -> Option<VersionInfo>
        ensures { result
            ≡ option_map info_of (find (had_life file moment) self.now.versions) }
    {
        let held = file_of(&self.files, file)?;
        match held.living(moment) {
            Ok(info) => Some(info),
            Err(_refusal) => None,
        }
    }

    /// Returns the bytes of the version, or no bytes if it isn't held.
    #[tactic(auto, using(std::proofs::lemmas::Bool::Decides::nat_tests, crate::proofs::Tagged::cells_none, crate::proofs::Tagged::cells_some, crate::proofs::Rows::version_none, crate::proofs::Stock::row_lives))]
    pub fn version_content(&self, file: FileId, number: VersionNo) -> Result<ByteList, NoMemory>
        ensures { IfOk result
            (λ bytes. bytes ≡ content_of (cells_of_version self.now file number)) }
    {
        let Some(held) = file_of(&self.files, file) else {
            return Ok(ListOf::new(self.alloc));
        };
        match held.log.get(number, &mut Meter::new()) {
            Some(row) => {
                let bytes = row.cells.content(&self.store)?;
                Ok(ListOf::from_vec(bytes))
            }
            None => Ok(ListOf::new(self.alloc)),
        }
    }

    /// Returns the infos of all held versions of the file, by number.
    #[tactic(auto, using(std::proofs::lemmas::Bool::Decides::nat_tests, crate::proofs::Words::all_found, crate::proofs::Tagged::list_shown, crate::proofs::Tagged::none_shown))]
    pub fn stamps_of_file(&self, file: FileId) -> Result<StampsList, NoMemory>
        ensures { IfOk result
            (λ list. list ≡ map info_of (filter (is_version_of file) self.now.versions)) }
    {
        match file_of(&self.files, file) {
            Some(held) => {
                let list = log_stamps(self.alloc, held)?;
                Ok(ListOf::from_vec(list))
            }
            None => Ok(ListOf::new(self.alloc)),
        }
    }
}

// The infos of all rows of the file's log.
fn log_stamps(alloc: Global, file: &File) -> Result<Vec<VersionInfo>, NoMemory>
    ensures { IfOk result (λ list. list.items ≡ map stamps_in file.now.log.rows) }
{
    let mut list = Vec::with_capacity(alloc, file.log.len())?;
    for row in file.log.rows() {
        list.push(info_of(row))?;
    }
    Ok(list)
}
