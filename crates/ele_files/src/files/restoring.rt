//! The end of a file's current version, and a new version of an older content.
//! A contract sees the rows of all files before and after.
ghost use Rattle.std.specs.Prelude.{◌≡◌, ◌<◌, ◌≤◌, ◌+◌, ◌^◌, false, [], ◌∷◌, IfOk, IsSome, OnOk, OnErr, find, length};
ghost use Rattle.std.specs.List.{AllByRecursion, list_any};
ghost use Rattle.ele_content.specs.Content.{content_of};
ghost use Rattle.ele_files.specs.Closing.{IsPast};
ghost use Rattle.ele_files.specs.Held.{Became, cells_of_version, current_ended};
ghost use Rattle.ele_model.specs.Change.{Append};
ghost use Rattle.ele_model.specs.World.{is_draft, is_version, next_of};

use crate::file::NewVersion;
use crate::files::{Files, place_of};
use ele_inode_log::Meter;
use ele_moment::{FileId, Moment, NoMemory, VersionNo};

impl Files {
    /// Ends the version before the file's next one now, unless it has ended or isn't held. It takes
    /// no memory.
    #[tactic(auto, using(std::proofs::lemmas::Bool::Decides::nat_tests, crate::proofs::Words::update_first_unfound, crate::proofs::Words::all_not_found, crate::proofs::Rows::version_none, crate::proofs::Rows::no_file))]
    pub fn end_current(&mut self, file: FileId, now: Moment)
        requires { AllByRecursion (IsPast now) self.old.versions }
        ensures { self.new ≡ current_ended self.old file now }
    {
        if let Some(at) = place_of(&self.files, file) {
            let held = self.files[at].get_mut();
            held.end_before(now);
        }
    }

    /// Makes a new version of the file with the content of the held version of that number, and
    /// returns its number and length. It opens and closes now, and the version before that ends.
    /// The file has no draft. The caller says whether the file is live; if it isn't, the new
    /// version also ends now. If memory is refused, all is as it was.
    #[tactic(auto, using(std::proofs::lemmas::Bool::Decides::nat_tests, crate::proofs::Openings::maps_seen, crate::proofs::Appends::lives, crate::proofs::Appends::not_missing, crate::proofs::Appends::not_lost))]
    pub fn restore(
        &mut self,
        file: FileId,
        number: VersionNo,
        now: Moment,
        is_live: bool,
    ) -> Result<NewVersion, NoMemory>
        requires held { IsSome (find (is_version file number) self.old.versions) }
        requires undrafted { list_any (is_draft file) self.old.drafts ≡ false }
        requires few { length self.old.versions + length self.old.drafts ≤ 2 ^ 50 }
        requires numbered { AllByRecursion (λ row. row.next < 2 ^ 62) self.old.files }
        requires past { AllByRecursion (IsPast now) self.old.versions }
        ensures number { IfOk result (λ made. made.number ≡ next_of self.old.files file) }
        ensures length { IfOk result
            (λ made. made.length ≡ length (content_of (cells_of_version self.old file number))) }
        ensures ok { OnOk result (Became self.old now file is_live
            (Append file now (cells_of_version self.old file number) ∷ []) self.new) }
        ensures err { OnErr result (self.new ≡ self.old) }
    {
        let Some(at) = place_of(&self.files, file) else {
            unreachable!()
        };
        let held = self.files[at].get_mut();
        held.log.reserve()?;
        let Some(row) = held.log.get(number, &mut Meter::new()) else {
            unreachable!()
        };
        let map = row.cells.copy(&mut self.store)?;
        Ok(held.append(now, now, is_live, map))
    }
}
