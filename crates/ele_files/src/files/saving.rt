//! A new version with given bytes.
//! A contract sees the rows of all files before and after.
ghost use Rattle.std.specs.Prelude.{◌≡◌, ◌<◌, ◌≤◌, ◌^◌, false, [], ◌∷◌, IfOk, OnOk, OnErr, length};
ghost use Rattle.std.specs.List.{AllByRecursion, list_any};
ghost use Rattle.ele_content.specs.Content.{longest_content};
ghost use Rattle.ele_files.specs.Closing.{IsPast};
ghost use Rattle.ele_files.specs.Held.{Became};
ghost use Rattle.ele_model.specs.Change.{Append};
ghost use Rattle.ele_model.specs.Step.{cells_by};
ghost use Rattle.ele_model.specs.World.{is_draft, next_of};

use crate::file::NewVersion;
use crate::files::{Files, place_of};
use ele_blocks::BlockMap;
use ele_moment::{FileId, Moment, NoMemory};

impl Files {
    /// Makes a new version of the file with these bytes, and returns its number and length. It
    /// opens and closes now, and the version before that ends. The file exists, and has no draft.
    /// The caller says whether the file is live; if it isn't, the new version also ends now. If
    /// memory is refused, all is as it was.
    #[tactic(auto, using(std::proofs::lemmas::Bool::Decides::nat_tests, crate::proofs::Rows::no_file, crate::proofs::Rows::next_found))]
    pub fn save(
        &mut self,
        file: FileId,
        bytes: &[u8],
        now: Moment,
        is_live: bool,
    ) -> Result<NewVersion, NoMemory>
        requires there { 0 < next_of self.old.files file }
        requires undrafted { list_any (is_draft file) self.old.drafts ≡ false }
        requires short { length bytes.now ≤ longest_content }
        requires numbered { AllByRecursion (λ row. row.next < 2 ^ 62) self.old.files }
        requires past { AllByRecursion (IsPast now) self.old.versions }
        ensures number { IfOk result (λ made. made.number ≡ next_of self.old.files file) }
        ensures length { IfOk result (λ made. made.length ≡ length bytes.now) }
        ensures ok { OnOk result (Became self.old now file is_live
            (Append file now (cells_by (next_of self.old.files file) bytes.now) ∷ []) self.new) }
        ensures err { OnErr result (self.new ≡ self.old) }
    {
        let Some(at) = place_of(&self.files, file) else {
            unreachable!()
        };
        let held = self.files[at].get_mut();
        held.log.reserve()?;
        let mut map = BlockMap::new(self.alloc);
        map.write(&mut self.store, held.next, 0, bytes)?;
        Ok(held.append(now, now, is_live, map))
    }
}
