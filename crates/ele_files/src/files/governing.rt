//! The change of a file's policy.
//! A contract sees the rows of all files before and after.
ghost use Rattle.std.specs.Prelude.{◌≡◌, [], ◌∷◌};
ghost use Rattle.ele_files.specs.Held.{changed_at};
ghost use Rattle.ele_model.specs.Change.{SetFilePolicy};

use crate::files::{Files, place_of};
use ele_moment::FileId;
use ele_policy::Policy;

impl Files {
    /// Sets the policy of the file. A number that no file has does nothing.
    #[tactic(auto, using(std::proofs::lemmas::Bool::Decides::nat_tests, crate::proofs::Words::update_first_unfound, crate::proofs::Words::all_not_found, crate::proofs::Rows::file_row_found, crate::proofs::Rows::no_file))]
    pub fn set_policy(&mut self, file: FileId, policy: Policy)
        ensures { self.new ≡ changed_at self.old 0 (SetFilePolicy file policy ∷ []) }
    {
        if let Some(at) = place_of(&self.files, file) {
            self.files[at].get_mut().policy = policy;
        }
    }
}
