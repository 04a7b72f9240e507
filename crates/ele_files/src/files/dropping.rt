//! The drop of a file without versions and draft.
//! A contract sees the rows of all files before and after.
ghost use Rattle.std.specs.Prelude.{◌≡◌, ◌<◌, true, vec_len};
ghost use Rattle.std.specs.List.{list_any, remove};
ghost use Rattle.ele_files.specs.Held.{is_bare, without_file};
ghost use Rattle.ele_model.specs.FileView.{is_version_of};

use crate::boxed::BoxedFile;
use crate::files::{Files, file_of, place_of};
use ele_moment::FileId;

// Removes the file at that place.
fn take_out(files: &mut Vec<BoxedFile>, at: usize)
    requires { at < vec_len files.old }
    ensures { files.new.items ≡ remove files.old.items at }
{
    let _file = files.remove(at);
}

impl Files {
    // Whether a version of the file is held.
    #[tactic(auto, using(std::proofs::lemmas::Bool::Decides::nat_tests, crate::proofs::Drops::any_held, crate::proofs::Drops::unheld))]
    fn has_version(&self, file: FileId) -> bool
        ensures { result ≡ list_any (is_version_of file) self.now.versions }
    {
        match file_of(&self.files, file) {
            Some(held) => !held.log.is_empty(),
            None => false,
        }
    }

    /// Returns whether the file has neither a held version nor a draft.
    pub fn is_bare(&self, file: FileId) -> bool
        ensures { result ≡ is_bare self.now file }
    {
        !self.has_version(file) && !self.has_draft(file)
    }

    /// Removes the row of a file without versions and draft. A number that no file has does
    /// nothing.
    #[tactic(auto, using(std::proofs::lemmas::Bool::Decides::nat_tests, crate::proofs::Drops::rows_left, crate::proofs::Words::remove_first_none))]
    pub fn drop_file(&mut self, file: FileId)
        requires { is_bare self.old file ≡ true }
        ensures { self.new ≡ without_file self.old file }
    {
        if let Some(at) = place_of(&self.files, file) {
            take_out(&mut self.files, at);
        }
    }
}
