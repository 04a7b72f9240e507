//! The restorable names.
ghost use Rattle.std.specs.Prelude.{◌≡◌, ◌-◌, IfOk};
ghost use Rattle.ele_model.specs.Restorable.{may_return, nameless, restorable};
ghost use Rattle.ele_model.specs.World.{is_held, next_of};
ghost use Rattle.ele_state.specs.Inside.{world_of, IsSound};

use crate::State;
use crate::rows::Rows;
use ele_model::{DeletedNameList, FileId, NoMemory, Target, VersionNo, deleted_names};

// Whether the file's last version is held.
#[tactic(auto, using(crate::proofs::Words::nat_tests, crate::proofs::Revived::unheld, crate::proofs::Revived::no_next, crate::proofs::Revived::stamped, crate::proofs::ClosedSteps::number_told))]
fn has_last_version(rows: &Rows, file: FileId) -> bool
    requires { IsSound rows.now }
    ensures { result ≡ is_held (world_of rows.now) file (next_of rows.now.files.files file - 1) }
{
    let Some(next) = rows.files.next_of(file) else {
        return false;
    };
    rows.files.info(file, next.before()).is_some()
}

impl State {
    /// Returns whether the target may have a name again: a directory without a name, or a file
    /// whose last version is held.
    pub fn may_return(&self, target: &Target) -> bool
        ensures { result ≡ may_return self.now.world target.now }
    {
        match *target {
            Target::File(file) => has_last_version(&self.rows, file),
            Target::Directory(id) => !self.rows.names.dir_live(id),
        }
    }

    /// Returns the number of the file's last version; 0 if there is no such file.
    #[tactic(auto, using(crate::proofs::Words::nat_tests, crate::proofs::Revived::no_next, crate::proofs::ClosedSteps::number_told))]
    pub fn last_number(&self, file: FileId) -> VersionNo
        ensures { result ≡ next_of self.now.world.files file - 1 }
    {
        match self.rows.files.next_of(file) {
            Some(next) => next.before(),
            None => VersionNo(0),
        }
    }

    /// Returns the target's file, if it has no live name.
    pub fn nameless(&self, target: &Target) -> Option<FileId>
        ensures { result ≡ nameless self.now.world target.now }
    {
        match *target {
            Target::File(file) if !self.rows.names.is_live(file) => Some(file),
            _ => None,
        }
    }

    /// Returns the restorable names, by directory and then by the bytes of the name.
    ///
    /// `NoMemory` if memory is refused.
    pub fn restorable(&self) -> Result<DeletedNameList, NoMemory>
        ensures { IfOk result (λ names. names ≡ restorable self.now.world) }
    {
        let mut names = self.rows.names.dead()?;
        names.retain(|lost| self.may_return(&lost.2));
        deleted_names(self.rows.alloc, names.as_slice())
    }
}
