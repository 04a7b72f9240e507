//! The state of a file, and when the next version after one closed.
//! A contract sees each answer as a look-up in the rows.
ghost use Rattle.std.specs.Prelude.{◌≡◌, ◌<◌, ◌≤◌, ◌+◌, ◌^◌, IfNone, IfSome};
ghost use Rattle.ele_files.specs.FileHead.{Stands};
ghost use Rattle.ele_model.specs.Neighbours.{next_closing};
ghost use Rattle.ele_model.specs.World.{next_of};

use crate::files::{Files, file_of};
use crate::meant::info_of;
use ele_inode_log::Meter;
use ele_model::VersionInfo;
use ele_moment::{FileId, Moment, VersionNo};
use ele_policy::Policy;

/// What a new version of a file needs to know: the next number, and what the moments of its
/// versions depend on.
#[derive(Clone, Copy)]
pub struct FileHead {
    pub policy: Policy,
    /// The number of its next version.
    pub next: VersionNo,
    /// Its newest held version.
    pub newest: Option<VersionInfo>,
}

impl Files {
    /// Returns when the file's next held version after the number closed. None if there is none.
    #[tactic(auto, using(std::proofs::lemmas::Bool::Decides::nat_tests, crate::proofs::Tagged::closing_none, crate::proofs::Tagged::closing_shown))]
    pub fn next_closing(&self, file: FileId, number: VersionNo) -> Option<Moment>
        ensures { result ≡ next_closing self.now.versions file number }
    {
        let held = file_of(&self.files, file)?;
        let row = held.log.next_held(number, &mut Meter::new())?;
        Some(row.closed)
    }

    /// Returns the head of the file, by one look-up. None if there is no such file.
    #[tactic(auto, using(std::proofs::lemmas::Bool::Decides::nat_tests, crate::proofs::Rows::next_found, crate::proofs::Rows::file_row_found, crate::proofs::Tagged::newest_shown))]
    pub fn head(&self, file: FileId) -> Option<FileHead>
        ensures some { IfSome result (λ head. Stands self.now file head) }
        ensures none { IfNone result (next_of self.now.files file ≡ 0) }
    {
        let held = file_of(&self.files, file)?;
        let newest = held
            .log
            .prev_held(held.next, &mut Meter::new())
            .map(info_of);
        Some(FileHead {
            policy: held.policy,
            next: held.next,
            newest,
        })
    }
}
