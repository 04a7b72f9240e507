//! The newer held versions of one: the next, whether there are so many, and the one that has so
//! many.
//! A contract sees each answer as a look-up in the rows.
ghost use Rattle.std.specs.Prelude.{◌≡◌, ◌<◌, ◌≤◌, ◌+◌, ◌^◌, ◌-◌, ◌||◌, false, nat_le, nat_lt, None, IfNone, IfSome, find, reverse, slice_get};
ghost use Rattle.std.specs.Option.{option_map, option_map_or};
ghost use Rattle.ele_files.specs.Beside.{IsBeside};
ghost use Rattle.ele_files.specs.Meant.{stamps_in};
ghost use Rattle.ele_inode_log.specs.Rows.{is_after};
ghost use Rattle.ele_model.specs.Neighbours.{is_newer_of, newer_held, with_newer};
ghost use Rattle.ele_model.specs.Told.{info_of};
ghost use Rattle.ele_model.specs.World.{policy_of};

use crate::files::{Files, file_of};
use crate::meant::info_of;
use ele_inode_log::{InodeLog, Meter};
use ele_model::VersionInfo;
use ele_moment::{FileId, Moment, VersionNo};
use ele_policy::Case;

/// What a version's ripe moment depends on, except its end.
#[derive(Clone, Copy)]
pub struct Beside {
    /// Its case under the file's policy.
    pub case: Case,
    /// The next held version of its file.
    pub next: Option<VersionInfo>,
}

// When the version closed.
fn closing(info: &Option<VersionInfo>) -> Option<Moment>
    ensures { result ≡ option_map (λ info. info.closed) info.now }
{
    Some(info.as_ref()?.closed)
}

// The info of the first row with a greater number.
fn next_in(log: &InodeLog, number: VersionNo) -> Option<VersionInfo>
    ensures { result ≡ option_map stamps_in (find (is_after number) log.now.rows) }
{
    let row = log.next_held(number, &mut Meter::new())?;
    Some(info_of(row))
}

// Whether at least so many rows have a greater number.
#[tactic(auto, using(std::proofs::lemmas::Bool::Decides::nat_tests))]
fn has_newer(log: &InodeLog, number: VersionNo, count: u64) -> bool
    ensures { result ≡ (nat_le count 0 || option_map_or (λ row. nat_lt number row.number)
        (slice_get (reverse log.now.rows) (count - 1)) false) }
{
    if count == 0 {
        return true;
    }
    match log.with_newer(count - 1, &mut Meter::new()) {
        Some(row) => number.0 < row.number.0,
        None => false,
    }
}

impl Files {
    /// Returns the info of the file's next held version after the number. None if there is none.
    #[tactic(auto, using(std::proofs::lemmas::Bool::Decides::nat_tests, crate::proofs::Newer::newer_none, crate::proofs::Newer::newer_shown))]
    pub fn next_held(&self, file: FileId, number: VersionNo) -> Option<VersionInfo>
        ensures { result
            ≡ option_map info_of (find (is_newer_of file number) self.now.versions) }
    {
        let held = file_of(&self.files, file)?;
        next_in(&held.log, number)
    }

    /// Returns whether the file holds at least so many versions with a greater number.
    #[tactic(auto, using(std::proofs::lemmas::Bool::Decides::nat_tests))]
    pub fn has_newer(&self, file: FileId, number: VersionNo, count: u64) -> bool
        ensures { result ≡ nat_le count (newer_held self.now.versions file number) }
    {
        match file_of(&self.files, file) {
            Some(held) => has_newer(&held.log, number, count),
            None => count == 0,
        }
    }

    /// Returns what the ripe moment of this version depends on, by one look-up. The policy is the
    /// file's, in force for a file that is live or not. None if there is no such file.
    #[tactic(auto, using(std::proofs::lemmas::Bool::Decides::nat_tests, crate::proofs::Rows::file_row_found))]
    pub fn beside(&self, file: FileId, info: &VersionInfo, is_live: bool) -> Option<Beside>
        ensures some { IfSome result (IsBeside self.now file info.now is_live) }
        ensures none { IfNone result (policy_of self.now.files file ≡ None) }
    {
        let held = file_of(&self.files, file)?;
        let rule = held.policy.rule_in(is_live);
        let next = next_in(&held.log, info.number);
        let case = Case {
            policy: rule.policy,
            closed: info.closed,
            next_closed: closing(&next),
            enough: has_newer(&held.log, info.number, rule.newer),
        };
        Some(Beside { case, next })
    }

    /// Returns the info of the file's held version with so many newer ones. None if there is none.
    #[tactic(auto, using(std::proofs::lemmas::Bool::Decides::nat_tests, crate::proofs::Newer::none_back, crate::proofs::Newer::back_shown))]
    pub fn with_newer(&self, file: FileId, newer: u64) -> Option<VersionInfo>
        ensures { result ≡ option_map info_of (with_newer self.now.versions file newer) }
    {
        let held = file_of(&self.files, file)?;
        let row = held.log.with_newer(newer, &mut Meter::new())?;
        Some(info_of(row))
    }
}
