//! The ripe moments of versions, by the rules of their files and the marks of their groups.
ghost use Rattle.std.specs.Prelude.{◌≡◌};
ghost use Rattle.ele_model.specs.Cover.{cover_of};
ghost use Rattle.ele_model.specs.Neighbours.{case_in, free_moment, rule_of};
ghost use Rattle.ele_model.specs.Parts.{HasParts};
ghost use Rattle.ele_model.specs.RipeRows.{ripe_at};
ghost use Rattle.ele_state.specs.Inside.{world_of};

use crate::rows::Rows;
use ele_fates::case_moment;
use ele_files::Files;
use ele_model::{FileId, Moment, VersionInfo, VersionNo};
use ele_policy::{Case, Rule};

// The policy in force in the file, if the file exists.
pub fn rule(rows: &Rows, file: FileId) -> Option<Rule>
    ensures { result ≡ rule_of (world_of rows.now) file }
{
    let policy = rows.files.policy_of(file)?;
    Some(policy.rule_in(rows.names.is_live(file)))
}

// The case of the file's version with this info, under the rule.
pub fn case(files: &Files, file: FileId, rule: Rule, info: &VersionInfo) -> Case
    ensures { result ≡ case_in rule files.now.versions file info.now.number info.now.closed }
{
    Case {
        policy: rule.policy,
        closed: info.closed,
        next_closed: files.next_closing(file, info.number),
        enough: files.has_newer(file, info.number, rule.newer),
    }
}

// When the file's version of that number ripens. None if it isn't held, has no end or never ripens.
pub fn free_moment(rows: &Rows, file: FileId, number: VersionNo) -> Option<Moment>
    ensures { result ≡ free_moment (world_of rows.now) (cover_of rows.now.groups file) file number }
{
    let info = rows.files.info(file, number)?;
    let ended = info.ended?;
    let is_live = rows.names.is_live(file);
    let Some(beside) = rows.files.beside(file, &info, is_live) else {
        return None;
    };
    case_moment(&rows.groups, file, &beside.case, ended)
}

// The same, but None if a handle reads the version.
#[tactic(auto, using(crate::proofs::Words::nat_tests, crate::proofs::Questions::ripe_told))]
pub fn ripe_moment(rows: &Rows, file: FileId, number: VersionNo) -> Option<Moment>
    requires { HasParts (world_of rows.now) }
    ensures { result ≡ ripe_at (world_of rows.now) file number }
{
    if rows.files.is_open(file, number) {
        return None;
    }
    free_moment(rows, file, number)
}
