//! The ripe moment of a version, by its case and the marks that hold it.
ghost use Rattle.std.specs.Prelude.{◌≡◌, None, is_some, option_and_then};
ghost use Rattle.ele_fates.specs.Alone.{few_enough};
ghost use Rattle.ele_model.specs.Cover.{cover_of};
ghost use Rattle.ele_model.specs.Neighbours.{case_moment};
ghost use Rattle.ele_policy.specs.RipeCase.{case_of};

use ele_groups::Groups;
use ele_model::{FileId, Moment, VersionInfo};
use ele_policy::{Case, Rule};

/// Returns the case of a version of the rule's file that closed at `closed`, with the next one's
/// closing, and whether it has enough newer ones.
pub fn case_of(rule: &Rule, closed: Moment, next_closed: Option<Moment>, enough: bool) -> Case
    ensures { result ≡ case_of rule.now.policy closed next_closed enough }
{
    Case {
        policy: rule.policy,
        closed,
        next_closed,
        enough,
    }
}

/// Returns whether a version without a newer one has a ripe moment under the rule, if one newer
/// version fewer than the rule asks for is enough.
pub fn ripens_alone(groups: &Groups, file: FileId, rule: &Rule, info: &VersionInfo) -> bool
    ensures { result ≡ is_some (option_and_then (case_moment (cover_of groups.now file)
        (case_of rule.now.policy info.now.closed None (few_enough rule.now))) info.now.ended) }
{
    match info.ended {
        Some(ended) => {
            let case = &case_of(rule, info.closed, None, rule.newer == 0);
            case_moment(groups, file, case, ended).is_some()
        }
        None => false,
    }
}

/// Returns when a version of that case ripens, by its end: not before the latest end of the marks
/// that cover it. None if one of them has no end, or if the version is never due.
pub fn case_moment(groups: &Groups, file: FileId, case: &Case, ended: Moment) -> Option<Moment>
    ensures { result ≡ case_moment (cover_of groups.now file) case.now ended }
{
    let ripe = case.ripe(ended)?;
    groups.cover(file, case.closed, Some(ended)).ripe_past(ripe)
}
