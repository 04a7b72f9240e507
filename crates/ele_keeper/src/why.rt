//! Why a version is held or due, and which mark held one that is due. A contract sees the world.
ghost use Rattle.std.specs.Prelude.{◌≡◌, IfOk, None, OnErr};
ghost use Rattle.std.specs.List.{list_any};
ghost use Rattle.ele_audit.specs.Held.{IsDue};
ghost use Rattle.ele_keeper.specs.Ends.{any_ends, ends_at, may_be_held};
ghost use Rattle.ele_model.specs.Why.{MeansFate};
ghost use Rattle.ele_runs.specs.Kept.{Plain};
ghost use Rattle.ele_runs.specs.Said.{Explains};
ghost use Rattle.ele_script.specs.declared.reading.Question.TheVariants as question;

use ele_core::Core;
use ele_model::{Fate, GroupRow, MarkRow, Moment, NoMemory, Stop, TaggedPath};
use ele_runs::{Said, explain_alone};
use ele_script::Question;

/// Answers why a version is held or due, and which mark held it. It copies all rows only if a mark ended
/// at the moment since which the version is due.
pub fn explain_why(tagged: TaggedPath, core: &Core) -> Said
    ensures { Explains (Plain core.now.world None) (question.Why tagged) result }
{
    match core.fate_at(&tagged) {
        Ok(fate) => explain_fate(fate, tagged, core),
        Err(refusal) => Said::Why(Err(refusal)),
    }
}

// Answers with the fate of the version, and with the mark that held it, if one may have.
#[tactic(auto, using(crate::proofs::Ends::not_held))]
fn explain_fate(fate: Fate, tagged: TaggedPath, core: &Core) -> Said
    requires { MeansFate core.now.world tagged fate }
    ensures { Explains (Plain core.now.world None) (question.Why tagged) result }
{
    match may_be_held(&fate, core) {
        Ok(true) => explain_alone(&Question::Why(tagged), core),
        Ok(false) => Said::Why(Ok(fate)),
        Err(_) => Said::Stopped(Stop::NoMemory),
    }
}

// Whether a mark may have held the version: it is due, and a mark ended at the moment since which it is.
fn may_be_held(fate: &Fate, core: &Core) -> Result<bool, NoMemory>
    ensures ok { IfOk result (λ may. may ≡ may_be_held core.now.world.groups fate.now) }
    ensures err { OnErr result (IsDue fate.now) }
{
    match fate {
        Fate::Due { since, cause: _ } => {
            let groups = core.groups()?;
            Ok(any_ends(groups.as_slice(), *since))
        }
        _ => Ok(false),
    }
}

// Whether a mark of one of the groups ends at the moment.
fn any_ends(groups: &[GroupRow], at: Moment) -> bool
    ensures { result ≡ any_ends groups.now at }
{
    groups.iter().any(|group| has_end(group, at))
}

// Whether one of the group's marks ends at the moment.
fn has_end(group: &GroupRow, at: Moment) -> bool
    ensures { result ≡ list_any (ends_at at) group.now.marks }
{
    group.marks.as_slice().iter().any(|mark| ends_at(mark, at))
}

// Whether the mark ends at the moment.
fn ends_at(mark: &MarkRow, at: Moment) -> bool
    ensures { result ≡ ends_at at mark.now }
{
    mark.until.is_some_and(|until| until == at)
}
