//! What a pass removes doesn't depend on the order or the time of removals. Each law is the
//! contract of a function that does nothing.
ghost use Rattle.ele_world.specs.AnyDueLeave.{AnyDueLeave};
ghost use Rattle.ele_world.specs.EventLags.{EventLags};
ghost use Rattle.ele_world.specs.IdleLeave.{IdleLeave};
ghost use Rattle.ele_world.specs.Lags.{CleanLags, LagsKeeps};
ghost use Rattle.ele_world.specs.Schedule.{Schedule};

use ele_policy::laws;

/// After the removal of any due versions, the due versions are the others that were due, and the
/// kept ones are those kept before. The world is well formed. So every order of removal ends in the
/// same rows.
pub fn any_due_leave()
    ensures { AnyDueLeave }
{
    laws::policies_are_lawful();
}

/// The same holds if files without name, version and draft are dropped too; no such file remains
/// then.
pub fn idle_leave()
    ensures { IdleLeave }
{
    laws::policies_are_lawful();
}

/// A world that lags behind another has the versions that the other keeps; once nothing is due in
/// it, it has no others.
pub fn lags_keeps()
    ensures { LagsKeeps }
{
    laws::policies_are_lawful();
}

/// It still lags after a clean of its own.
pub fn clean_lags()
    ensures { CleanLags }
{
    laws::policies_are_lawful();
}

/// It still lags after an event in both worlds, and both give the same reply unless the event only
/// asks. This holds for any event except a clean, those that use a past version, and those that may
/// protect due versions.
pub fn event_lags()
    ensures { EventLags }
{
    laws::policies_are_lawful();
}

/// Take a run of such events and clean events, from any well-formed world without groups. A
/// finished pass at its end leaves exactly what the scan keeps of the run without the clean events.
/// The events that neither clean nor ask get the same replies.
pub fn schedule()
    ensures { Schedule }
{
    laws::policies_are_lawful();
}
