//! What every event does to a well-formed world, and so what is true of every run. Each law is the
//! contract of a function that does nothing.
ghost use Rattle.ele_model.specs.CleanKeepsKeys.{CleanKeepsKeys};
ghost use Rattle.ele_world.specs.ChangeKeeps.{ChangeKeepsWellFormed};
ghost use Rattle.ele_world.specs.CloseKeeps.{CloseKeeps};
ghost use Rattle.ele_world.specs.CreateLeads.{CreateLeads};
ghost use Rattle.ele_world.specs.LinkLeads.{LinkLeads};
ghost use Rattle.ele_world.specs.MakeDirLeads.{MakeDirLeads};
ghost use Rattle.ele_model.specs.NoIdleStays.{NoIdleStays, NoIdleStaysInFreshRuns, NoIdleStaysInRuns};
ghost use Rattle.ele_world.specs.RemoveDirEnds.{RemoveDirEnds};
ghost use Rattle.ele_world.specs.StartStays.{ReachedIsStart, StartStays};
ghost use Rattle.ele_model.specs.NothingChanges.{RefusedStays, AskingStays};
ghost use Rattle.ele_world.specs.MarkedRipens.{MarkedRipens};
ghost use Rattle.ele_world.specs.MarkedStays.{MarkedStays};
ghost use Rattle.ele_world.specs.OneLife.{OneLife};
ghost use Rattle.ele_world.specs.OneLifeFrom.{OneLifeFrom};
ghost use Rattle.ele_world.specs.OpenStays.{OpenStays};
ghost use Rattle.ele_model.specs.RemovalOrder.{RemovalOrder};
ghost use Rattle.ele_world.specs.RenameLeads.{RenameLeads};
ghost use Rattle.ele_world.specs.RevertKeeps.{RevertKeeps};
ghost use Rattle.ele_world.specs.UndeleteLeads.{UndeleteLeads};
ghost use Rattle.ele_world.specs.UnlinkEnds.{UnlinkEnds};
ghost use Rattle.ele_model.specs.RipeMoments.{DueFromRipe, RipeIsAnswered};

pub mod effects;
pub mod fate;
pub mod groups;
pub mod lists;
pub mod past;
pub mod tree;

pub use ele_headline::{
    headline, headline_in_fresh_runs, held_stays, only_due_leave, pass_leaves_kept,
    reads_as_closed, reads_as_closed_in_runs,
};
pub use ele_model::laws::{
    always_well_formed, fresh_is_well_formed, readers_stay, step_keeps_well_formed, usage_fits,
};
use ele_policy::laws;

/// A change that is allowed leaves a well-formed world well formed.
#[tactic(auto, using(crate::proofs::ChangeKeeps::change_keeps_well_formed))]
pub fn change_keeps_well_formed()
    ensures { ChangeKeepsWellFormed }
{
    laws::policies_are_lawful();
}

/// An event that is refused changes nothing.
pub fn refused_stays()
    ensures { RefusedStays }
{}

/// An event that only asks changes nothing.
#[tactic(auto, using(ele_model::proofs::PlanOutcomes::asking_stays))]
pub fn asking_stays()
    ensures { AskingStays }
{}

/// After a mkdir its path leads to the new directory, which has no names, and the default policy of
/// its parent.
pub fn make_dir_leads()
    ensures { MakeDirLeads }
{
    laws::policies_are_lawful();
}

/// After a rmdir its path leads nowhere.
pub fn remove_dir_ends()
    ensures { RemoveDirEnds }
{
    laws::policies_are_lawful();
}

/// After a create its path leads to the new file, whose current version is empty.
pub fn create_leads()
    ensures { CreateLeads }
{
    laws::policies_are_lawful();
}

/// After a link both paths lead to the file.
pub fn link_leads()
    ensures { LinkLeads }
{
    laws::policies_are_lawful();
}

/// After a rename the new path leads where the old one led, the old one leads nowhere, and no
/// version has changed.
pub fn rename_leads()
    ensures { RenameLeads }
{
    laws::policies_are_lawful();
}

/// After an unlink its path leads nowhere, and a file without another live name has no current version.
pub fn unlink_ends()
    ensures { UnlinkEnds }
{
    laws::policies_are_lawful();
}

/// After an undelete its path leads to what the name last meant. A version that it made has the
/// cells of the last one.
pub fn undelete_leads()
    ensures { UndeleteLeads }
{
    laws::policies_are_lawful();
}

/// After an event each file has a live name, a held version or a draft.
pub fn no_idle_stays()
    ensures { NoIdleStays }
{
    laws::policies_are_lawful();
}

/// After any list of events each file has one of them, if each had one before them. So it has in
/// every run from the fresh world.
#[tactic(auto, using(crate::proofs::Runs::no_idle, crate::proofs::Runs::no_idle_fresh))]
pub fn no_idle_stays_in_runs()
    ensures runs { NoIdleStaysInRuns }
    ensures fresh { NoIdleStaysInFreshRuns }
{
    laws::policies_are_lawful();
}

/// An event leaves a world that a run may begin in such a world. So is each world that events lead
/// to from one, and each core can be made again of its rows.
#[tactic(auto, using(crate::proofs::Runs::start_stays))]
pub fn start_stays()
    ensures step { StartStays }
    ensures reached { ReachedIsStart }
{
    laws::policies_are_lawful();
}

/// A close that returns the number of a version has made it of all that was written.
pub fn close_keeps()
    ensures { CloseKeeps }
{
    laws::policies_are_lawful();
}

/// No event removes a version that a handle reads.
pub fn open_stays()
    ensures { OpenStays }
{
    laws::policies_are_lawful();
}

/// No event removes a marked version: one that was current at a mark of a group that has its file.
pub fn marked_stays()
    ensures { MarkedStays }
{
    laws::policies_are_lawful();
}

/// A revert gives the file a current version with the cells of the version that it names.
pub fn revert_keeps()
    ensures { RevertKeeps }
{
    laws::policies_are_lawful();
}

/// In every run, exactly one version of a file, of all that ever closed, lived at each moment that
/// a name of the file covers. A read at the moment finds it while it is held, and is refused as
/// `Forgotten` once it was removed.
#[tactic(auto, using(crate::proofs::OneLife::one_life))]
pub fn one_life()
    ensures { OneLife }
{
    laws::policies_are_lawful();
}

/// After any list of events on a well-formed world, no two versions of a file that the run ever
/// held lived at one moment. One lived at each moment since that world's that a name of the file
/// covers. Reads answer accordingly.
pub fn one_life_from()
    ensures { OneLifeFrom }
{
    laws::policies_are_lawful();
}

/// A held version is due from its ripe moment on, and never if it has none.
pub fn due_from_ripe()
    ensures { DueFromRipe }
{
    laws::policies_are_lawful();
}

/// The ripe moment of a held version that has ended and isn't protected is what `ripe` of
/// `ele_policy` returns for it and the closing of the next held version.
pub fn ripe_is_answered()
    ensures { RipeIsAnswered }
{
    laws::policies_are_lawful();
}

/// A held version that has ended and that no handle reads ripens at the later of two moments. One
/// is what `ripe` returns for it, the other the latest end of the marks that cover it, in force or
/// ended. Under a mark without an end it never ripens.
pub fn marked_ripens()
    ensures { MarkedRipens }
{
    laws::policies_are_lawful();
}

/// After the removal of any due version, the due versions are those before without it.
pub fn removal_order()
    ensures { RemovalOrder }
{
    laws::policies_are_lawful();
}

/// The removal of the first due version changes no other version's ripe moment.
pub fn clean_keeps_keys()
    ensures { CleanKeepsKeys }
{
    laws::policies_are_lawful();
}
