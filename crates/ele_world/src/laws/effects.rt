//! What single events change. Each law is the contract of a function that does nothing.
ghost use Rattle.ele_world.specs.AbandonLeaves.{AbandonDrops, AbandonLeaves};
ghost use Rattle.ele_world.specs.CloseTells.{CloseTells, CloseLeaves};
ghost use Rattle.ele_world.specs.DefaultGoverns.{DefaultGoverns};
ghost use Rattle.ele_world.specs.DraftBegins.{DraftBegins};
ghost use Rattle.ele_world.specs.HandleReads.{HandleReads};
ghost use Rattle.ele_world.specs.HandleStays.{HandleStays};
ghost use Rattle.ele_world.specs.MarkMarks.{MarkMarks};
ghost use Rattle.ele_world.specs.NumberMeans.{NumberMeans};
ghost use Rattle.ele_world.specs.PolicyGoverns.{PolicyGoverns};
ghost use Rattle.ele_world.specs.RestoreReads.{RestoreReads};
ghost use Rattle.ele_world.specs.SaveIsSession.{SaveCreates, SaveIsSession, SessionIsSave};
ghost use Rattle.ele_world.specs.SaveReads.{SaveReads};
ghost use Rattle.ele_world.specs.TruncateFits.{TruncateFits};
ghost use Rattle.ele_world.specs.UndeleteRevives.{UndeleteRevives};
ghost use Rattle.ele_world.specs.WriteLays.{WriteLays};

use ele_policy::laws;

/// After a policy event the file at its path has the policy, every other file has its own, and
/// nothing else has changed.
pub fn policy_governs()
    ensures { PolicyGoverns }
{
    laws::policies_are_lawful();
}

/// After a default event the directory at its path has that default policy, every other one has its
/// own, and nothing else has changed.
pub fn default_governs()
    ensures { DefaultGoverns }
{
    laws::policies_are_lawful();
}

/// A mark event marks the versions of the group's files that were current then. What was marked
/// before stays marked, and nothing else is.
pub fn mark_marks()
    ensures { MarkMarks }
{
    laws::policies_are_lawful();
}

/// The first handle that writes a file reads the content of its current version, and a later one
/// that of the file's draft.
pub fn draft_begins()
    ensures { DraftBegins }
{
    laws::policies_are_lawful();
}

/// After a write the file's draft has its old content with the bytes written over it, and nothing
/// else has changed.
pub fn write_lays()
    ensures { WriteLays }
{
    laws::policies_are_lawful();
}

/// After a truncate the file's draft has as many bytes as the event says, and nothing else has
/// changed.
pub fn truncate_fits()
    ensures { TruncateFits }
{
    laws::policies_are_lawful();
}

/// A handle that is opened for reading reads the version that was meant.
pub fn handle_reads()
    ensures { HandleReads }
{
    laws::policies_are_lawful();
}

/// A handle reads the same version or draft until it is closed or abandoned.
pub fn handle_stays()
    ensures { HandleStays }
{
    laws::policies_are_lawful();
}

/// A number reads, describes and opens one version, and no other.
pub fn number_means()
    ensures { NumberMeans }
{
    laws::policies_are_lawful();
}

/// The close of a handle that writes makes a version exactly if the draft was changed and no other
/// handle writes it.
pub fn close_tells()
    ensures { CloseTells }
{}

/// A close that returns no number has changed no version.
pub fn close_leaves()
    ensures { CloseLeaves }
{}

/// An undelete makes a version only of a file without a live name and without a draft.
pub fn undelete_revives()
    ensures { UndeleteRevives }
{}

/// An abandoned handle has made no version, whatever the reply. All counts stay as they were.
pub fn abandon_leaves()
    ensures { AbandonLeaves }
{}

/// After an abandon its handle is gone. If it was the only one that wrote the file's draft, that is
/// gone too. No other draft has changed.
pub fn abandon_drops()
    ensures { AbandonDrops }
{
    laws::policies_are_lawful();
}

/// After a save its path names a file whose current version has the saved bytes, and a read of the
/// path returns them.
pub fn save_reads()
    ensures { SaveReads }
{
    laws::policies_are_lawful();
}

/// If a session on a file without a draft opens, empties, writes and closes, and so makes a
/// version, a save of the same bytes makes the same version. The worlds after both differ in the
/// count of handles alone.
pub fn save_is_session()
    ensures { SaveIsSession }
{
    laws::policies_are_lawful();
}

/// If a save makes a version of a file, the session makes it too, unless no handle can be opened.
/// A session that finds an empty file and writes nothing makes no version.
pub fn session_is_save()
    ensures { SessionIsSave }
{
    laws::policies_are_lawful();
}

/// If nothing is at the path, a save replies and leaves what a create and then the save do, unless
/// one of these is refused.
pub fn save_creates()
    ensures { SaveCreates }
{
    laws::policies_are_lawful();
}

/// After a restore its path names a file whose current version has the content of the version that
/// the path had at the moment, or that its file had if the path led nowhere then.
pub fn restore_reads()
    ensures { RestoreReads }
{
    laws::policies_are_lawful();
}
