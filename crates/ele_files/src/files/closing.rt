//! The close of a handle, which may make a version.
//! A contract sees the rows of all files before and after.
ghost use Rattle.std.specs.Prelude.{◌≡◌, ◌<◌, ◌≤◌, ◌+◌, ◌^◌, Some, Ok, OnOk, OnErr, IfOk, length};
ghost use Rattle.std.specs.List.{AllByRecursion};
ghost use Rattle.std.specs.Option.{ForSome};
ghost use Rattle.ele_blocks.specs.LivesIn.{LivesIn};
ghost use Rattle.ele_content.specs.Content.{content_of};
ghost use Rattle.ele_files.specs.Appending.{IsGivenUp, opening_of};
ghost use Rattle.ele_files.specs.Closing.{opening_by, left_by, finishing, IsPast};
ghost use Rattle.ele_files.specs.Held.{Became, cells_of_draft};
ghost use Rattle.ele_model.specs.World.{next_of, file_by};
ghost use Rattle.ele_sessions.specs.Found.{StandsAt};

use crate::file::NewVersion;
use crate::files::{Files, place_of};
use ele_blocks::{BlockMap, BlockStore};
use ele_moment::{FileId, Moment, NoMemory};
use ele_sessions::{Closing, FoundHandle};

// When the draft was opened that the close turns into a version. None if it makes none.
fn opening_of(closing: Closing) -> Option<Moment>
    ensures { result ≡ opening_of (Some closing) }
{
    match closing {
        Closing::Changed(_, opened) => Some(opened),
        _ => None,
    }
}

// Gives up the map, if there is one.
fn give_up(store: &mut BlockStore, map: Option<BlockMap>)
    requires { ForSome map (λ map. LivesIn store.old map) }
    ensures { IsGivenUp store.old store.new map }
{
    if let Some(map) = map {
        map.give_up(store);
    }
}

impl Files {
    /// Returns when the draft was opened that the close of the handle turns into a version. The
    /// close does so if the draft was changed and no other handle writes the file. None if it makes
    /// no version.
    pub fn changed_draft(&self, handle: &FoundHandle) -> Option<Moment>
        requires { StandsAt self.now.handles handle.now }
        ensures { result ≡ opening_by self.now handle.now.row.number }
    {
        opening_of(self.sessions.peek_close_found(handle))
    }

    /// Removes a handle, and makes no version. While others write the file its draft stays; with
    /// the last writer the draft is discarded, even a changed one. A handle that reads a version
    /// leaves nothing.
    pub fn leave(&mut self, handle: &FoundHandle)
        requires { StandsAt self.old.handles handle.now }
        ensures { self.new ≡ left_by self.old handle.now.row.number }
    {
        let (_closing, map) = self.sessions.close_found(handle);
        give_up(&mut self.store, map);
    }

    /// Closes the last writer of a changed draft that was opened at `opened`, of a file that
    /// exists. The draft becomes the file's next version, and the version before that ends. The
    /// call returns the new version's number and length. The caller says whether the file is live;
    /// if it isn't, the new version also ends now. If memory is refused, all is as it was.
    #[tactic(auto, using(std::proofs::lemmas::Bool::Decides::nat_tests, crate::proofs::Closes::not_missing))]
    pub fn finish(
        &mut self,
        handle: &FoundHandle,
        file: FileId,
        opened: Moment,
        now: Moment,
        is_live: bool,
    ) -> Result<NewVersion, NoMemory>
        requires stands { StandsAt self.old.handles handle.now }
        requires file { file_by self.old.handles handle.now.row.number ≡ Ok file }
        requires changed { opening_by self.old handle.now.row.number ≡ Some opened }
        requires numbered { AllByRecursion (λ row. row.next < 2 ^ 62) self.old.files }
        requires past { AllByRecursion (IsPast now) self.old.versions }
        ensures number { IfOk result (λ made. made.number ≡ next_of self.old.files file) }
        ensures length { IfOk result
            (λ made. made.length ≡ length (content_of (cells_of_draft self.old file))) }
        ensures ok { OnOk result (Became self.old now file is_live
            (finishing self.old handle.now.row.number file opened) self.new) }
        ensures err { OnErr result (self.new ≡ self.old) }
    {
        let Some(at) = place_of(&self.files, file) else {
            unreachable!()
        };
        let held = self.files[at].get_mut();
        held.log.reserve()?;
        let (_closing, map) = self.sessions.close_found(handle);
        let Some(map) = map else { unreachable!() };
        Ok(held.append(opened, now, is_live, map))
    }
}
