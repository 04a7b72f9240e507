//! Drafts whose handles aren't there yet.
//! A contract sees them as their list.
ghost use Rattle.std.specs.Prelude.{◌≡◌, ◌++◌, ◌∷◌, [], OnOk, OnErr};
ghost use Rattle.ele_sessions.specs.Inside.{drafts_of};
ghost use Rattle.ele_sessions.specs.Opening.{new_draft};

use crate::draft::Draft;
use crate::entries::Entry;
use ele_blocks::BlockMap;
use ele_moment::{FileId, Moment, NoMemory, VersionNo};
use std::alloc::Global;
use std::marker::Model;

/// Drafts with their maps, for a `Sessions` that is made of drafts and handles.
#[derive(Drop)]
pub struct Drafts {
    entries: Vec<Entry>,
    alloc: Global,
}

impl Model for Drafts {
    ghost use Rattle.std.specs.Prelude.{List};
    ghost use Rattle.ele_sessions.specs.Sessions.{Draft};
    ghost use Rattle.ele_sessions.specs.Inside.{drafts_of};

    ghost Value = { List Draft };

    ghost view = { λ drafts. drafts_of drafts.entries.items };
}

impl Drafts {
    /// Makes an empty list. It takes no memory; later calls take theirs from `alloc`.
    pub fn new(alloc: Global) -> Drafts
        ensures { result ≡ [] }
    {
        Drafts {
            entries: Vec::new(alloc),
            alloc,
        }
    }

    /// Adds a draft of the file at the end: the number of its version, the moment at which it was
    /// opened, whether it was changed, and the map of its content.
    ///
    /// `NoMemory` if memory is refused; the list is as it was, and the map's blocks stay in the
    /// store.
    #[tactic(auto, using(crate::proofs::Restored::draft_pushed))]
    pub fn push(
        &mut self,
        file: FileId,
        number: VersionNo,
        opened: Moment,
        changed: bool,
        map: BlockMap,
    ) -> Result<(), NoMemory>
        ensures ok { OnOk result (self.new ≡ self.old
            ++ record (new_draft file number opened map) { changed = changed } ∷ []) }
        ensures err { OnErr result (self.new ≡ self.old) }
    {
        self.entries.reserve(1)?;
        let draft = Box::new(
            self.alloc,
            Draft {
                number,
                opened,
                map,
                changed,
            },
        )?;
        self.entries.push_reserved(Entry { file, draft });
        Ok(())
    }

    // Takes the entries out.
    pub(crate) fn into_entries(self) -> Vec<Entry>
        ensures { drafts_of result.items ≡ self }
    {
        self.entries
    }
}
