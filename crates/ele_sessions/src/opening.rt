//! One more writer of a file, which starts its draft or joins it.
//! A contract sees the list of drafts.
ghost use Rattle.std.specs.Prelude.{◌≡◌, [], ◌∷◌, OnOk, OnErr};
ghost use Rattle.ele_blocks.specs.LivesIn.{LivesIn};
ghost use Rattle.ele_blocks.specs.Owes.{Moves, IsUncrowded};
ghost use Rattle.ele_sessions.specs.Inside.{IsGap, drafts_of, file_in};
ghost use Rattle.ele_lists.specs.Lists.{insert_before};
ghost use Rattle.ele_sessions.specs.Opening.{new_draft, with_draft, Opens};
ghost use Rattle.ele_sessions.specs.Order.{Rises};
ghost use Rattle.ele_sessions.specs.Sessions.{is_draft_after};

use crate::draft::Draft;
use crate::entries::{Entry, place_of};
use ele_blocks::{BlockMap, BlockStore};
use ele_moment::{FileId, Moment, NoMemory, VersionNo};
use ele_rows::put_at;
use std::alloc::Global;

/// The version that a draft would make, and when the draft is opened.
#[derive(Clone, Copy)]
pub struct DraftSpec {
    pub file: FileId,
    pub number: VersionNo,
    pub opened: Moment,
}

// Adds a draft with a copy of the map. It reserves all memory before it copies the map, so that a
// refusal loses no blocks: drafts and store are then as they were.
fn start(
    alloc: Global,
    drafts: &mut Vec<Entry>,
    store: &mut BlockStore,
    at: usize,
    spec: DraftSpec,
    map: &BlockMap,
) -> Result<(), NoMemory>
    requires gap { IsGap file_in spec.file drafts.old.items at }
    requires lives { LivesIn store.old map.now }
    requires few { IsUncrowded store.old }
    ensures drafts { OnOk result (drafts_of drafts.new.items
        ≡ insert_before (is_draft_after spec.file)
        (new_draft spec.file spec.number spec.opened map.now) (drafts_of drafts.old.items)) }
    ensures moves { OnOk result (Moves store.old store.new [] (map.now ∷ [])) }
    ensures err { OnErr result (drafts.new.items ≡ drafts.old.items) }
    ensures err_store { OnErr result (store.new ≡ store.old) }
{
    drafts.reserve(1)?;
    let mut draft = Box::new(
        alloc,
        Draft {
            number: spec.number,
            opened: spec.opened,
            map: BlockMap::new(alloc),
            changed: false,
        },
    )?;
    draft.map = map.copy(store)?;
    put_at(
        drafts,
        at,
        Entry {
            file: spec.file,
            draft,
        },
    );
    Ok(())
}

/// Adds a writer of the file: to its draft, or to a new one with a copy of the map. If memory is
/// refused, drafts and store are as they were.
pub fn join(
    alloc: Global,
    drafts: &mut Vec<Entry>,
    store: &mut BlockStore,
    spec: DraftSpec,
    map: &BlockMap,
) -> Result<(), NoMemory>
    requires rise { Rises file_in drafts.old.items }
    requires lives { LivesIn store.old map.now }
    requires few { IsUncrowded store.old }
    ensures drafts { OnOk result (drafts_of drafts.new.items
        ≡ with_draft (new_draft spec.file spec.number spec.opened map.now)
        (drafts_of drafts.old.items)) }
    ensures opens { OnOk result
        (Opens store.old store.new (drafts_of drafts.old.items) spec.file map.now) }
    ensures err { OnErr result (drafts.new.items ≡ drafts.old.items) }
    ensures err_store { OnErr result (store.new ≡ store.old) }
{
    if let Err(at) = place_of(drafts, spec.file) {
        start(alloc, drafts, store, at, spec, map)?;
    }
    Ok(())
}
