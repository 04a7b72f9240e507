//! One writer of a file closes, and its draft may be removed.
//! A contract sees the list of drafts.
ghost use Rattle.std.specs.Prelude.{◌≡◌, true, find, Some};
ghost use Rattle.std.specs.List.{list_any};
ghost use Rattle.ele_sessions.specs.Closes.{ending, file_closing, left_drafts};
ghost use Rattle.ele_sessions.specs.Inside.{draft_in, drafts_of, file_in};
ghost use Rattle.ele_sessions.specs.Order.{Rises};
ghost use Rattle.ele_sessions.specs.Sessions.{is_draft};

use crate::closing::Closing;
use crate::entries::{Entry, place_of};
use ele_blocks::BlockMap;
use ele_moment::FileId;

// What the close of its last writer does to the draft.
fn ending(entry: &Entry) -> Closing
    ensures { result ≡ (ending (draft_in entry.now)).0 }
{
    if entry.draft.changed {
        Closing::Changed(entry.file, entry.draft.opened)
    } else {
        Closing::Clean(entry.file)
    }
}

/// Returns what the close of a writer of the file would do. `stays` says whether other writers
/// stay.
pub fn peek(drafts: &[Entry], file: FileId, stays: bool) -> Closing
    requires rise { Rises file_in drafts.now }
    requires there { list_any (is_draft file) (drafts_of drafts.now) ≡ true }
    ensures { result ≡ (file_closing stays (find (is_draft file) (drafts_of drafts.now))).0 }
{
    if stays {
        return Closing::StillOpen;
    }
    let Ok(at) = place_of(drafts, file) else {
        unreachable!()
    };
    ending(&drafts[at])
}

/// Closes a writer of the file. If no other writer stays, the draft is discarded, and its map
/// returned.
pub fn leave(drafts: &mut Vec<Entry>, file: FileId, stays: bool) -> (Closing, Option<BlockMap>)
    requires rise { Rises file_in drafts.old.items }
    requires there { list_any (is_draft file) (drafts_of drafts.old.items) ≡ true }
    ensures answer { result
        ≡ file_closing stays (find (is_draft file) (drafts_of drafts.old.items)) }
    ensures drafts { drafts_of drafts.new.items
        ≡ left_drafts stays file (drafts_of drafts.old.items) }
{
    if stays {
        return (Closing::StillOpen, None);
    }
    let Ok(at) = place_of(drafts, file) else {
        unreachable!()
    };
    let entry = drafts.remove(at);
    let closing = ending(&entry);
    let draft = Box::into_inner(entry.draft);
    (closing, Some(draft.map))
}
