//! A change of one draft among those of all files.
//! A contract sees the list of drafts, in which one is changed and has another map.
ghost use Rattle.std.specs.Prelude.{◌≡◌, ◌≤◌, ◌+◌, true, OnOk, OnErr, IsOk, IsTrue, length, find};
ghost use Rattle.std.specs.List.{list_any};
ghost use Rattle.std.specs.Option.{ForSome};
ghost use Rattle.ele_content.specs.Content.{longest_content};
ghost use Rattle.ele_blocks.specs.Changes.{IsWritten};
ghost use Rattle.ele_blocks.specs.LivesIn.{LivesIn};
ghost use Rattle.ele_sessions.specs.Changes.{RewritesDraft, Resizes, has_length};
ghost use Rattle.ele_sessions.specs.Inside.{drafts_of, file_in};
ghost use Rattle.ele_sessions.specs.Order.{Rises};
ghost use Rattle.ele_sessions.specs.Sessions.{is_draft};

use crate::entries::{Entry, place_of};
use ele_blocks::BlockStore;
use ele_moment::{FileId, NoMemory};

/// Writes the bytes into the file's draft. If memory is refused, drafts and store are as they were.
pub fn write_draft(
    drafts: &mut Vec<Entry>,
    store: &mut BlockStore,
    file: FileId,
    offset: u64,
    bytes: &[u8],
) -> Result<(), NoMemory>
    requires rise { Rises file_in drafts.old.items }
    requires there { list_any (is_draft file) (drafts_of drafts.old.items) ≡ true }
    requires lives { ForSome (find (is_draft file) (drafts_of drafts.old.items))
        (λ draft. LivesIn store.old draft.layout) }
    requires fits { offset + length bytes.now ≤ longest_content }
    ensures made { OnOk result
        (RewritesDraft (drafts_of drafts.old.items) (drafts_of drafts.new.items) file
        (λ was. IsWritten store.old store.new was.number offset bytes.now was.layout)) }
    ensures err { OnErr result (drafts_of drafts.new.items ≡ drafts_of drafts.old.items) }
    ensures err_store { OnErr result (store.new ≡ store.old) }
{
    let Ok(at) = place_of(drafts, file) else {
        unreachable!()
    };
    let entry = &mut drafts[at];
    entry.draft.write(store, offset, bytes)?;
    Ok(())
}

/// Sets the length of the file's draft to so many bytes, if it has another. If memory is refused,
/// drafts and store are as they were.
pub fn truncate_draft(
    drafts: &mut Vec<Entry>,
    store: &mut BlockStore,
    file: FileId,
    size: u64,
) -> Result<(), NoMemory>
    requires rise { Rises file_in drafts.old.items }
    requires there { list_any (is_draft file) (drafts_of drafts.old.items) ≡ true }
    requires lives { ForSome (find (is_draft file) (drafts_of drafts.old.items))
        (λ draft. LivesIn store.old draft.layout) }
    requires fits { size ≤ longest_content }
    ensures idle { IsTrue (has_length size (find (is_draft file) (drafts_of drafts.old.items)))
        → IsOk result }
    ensures made { OnOk result (Resizes store.old store.new
        (drafts_of drafts.old.items) (drafts_of drafts.new.items) file size) }
    ensures err { OnErr result (drafts_of drafts.new.items ≡ drafts_of drafts.old.items) }
    ensures err_store { OnErr result (store.new ≡ store.old) }
{
    let Ok(at) = place_of(drafts, file) else {
        unreachable!()
    };
    let entry = &mut drafts[at];
    if entry.draft.map.length() == size {
        return Ok(());
    }
    entry.draft.truncate(store, size)?;
    Ok(())
}
