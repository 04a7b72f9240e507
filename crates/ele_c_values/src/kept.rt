//! What the handle keeps, in numbers.
ghost use Rattle.std.specs.Prelude.{◌≡◌};
ghost use Rattle.std.specs.Option.{option_copied};
ghost use Rattle.ele_c_values.specs.Kept.{due_in, key_in, numbers_at, pass_in, removed_in, usage_in, version_in};
ghost use Rattle.ele_c_values.specs.Numbers.{key_numbers};
ghost use Rattle.ele_embed.specs.Embedding.{reply_of};

use crate::codes::{NO_HISTORY, NO_RESULT, NO_ROW, detail_of, or_never};
use crate::fates::{hold_in, why_in};
use crate::groups::{group_at, mark_at, member_at};
use crate::kind::Kind;
use crate::limits::counts_made;
use crate::names::name_in;
use crate::numbers::{NONE, Numbers};
use crate::stats::{rung_in, stat_in};
use ele_embed::{Said, Store};
use ele_model::{Key, PassEnd, Reply};

/// Returns what is kept of a kind: of a list the row of that index, and in a group's row the member or
/// the mark. `NO_RESULT` if nothing of the kind is kept, `NO_ROW` if there is no such row.
pub fn numbers_at(store: &Store, kind: Option<Kind>, index: u64, inner: u64) -> Result<Numbers, i32>
    ensures { result ≡ numbers_at kind store.now index inner }
{
    let Some(kind) = kind else {
        return Err(NO_RESULT);
    };
    match kind {
        Kind::Now => Ok(Numbers {
            first: store.now().seconds(),
            ..NONE
        }),
        Kind::Detail => match detail_of(store) {
            Some(detail) => Ok(Numbers {
                first: detail,
                ..NONE
            }),
            None => Err(NO_RESULT),
        },
        Kind::History => match store.history() {
            Some(history) => Ok(Numbers {
                first: history.folded(),
                second: history.entries().len() as u64,
                ..NONE
            }),
            None => Err(NO_HISTORY),
        },
        Kind::Pass => pass_in(store.said()),
        Kind::Why => why_in(store.said()),
        Kind::Key => key_in(store, index),
        Kind::Removed => removed_in(store.reply()),
        Kind::Version => version_in(store.reply(), index),
        Kind::Name => name_in(store.reply(), index),
        Kind::Usage => usage_in(store.reply(), index),
        Kind::Group => group_at(store.reply(), index),
        Kind::Member => member_at(store.reply(), index, inner),
        Kind::Mark => mark_at(store.reply(), index, inner),
        Kind::Stat => stat_in(store.reply()),
        Kind::Rung => rung_in(store.reply(), index),
        Kind::Counts => Ok(counts_made(store)),
        Kind::Hold => hold_in(store.said()),
    }
}

// How many versions it removed, and 1 if nothing is due any more.
fn pass_in(said: &Said) -> Result<Numbers, i32>
    ensures { result ≡ pass_in said.now }
{
    match said {
        Said::Passed(PassEnd::Finished(removed)) => Ok(Numbers {
            first: *removed,
            second: 1,
            ..NONE
        }),
        Said::Passed(PassEnd::Budget(removed)) => Ok(Numbers {
            first: *removed,
            ..NONE
        }),
        Said::Passed(PassEnd::Stopped(_, removed)) => Ok(Numbers {
            first: *removed,
            ..NONE
        }),
        _ => Err(NO_RESULT),
    }
}

// `elephant_key`: since, file, number.
fn key_numbers(key: &Key) -> Numbers
    ensures { result ≡ key_numbers key.now }
{
    Numbers {
        first: key.ripe.seconds(),
        second: key.file.0,
        third: key.number.0,
        ..NONE
    }
}

fn key_in(store: &Store, index: u64) -> Result<Numbers, i32>
    ensures { result ≡ key_in store.now.said (reply_of store.now) index }
{
    match store.said() {
        Said::Ahead(Ok(keys)) => match keys.as_slice().get(index as usize) {
            Some(key) => Ok(key_numbers(key)),
            None => Err(NO_ROW),
        },
        _ => due_in(store.reply(), index),
    }
}

fn due_in(reply: Option<&Reply>, index: u64) -> Result<Numbers, i32>
    ensures { result ≡ due_in (option_copied reply.entry) index }
{
    match reply {
        Some(Reply::DueList(keys)) => match keys.as_slice().get(index as usize) {
            Some(key) => Ok(key_numbers(key)),
            None => Err(NO_ROW),
        },
        _ => Err(NO_RESULT),
    }
}

fn removed_in(reply: Option<&Reply>) -> Result<Numbers, i32>
    ensures { result ≡ removed_in (option_copied reply.entry) }
{
    match reply {
        Some(Reply::Removed(key)) => Ok(key_numbers(key)),
        Some(Reply::Nothing) => Ok(NONE),
        _ => Err(NO_RESULT),
    }
}

// `elephant_version_row`: number, opened, closed, ended, length.
fn version_in(reply: Option<&Reply>, index: u64) -> Result<Numbers, i32>
    ensures { result ≡ version_in (option_copied reply.entry) index }
{
    match reply {
        Some(Reply::Rows(rows)) => match rows.as_slice().get(index as usize) {
            Some(info) => Ok(Numbers {
                first: info.number.0,
                second: info.opened.seconds(),
                third: info.closed.seconds(),
                fourth: or_never(info.ended),
                fifth: info.length,
                ..NONE
            }),
            None => Err(NO_ROW),
        },
        _ => Err(NO_RESULT),
    }
}

// `elephant_usage_row`: files, versions, bytes, blocks.
fn usage_in(reply: Option<&Reply>, index: u64) -> Result<Numbers, i32>
    ensures { result ≡ usage_in (option_copied reply.entry) index }
{
    match reply {
        Some(Reply::UsageList(usages)) => match usages.get().as_slice().get(index as usize) {
            Some(usage) => Ok(Numbers {
                first: usage.files,
                second: usage.versions,
                third: usage.bytes,
                fourth: usage.blocks,
                ..NONE
            }),
            None => Err(NO_ROW),
        },
        _ => Err(NO_RESULT),
    }
}
