//! What the handle keeps, as bytes.
ghost use Rattle.std.specs.Prelude.{◌≡◌};
ghost use Rattle.std.specs.Option.{option_copied};
ghost use Rattle.std.specs.Result.{result_map_both};
ghost use Rattle.ele_c_values.specs.Kept.{bytes_at, bytes_in, content_in, marked_in};

use crate::codes::{NO_RESULT, NO_ROW};
use ele_embed::{Said, Store};
use ele_model::{Fate, Reply};

/// Returns the kept bytes of a kind: 0 the content, 1 the text of the last answer, 2 the name of a row,
/// 3 the name of the group whose mark holds a version, or held it after its policy had let it go.
pub fn bytes_at(store: &Store, kind: u32, index: u64) -> Result<&[u8], i32>
    ensures { result_map_both (λ bytes. bytes.now) (λ code. code) result
        ≡ bytes_at store.now kind index }
{
    match kind {
        0 => content_in(store.reply()),
        1 => Ok(store.answer()),
        2 => bytes_in(store.reply(), index),
        _ => marked_in(store.said()),
    }
}

fn content_in(reply: Option<&Reply>) -> Result<&[u8], i32>
    ensures { result_map_both (λ bytes. bytes.now) (λ code. code) result
        ≡ content_in (option_copied reply.entry) }
{
    match reply {
        Some(Reply::Bytes(bytes)) => Ok(bytes.as_slice()),
        _ => Err(NO_RESULT),
    }
}

fn bytes_in(reply: Option<&Reply>, index: u64) -> Result<&[u8], i32>
    ensures { result_map_both (λ bytes. bytes.now) (λ code. code) result
        ≡ bytes_in (option_copied reply.entry) index }
{
    match reply {
        Some(Reply::NameList(names)) => match names.as_slice().get(index as usize) {
            Some(named) => Ok(named.0.bytes()),
            None => Err(NO_ROW),
        },
        Some(Reply::RestoreList(names)) => match names.as_slice().get(index as usize) {
            Some(dead) => Ok(dead.name.bytes()),
            None => Err(NO_ROW),
        },
        Some(Reply::GroupList(groups)) => match groups.as_slice().get(index as usize) {
            Some(group) => Ok(group.name.bytes()),
            None => Err(NO_ROW),
        },
        _ => Err(NO_RESULT),
    }
}

fn marked_in(said: &Said) -> Result<&[u8], i32>
    ensures { result_map_both (λ bytes. bytes.now) (λ code. code) result ≡ marked_in said.now }
{
    match said {
        Said::Why(Ok(Fate::Marked { group, mark: _ })) => Ok(group.bytes()),
        Said::WhyHeld(_, hold) => Ok(hold.group.bytes()),
        _ => Err(NO_RESULT),
    }
}
