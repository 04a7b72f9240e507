//! The place of a key among rows whose keys rise.
//! A contract sees the keys of the rows, and a place as the first of that key.
ghost use Rattle.std.specs.Prelude.{◌≡◌, Some, None, IfOk, IfErr, IfSome, length};
ghost use Rattle.std.specs.List.{position};
ghost use Rattle.std.specs.Option.{unwrap_or};
ghost use Rattle.ele_lists.specs.Keys.{Rises, stands_by, is_behind};

use crate::cut::Cut;
use crate::head::Head;
use ele_lists::Keyed;

/// Returns the place of the row with that key, or else the place to insert one. That is before the
/// first row of a greater key, or at the end.
pub fn place_of<T: Keyed>(rows: &[T], key: u64) -> Result<usize, usize>
    requires { Rises T.key rows.now }
    ensures found { IfOk result (λ at. position (stands_by T.key key) rows.now ≡ Some at) }
    ensures missing { IfErr result (λ at. position (stands_by T.key key) rows.now ≡ None) }
    ensures gap { IfErr result (λ at. unwrap_or (position (is_behind T.key key) rows.now)
        (length rows.now) ≡ at) }
{
    if let Some(at) = place_if_dense(rows, key) {
        return Ok(at);
    }
    let at = rows.partition_point(|row| row.key() < key);
    match rows.get(at) {
        Some(row) if row.key() == key => Ok(at),
        _ => Err(at),
    }
}

/// The place of the row with that key, if the keys from the first row to this one have no gap. Rows
/// get their numbers in order, so this holds until one is removed, and it saves the search.
fn place_if_dense<T: Keyed>(rows: &[T], key: u64) -> Option<usize>
    requires { Rises T.key rows.now }
    ensures { IfSome result (λ at. position (stands_by T.key key) rows.now ≡ Some at) }
{
    let first = rows.first()?.key();
    let at = usize::try_from(key.checked_sub(first)?).ok()?;
    match rows.get(at) {
        Some(row) if row.key() == key => Some(at),
        _ => None,
    }
}

/// The cut before a key: rows with lesser keys are before it.
#[derive(Clone, Copy)]
pub struct BeforeKey(pub u64);

/// The cut after a key: rows with that key or a lesser one are before it.
#[derive(Clone, Copy)]
pub struct BehindKey(pub u64);

impl Cut for BeforeKey {
    ghost use Rattle.std.specs.Prelude.{nat_lt};

    ghost before = { λ cut head. nat_lt head.key cut.0 };

    fn is_behind(&self, head: Head) -> bool {
        head.key < self.0
    }
}

impl Cut for BehindKey {
    ghost use Rattle.std.specs.Prelude.{nat_le};

    ghost before = { λ cut head. nat_le head.key cut.0 };

    fn is_behind(&self, head: Head) -> bool {
        head.key <= self.0
    }
}
