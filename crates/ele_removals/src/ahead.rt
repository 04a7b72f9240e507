//! The versions that will be due at a moment, each with the name of its file. A contract sees them as
//! rows.
ghost use Rattle.std.specs.Prelude.{◌≢◌, ◌≤◌, [], IfOk, OnErr};
ghost use Rattle.std.specs.List.{AllZip};
ghost use Rattle.ele_model.specs.Change.{Time, after_change};
ghost use Rattle.ele_model.specs.Scan.{scan};
ghost use Rattle.ele_removals.specs.Expiring.{IsExpiring, IsExpiry};

use crate::expiry::{Expiries, Expiry};
use crate::known::known_story;
use ele_model::{Explain, Key, KeyList, NameRow, NoMemory, Refusal, Target};
use ele_moment::Moment;
use std::alloc::Global;

/// Returns the versions that are due at the moment if only the clock moves until then, in order of
/// removal, each with the name that leads to its file now, or the last one if none does. Refused:
/// `NotAhead` if the moment is before now.
///
/// `NoMemory` if memory is refused. If there is no such version, it takes none.
/// Cost: that of `due_by`, one copy of the rows of names, and for each version a scan of these, also
/// for each name of its path.
pub fn expiring<C: Explain>(moment: Moment, core: &C) -> Result<Result<Expiries, Refusal>, NoMemory>
    ensures ok { IfOk result (IsExpiring (C.world core.now) moment) }
    ensures err { OnErr result (((C.world core.now).now ≤ moment)
        × (scan (after_change (C.world core.now) (Time moment)) ≢ [])) }
{
    if moment < core.now() {
        return Ok(Err(Refusal::NotAhead));
    }
    let keys = core.due_by(moment)?;
    let found = with_names(&keys, core)?;
    Ok(Ok(found))
}

// The versions of the keys, each with the name of its file. It takes no memory if there are none.
fn with_names<C: Explain>(keys: &KeyList, core: &C) -> Result<Expiries, NoMemory>
    ensures ok { IfOk result
        (λ found. AllZip (IsExpiry (C.world core.now).names) keys.now found.rows.items) }
    ensures err { OnErr result (keys.now ≢ []) }
{
    let alloc = keys.allocator();
    let keys = keys.as_slice();
    if keys.is_empty() {
        return Ok(Expiries {
            rows: Vec::new(alloc),
        });
    }
    let names = core.name_rows()?;
    let rows = rows_of(alloc, &names, keys)?;
    Ok(Expiries { rows })
}

// The versions of the keys, each with the name that these rows have for its file.
fn rows_of(alloc: Global, names: &[NameRow], keys: &[Key]) -> Result<Vec<Expiry>, NoMemory>
    ensures { IfOk result (λ rows. AllZip (IsExpiry names.now) keys.now rows.items) }
{
    let mut rows = Vec::new(alloc);
    for key in keys {
        let row = row_of(alloc, names, *key)?;
        rows.push(row)?;
    }
    Ok(rows)
}

// The version of the key, with the name that these rows have for its file.
fn row_of(alloc: Global, names: &[NameRow], key: Key) -> Result<Expiry, NoMemory>
    ensures { IfOk result (IsExpiry names.now key) }
{
    let name = known_story(alloc, names, &Target::File(key.file))?;
    Ok(Expiry { key, name })
}
