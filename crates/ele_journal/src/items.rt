//! Names and events in lists, whose items have one form as bytes.
//! A contract sees the bytes of an item, and how they are read.
ghost use Rattle.std.specs.Prelude.{◌≡◌, ◌++◌, OnOk};
ghost use Rattle.ele_checkpoint.specs.Lists.{list_text};
ghost use Rattle.ele_checkpoint.specs.PartsRead.{items_at, list_at};
ghost use Rattle.ele_checkpoint.specs.Reading.{Gives};

use ele_checkpoint::Stop;
use ele_checkpoint::number::{number_of, put_number};
use ele_moment::NoMemory;
use std::alloc::Global;

/// An item of a list: `Coded` of `ele_checkpoint`, for types of other crates.
pub(crate) trait Item: Drop {
    ghost use Rattle.std.specs.Prelude.{ℕ, List, Result};
    ghost use Rattle.ele_checkpoint.specs.declared.fault.Mistake.{Mistake};

    ghost spelling: { Self → List ℕ };

    ghost reading: { List ℕ → Result (Self × List ℕ) Mistake };

    /// Adds the bytes of the item.
    fn put(&self, out: &mut Vec<u8>) -> Result<(), NoMemory>
        ensures { OnOk result (out.new.items ≡ out.old.items ++ spelling self.now) };

    /// Reads an item. The bytes after it follow in the result.
    fn get(alloc: Global, bytes: &[u8]) -> Result<(Self, &[u8]), Stop>
        ensures { Gives (λ x. (x.0, x.1.now)) result (reading bytes.now) };
}

/// Adds the bytes of a list.
pub(crate) fn put_list<T: Item>(out: &mut Vec<u8>, items: &[T]) -> Result<(), NoMemory>
    ensures { OnOk result (out.new.items ≡ out.old.items ++ list_text T.spelling items.now) }
{
    put_number(out, items.len() as u64)?;
    for item in items {
        item.put(out)?;
    }
    Ok(())
}

/// Reads a list. The bytes after it follow in the result.
pub(crate) fn list_of<T: Item>(alloc: Global, bytes: &[u8]) -> Result<(Vec<T>, &[u8]), Stop>
    ensures { Gives (λ x. (x.0.items, x.1.now)) result (list_at T.reading bytes.now) }
{
    let (count, rest) = number_of(bytes)?;
    items_of(alloc, count, rest)
}

// Reads so many items. Each takes a byte at least, or is a mistake, so no count makes it take more
// memory than the bytes do.
fn items_of<T: Item>(alloc: Global, count: u64, bytes: &[u8]) -> Result<(Vec<T>, &[u8]), Stop>
    ensures { Gives (λ x. (x.0.items, x.1.now)) result (items_at T.reading count bytes.now) }
{
    let mut items = Vec::new(alloc);
    let mut rest = bytes;
    for _ in 0..count {
        let (item, after) = taken!(T::get(alloc, rest));
        items.push(item)?;
        rest = after;
    }
    Ok((items, rest))
}
