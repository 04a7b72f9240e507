//! The map of a content that is given as cells.
//! A contract sees the slots of the cells, each with the block of its place or a new one.
ghost use Rattle.std.specs.Prelude.{◌≡◌, ◌≤◌, IfOk, length};
ghost use Rattle.std.specs.List.{AllByRecursion};
ghost use Rattle.ele_blocks.specs.Made.{HasBlock, IsMade};
ghost use Rattle.ele_blocks.specs.Placed.{HaveBytesOf, slots_with};
ghost use Rattle.ele_blocks.specs.PlaceLaws.{PlaceLaws};
ghost use Rattle.ele_content.specs.Content.{content_of, longest_content};
ghost use Rattle.ele_model.specs.WellFormed.{IsContent};

use ele_blocks::{BlockMap, BlockStore, PlacedBlocks};
use ele_content::Cell;
use ele_moment::NoMemory;
use std::alloc::Global;

// How many bytes the cells have.
fn size_of(cells: &[Cell]) -> u64
    requires { length (content_of cells.now) ≤ longest_content }
    ensures { result ≡ length (content_of cells.now) }
{
    let mut size = 0;
    for cell in cells {
        size += cell.bytes.as_slice().len() as u64;
    }
    size
}

/// Makes the map of the cells. A slot shares the block that its place has, if there is one.
pub fn new_map(
    alloc: Global,
    store: &mut BlockStore,
    placed: &PlacedBlocks,
    cells: &[Cell],
) -> Result<BlockMap, NoMemory>
    requires laws { PlaceLaws }
    requires content { IsContent cells.now }
    requires there { AllByRecursion (λ new. HasBlock store.old.blocks new.bytes)
        (slots_with placed.now 0 cells.now) }
    requires same { HaveBytesOf store.old placed.now 0 cells.now }
    ensures { IfOk result (IsMade store.old store.new (length (content_of cells.now))
        (slots_with placed.now 0 cells.now)) }
{
    let slots = placed.slots_of(alloc, cells)?;
    BlockMap::of_slots(alloc, store, size_of(cells), slots)
}
