//! Blocks of at most 512 bytes, leaves that name them, and block maps, which share leaves; each map
//! is one content. A contract sees a store as the value under each number, and a map through it as
//! its cells.
#![tactic(auto)]

mod block;
mod laid;
pub mod laws;
mod leaf;
mod leaf_list;
mod map;
mod new_slot;
mod patch;
mod placed;
mod shared;
mod slot;
mod store;

pub use map::BlockMap;
pub use new_slot::{NewSlot, SlotBytes};
pub use placed::PlacedBlocks;
pub use store::{BlockId, BlockStore};
