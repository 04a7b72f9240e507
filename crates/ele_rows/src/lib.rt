//! Lists of rows: in chunks by a rising key, counted by key, and indexed.
//! A contract sees chunks as the list of their rows, a tally as counts, and an index as a test.
#![tactic(auto)]

mod chunk;
mod chunks;
mod cut;
mod head;
mod index;
mod keyed;
mod room;
mod rows;
mod seam;
mod tally;

pub use chunks::Chunks;
pub use cut::{Change, Cut};
pub use head::{Head, Headed};
pub use index::Index;
pub use keyed::{BeforeKey, BehindKey, place_of};
pub use room::put_at;
pub use rows::ChunkRows;
pub use tally::Tally;
