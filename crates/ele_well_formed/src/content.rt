//! Contents: how long, cut into slots, and who may have written them.
//! A contract sees the part of a world that says so.
ghost use Rattle.std.specs.Prelude.{◌≡◌, ◌<◌, ◌≤◌, ◌↔◌, IfNone, IfSome, IsTrue, length};
ghost use Rattle.ele_content.specs.Content.{content_of, fill_slots, longest_content};
ghost use Rattle.ele_model.specs.WellFormed.{AreWrittenBy, IsContent};

use crate::test::{Test, all_fit};
use ele_model::{Cell, VersionNo};

// The length of the longest content, in bytes.
const LONGEST_CONTENT: usize = 1_048_576;

// The length of a slot, in bytes.
const SLOT: usize = 512;

// The number of bytes of the cells. None if they are more than a content may have.
#[tactic(auto, using(crate::proofs::Contents::rest_bytes, std::proofs::lemmas::List::drop_all))]
fn length_of(cells: &[Cell]) -> Option<usize>
    ensures some { IfSome result (λ n. n ≡ length (content_of cells.now)) }
    ensures few { IfSome result (λ n. n ≤ longest_content) }
    ensures none { IfNone result (longest_content < length (content_of cells.now)) }
{
    let mut bytes = 0;
    for cell in cells {
        let more = cell.bytes.as_slice().len();
        if more > LONGEST_CONTENT - bytes {
            return None;
        }
        bytes += more;
    }
    Some(bytes)
}

// Whether the cells hold that many bytes, 512 each, and the last one 1 to 512.
#[tactic(auto, using(std::proofs::lemmas::List::drop_more, std::proofs::lemmas::List::drop_all))]
fn fill_slots(bytes: usize, cells: &[Cell]) -> bool
    ensures { result ≡ fill_slots bytes cells.now }
{
    let mut left = bytes;
    for cell in cells {
        if left == 0 || cell.bytes.as_slice().len() != left.min(SLOT) {
            return false;
        }
        left = left.saturating_sub(SLOT);
    }
    left == 0
}

/// Whether the cells are those of a content.
pub fn is_content(cells: &[Cell]) -> bool
    ensures { IsTrue result ↔ IsContent cells.now }
{
    match length_of(cells) {
        Some(bytes) => fill_slots(bytes, cells),
        None => false,
    }
}

// The test of a cell's writer, beside a version's number.
#[derive(Drop)]
struct WriterTest {
    number: VersionNo,
}

impl Test<Cell> for WriterTest {
    ghost use Rattle.std.specs.Prelude.{◌≤◌};

    ghost ready = { λ test. Unit {0} };

    ghost fits = { λ test cell. cell.writer ≤ test.number };

    fn fits(&self, cell: &Cell) -> bool {
        cell.writer <= self.number
    }
}

/// Whether no cell was written by a version with a greater number.
pub fn are_written_by(number: VersionNo, cells: &[Cell]) -> bool
    ensures { IsTrue result ↔ AreWrittenBy number cells.now }
{
    all_fit(cells, &WriterTest { number })
}
