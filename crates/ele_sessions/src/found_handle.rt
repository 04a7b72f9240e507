//! The result of a look-up of an open handle, so that a later call needn't search for it.
//! A contract sees its row, and the place of the row.
use ele_model::HandleRow;

/// An open handle, and its place among the open handles. The place holds until one of them is
/// closed.
#[derive(Clone, Copy)]
pub struct FoundHandle {
    pub row: HandleRow,
    pub place: usize,
}
