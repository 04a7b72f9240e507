//! What is remembered of bytes that were given out.
//! A contract sees plain data.
use ele_journal::Check;

/// Bytes that may be on the disk by now: the check at their end, and how many events of the change
/// under way they have.
#[derive(Clone, Copy)]
pub struct Offer {
    pub check: Check,
    pub count: usize,
}
