//! What the curves of a drawing measure. A contract sees it as plain data.

/// What the curves of a drawing measure.
#[derive(Clone, Copy, PartialEq, Eq)]
pub enum Measure {
    /// How many versions stay.
    Versions,
    /// The bytes of these.
    Bytes,
}
