//! The time in which a version was current. A contract sees plain data.
use ele_moment::{Moment, Name};

/// A mark of one group, or all its marks, to leave out.
#[derive(Clone, Copy)]
pub struct Except {
    pub name: Name,
    pub mark: Option<Moment>,
}

/// The time in which a version was current, from `closed` until `ended` or until now, and which
/// marks of that time to leave out.
#[derive(Clone, Copy)]
pub struct Span {
    pub closed: Moment,
    pub ended: Option<Moment>,
    pub except: Option<Except>,
}
