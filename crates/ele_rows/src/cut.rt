//! Traits for a search and for a change of one row, for lists that hide the places of their rows.
//! A contract sees the test of a row's head, and the row after its change.

use crate::head::{Head, Headed};

/// A cut of a list in two parts: no row before the cut follows a row after it. A binary search
/// finds the cut, and reads nothing but heads.
pub trait Cut {
    ghost use Rattle.std.specs.Prelude.{◌≡◌, Bool};
    ghost use Rattle.ele_rows.specs.declared.head.Head.{Head};

    ghost before: { Self → Head → Bool };

    /// Whether the row of that head is before the cut.
    fn is_behind(&self, head: Head) -> bool
        ensures { result ≡ before self.now head };
}

/// A change of one row, which keeps its head.
pub trait Change<T: Headed> {
    ghost use Rattle.std.specs.Prelude.{◌≡◌};

    ghost changed: { Self → T → T };

    /// Makes the change.
    fn apply(&self, row: &mut T)
        ensures { row.new ≡ changed self.now row.old };

    ghost keeps: { (change : Self) (row : T) → T.head (changed change row) ≡ T.head row };
}
