//! Tests of rows, one row at a time.
//! A contract sees the first row that fails as a place.
ghost use Rattle.std.specs.Prelude.{◌↔◌, IsTrue, IfNone, IfSome};
ghost use Rattle.std.specs.List.{AllByRecursion};
ghost use Rattle.ele_well_formed.specs.Wrong.{IsWrong};

/// A test of one row, with what it looks up.
pub trait Test<T> {
    ghost use Rattle.std.specs.Prelude.{◌↔◌, IsTrue};

    ghost ready: { Self → Type 0 };

    ghost fits: { Self → T → Type 0 };

    /// Whether the row passes.
    fn fits(&self, row: &T) -> bool
        requires { ready self.now }
        ensures { IsTrue result ↔ fits self.now row.now };
}

/// Returns the place of the first row that fails. None if all pass.
pub fn first_wrong<T, C: Test<T>>(rows: &[T], test: &C) -> Option<usize>
    requires { C.ready test.now }
    ensures none { IfNone result (AllByRecursion (C.fits test.now) rows.now) }
    ensures some { IfSome result (IsWrong (C.fits test.now) rows.now) }
{
    for at in 0..rows.len() {
        if !test.fits(&rows[at]) {
            return Some(at);
        }
    }
    None
}

/// Whether all rows pass.
pub fn all_fit<T, C: Test<T>>(rows: &[T], test: &C) -> bool
    requires { C.ready test.now }
    ensures { IsTrue result ↔ AllByRecursion (C.fits test.now) rows.now }
{
    first_wrong(rows, test).is_none()
}
