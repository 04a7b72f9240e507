//! A closed handle.
ghost use Rattle.std.specs.Prelude.{◌≡◌};
ghost use Rattle.ele_c.specs.Given.{closed_handle};

use super::Elephant;
use std::ptr::null_mut;

/// Returns a closed handle.
pub fn closed() -> Elephant
    ensures { result ≡ closed_handle }
{
    Elephant {
        at: null_mut(),
        is_full: false,
    }
}
