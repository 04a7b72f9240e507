//! A closed handle on the heap, as its pointer.
ghost use Rattle.std.specs.Prelude.{◌≡◌};
ghost use Rattle.ele_c.specs.Given.{given, closed_handle};

use crate::handle::{Elephant, closed};
use box_parts::Parts;
use std::alloc::Global;
use std::marker::Model;
use std::ptr::null_mut;

/// The pointer to a closed handle, or null.
pub(crate) struct Grip {
    pub(crate) at: *mut Elephant,
}

impl Model for Grip {
    ghost also_owns = { λ grip. given grip.at };
}

fn none() -> Grip
    ensures { result ≡ result }
{
    Grip { at: null_mut() }
}

fn held_by(parts: Parts<Elephant, Global>) -> Grip
    requires { parts.value ≡ closed_handle }
    ensures { result ≡ result }
{
    let Parts { at, alloc: _ } = parts;
    Grip { at }
}

/// Makes a closed handle on the heap, or returns null if memory is refused.
pub(crate) fn fresh(alloc: Global) -> Grip
    ensures { result ≡ result }
{
    match Box::new(alloc, closed()) {
        Ok(handle) => held_by(Parts::of(handle)),
        Err(_) => none(),
    }
}
