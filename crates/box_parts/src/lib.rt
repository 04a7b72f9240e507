//! A box as its pointer and its allocator, so that a C handle can hold it between two calls. A
//! contract sees the value at the pointer.
#![tactic(auto)]

ghost use Rattle.std.specs.Prelude.{◌≡◌};
ghost use Rattle.std.specs.Box.Ownership.{box_owns};

use std::alloc::Allocator;
use std::marker::Model;

/// The pointer and the allocator of a box. It owns what the box owned: the value, and the right to free its memory.
pub struct Parts<T, A: Allocator> {
    /// The pointer to the value.
    pub at: *mut T,
    /// The allocator that frees its memory.
    pub alloc: A,
    pub ghost value: { T },
}

impl<T, A: Allocator> Model for Parts<T, A> {
    ghost also_owns = { λ parts. box_owns (A.dealloc_token parts.alloc) T.row parts.at parts.value };
}

impl<T, A: Allocator> Parts<T, A> {
    /// Takes a box apart, without a copy.
    pub fn of(boxed: Box<T, A>) -> Parts<T, A>
    where
        T: Drop,
        ensures { result.value ≡ boxed.value }
    {
        let (at, alloc) = Box::into_raw_with_allocator(boxed);
        Parts { at, alloc }
    }

    /// Makes the box again from its parts.
    pub fn into_box(self) -> Box<T, A>
        ensures { result.value ≡ self.value }
    {
        let Parts { at, alloc } = self;
        unsafe { Box::from_raw(alloc, at) }
    }
}
