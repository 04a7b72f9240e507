//! The handle and its three operations, whose proofs are by hand. A contract sees its fields:
//! whether it is open, and the store.
ghost use Rattle.std.specs.Prelude.{◌≡◌, true, false};
ghost use Rattle.ele_embed.specs.Embedding.{Embedding};
ghost use Rattle.ele_embed.specs.contracts.Store.{the_row as store_row};
ghost use Rattle.ele_c.specs.Held.{owns_store};

mod fresh;

use box_parts::Parts;
use ele_embed::Store;
pub use fresh::closed;
use std::alloc::Global;
use std::marker::{Model, Send};

/// A store on the heap, if the handle is open. Its pointer has no type, since no C call may name a store's.
#[repr(C)]
#[derive(Drop)]
pub struct Elephant {
    at: *mut u8,
    is_full: bool,
    ghost held: { Embedding } by { store_row.coded },
}

impl Model for Elephant {
    ghost also_owns = { λ elephant. owns_store elephant.is_full elephant.at elephant.held };
}

// A C program may pass it to another thread between two calls.
unsafe impl Send for Elephant {}

impl Elephant {
    /// Returns whether it is open.
    pub(crate) fn is_open(&mut self) -> bool
        ensures full { result ≡ self.old.is_full }
        ensures same { self.new ≡ self.old }
    {
        self.is_full
    }

    /// Takes the store out.
    pub(crate) fn take(&mut self, alloc: Global) -> Parts<Store, Global>
        requires full { self.old.is_full ≡ true }
        ensures taken { result.value ≡ self.old.held }
        ensures closed { self.new.is_full ≡ false }
    {
        self.is_full = false;
        Parts {
            at: self.at as *mut Store,
            alloc,
        }
    }

    /// Puts a store in.
    pub(crate) fn give(&mut self, parts: Parts<Store, Global>)
        requires closed { self.old.is_full ≡ false }
        ensures full { self.new.is_full ≡ true }
        ensures given { self.new.held ≡ parts.value }
    {
        let Parts { at, alloc: _ } = parts;
        self.at = at as *mut u8;
        self.is_full = true;
    }
}
