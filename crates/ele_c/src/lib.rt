//! Elephant as a C library: an opaque handle, and the calls below `include/elephant.h`. A contract sees a handle as its store, if it
//! is open.
#![tactic(auto)]

ghost use Rattle.std.specs.Borrow.{sem};
ghost use Rattle.ele_c.specs.declared.handle.Elephant.{Elephant};
ghost use Rattle.ele_c.specs.Given.{given, handle_at};

mod answers;
mod checkpoints;
mod events;
mod fresh;
mod handle;
mod journals;
mod lines;
mod opens;
mod renewal;

use box_parts::Parts;
pub use ele_c_values::{LimitFields, Numbers};
use fresh::{Grip, fresh};
pub use handle::Elephant;
use opens::elephant_close;
use std::alloc::Global;

/// Stores a closed handle on the heap at `out`, or null if memory is refused.
#[unsafe(no_mangle)]
pub extern "C" fn elephant_new(alloc: Global, out: &mut *mut Elephant)
    ensures* { sem 𝓛 (given out.new) }
{
    let Grip { at } = fresh(alloc);
    *out = at;
}

/// Closes a handle from `elephant_new`, and frees it.
#[unsafe(no_mangle)]
pub unsafe extern "C" fn elephant_delete(alloc: Global, elephant: *mut Elephant)
    ghost inside: { Elephant }
    requires* { sem 𝓛 (handle_at elephant inside) }
{
    finish(Parts {
        at: elephant,
        alloc,
    });
}

fn finish(parts: Parts<Elephant, Global>) {
    let boxed = parts.into_box();
    let alloc = *Box::allocator(&boxed);
    let mut elephant = Box::into_inner(boxed);
    elephant_close(alloc, &mut elephant);
}
