//! A journal as bytes: a checkpoint, and the changes since. It is read back even if it was cut or
//! damaged. A contract sees the flat world, the changes as lists of events, and the bytes.
#![tactic(auto)]

// The value of a result, or the function's end with its error. It stands for `?`, which the checker
// doesn't prove where a value with a model and a reference are in one result.
macro_rules! taken {
    ($result:expr) => {
        match $result {
            Ok(found) => found,
            Err(stop) => return Err(stop),
        }
    };
}

mod change;
mod event;
mod fault;
mod items;
mod next;
mod path;
mod recovery;
mod rule;
mod session;
mod start;

pub use change::{Added, Change, Check, encode};
pub use event::is_change;
pub use fault::{Damage, EncodeError, Fault, RecoverError};
pub use recovery::{Recovered, recover};
pub use start::begin;
