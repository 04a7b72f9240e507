//! A whole world as bytes, and back.
//! A contract sees the flat world, and the list of the bytes.
#![tactic(auto)]

// The value of a result, or the function's end with its error. It stands for `?`, which the checker
// doesn't prove where a value with a model and a reference are in one result.
macro_rules! taken {
    ($result:expr) => {
        match $result {
            Ok(found) => found,
            Err(stop) => return Err(stop),
        }
    };
}

mod checkpoint;
mod coded;
mod content;
mod draft;
mod fault;
pub mod laws;
pub mod number;
mod row;
mod seal;
mod sum;
pub mod value;
mod version;
mod whole;

pub use checkpoint::{read, read_back, write, write_back};
pub use fault::{Fault, Flaw, Mistake, ReadError, Stop, wrong};
pub use sum::crc32c;
