//! Rows in a chain: below each is the SHA-256 of it and of the hash above it. A contract sees rows
//! and the lines of hashes as their bytes.
#![tactic(auto)]

mod hash;
pub mod laws;

pub use hash::{HASH_LINE, HashLine};
