//! What groups and policies decide about a version, whatever else its file holds: how long marks
//! hold it, when it ripens, what becomes of it, and the keys of a queue that change with that.
//! A contract sees groups as their rows and a queue as its keys.
#![tactic(auto)]

mod change;
mod fate;
mod keys;
mod marked;
mod ripening;

pub use change::{GroupChange, covers};
pub use fate::{free_fate, newer_of};
pub use keys::{
    KeyChange, add_change, new_key, put, put_changed, remove_old_keys, take, take_back,
};
pub use marked::first_mark;
pub use ripening::{case_moment, case_of, ripens_alone};
