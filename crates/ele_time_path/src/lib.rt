//! Paths with tags, and what they lead to among the names, now and at an earlier moment. A contract
//! sees a path as the list of its names, and a walk as `ele_model` defines it.
#![tactic(auto)]

mod fault;
mod listed;
mod walk;

pub use ele_model::Target;
pub use ele_path::{PathAt, PathAtFault, PathFault, Tag};
pub use fault::WalkFault;
pub use listed::{Path, TaggedPath};
pub use walk::{parent_now, resolve_at, resolve_now};
