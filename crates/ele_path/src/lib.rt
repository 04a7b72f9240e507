//! Paths of names, and the tags after them. A contract sees a path as the list of its names, which
//! are lists of bytes. It sees a path with a tag as the record of both.
#![tactic(auto)]

mod fault;
mod kept_name;
mod laws;
mod names;
mod path;
mod path_at;
mod tagged;
mod text;

pub use fault::{PathAtFault, PathFault};
pub use kept_name::KeptName;
pub use laws::one_meaning;
pub use names::Names;
pub use path::Path;
pub use path_at::PathAt;
pub use tagged::{Tag, TaggedPath};
