//! The path of a file or directory by its names, live or dead. A contract sees the names as rows.
#![tactic(auto)]

mod path;

pub use path::{Above, is_name_to, path_of};
