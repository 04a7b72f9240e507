//! The files of one world: their held versions, and the drafts and handles that write them. A
//! contract sees the flat rows of all files.
#![tactic(auto)]

mod boxed;
mod file;
mod files;
mod meant;

pub use ele_inode_log::Meter;
pub use ele_sessions::FoundHandle;
pub use file::NewVersion;
pub use files::neighbours::FileHead;
pub use files::newer::Beside;
pub use files::reading::Copied;
pub use files::{Files, RemovedVersion};
