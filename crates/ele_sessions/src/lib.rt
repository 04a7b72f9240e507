//! The open handles, the versions that they read, and the drafts that they write, at most one for
//! each file. A contract sees the drafts by file id, the handles by number, and how many were ever
//! opened.
#![tactic(auto)]

mod changing;
mod closing;
mod draft;
mod drafts;
mod entries;
mod fault;
mod found_handle;
mod leaving;
mod opening;
mod sessions;

pub use closing::Closing;
pub use drafts::Drafts;
pub use ele_model::Reads;
pub use fault::SessionFault;
pub use found_handle::FoundHandle;
pub use sessions::Sessions;
