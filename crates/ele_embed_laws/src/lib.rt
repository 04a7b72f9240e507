//! A law of stores with a journal: the contract of a function that does nothing.
//! A contract sees states of stores, and the bytes of files.
#![tactic(auto)]

ghost use Rattle.ele_embed_laws.specs.FilesKeep.{FilesKeep};

/// A file that keeps a store with a journal keeps it after each call. With the bytes that a call gives, at its
/// end or in its place, it keeps it once it is said that they are on the disk.
#[tactic(auto, using(crate::proofs::FilesKeep::files_keep))]
pub fn files_keep()
    ensures { FilesKeep }
{}
