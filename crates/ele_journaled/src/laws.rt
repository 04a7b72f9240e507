//! Laws: each is the contract of a function that does nothing.
//! A contract sees worlds, the state of their journals, and the bytes of files.
ghost use Rattle.ele_journaled.specs.Example.{IsExample};
ghost use Rattle.ele_journaled.specs.FilesStay.{FilesStay};

/// A file that keeps a world with its journal keeps both after each event and each call, and what is recovered from it is that world.
#[tactic(auto, using(crate::proofs::FilesStay::files_stay))]
pub fn files_stay()
    ensures { FilesStay }
{}

/// A store by hand, the file that keeps it, and what its next bytes make of both.
#[tactic(auto, using(crate::proofs::Examples::is_example))]
pub fn example_is_kept()
    ensures { IsExample }
{}
