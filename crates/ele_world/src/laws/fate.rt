//! The fate of a held version. Each law is the contract of a function that does nothing.
ghost use Rattle.ele_world.specs.FateTells.{DueFate, OneFate};

use ele_policy::laws;

/// A version has at most one fate.
pub fn one_fate()
    ensures { OneFate }
{}

/// The fate of a version is `Due` exactly if the scan has its key, since the moment of the key.
pub fn due_fate()
    ensures { DueFate }
{
    laws::policies_are_lawful();
}
