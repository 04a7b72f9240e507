//! How live names form a tree. Each law is the contract of a function that does nothing.
ghost use Rattle.ele_world.specs.OneTree.{NoneInItself, OneTree, OneTreeInFreshRuns, OneTreeInRuns};

use ele_policy::laws;

/// An event leaves the live names one tree: the root has no name, and live names lead from it to
/// each directory.
pub fn one_tree()
    ensures { OneTree }
{
    laws::policies_are_lawful();
}

/// After any list of events the live names are one tree, if they were before them. So they are in
/// every run from the fresh world.
#[tactic(auto, using(crate::proofs::Runs::one_tree, crate::proofs::Runs::one_tree_fresh))]
pub fn one_tree_in_runs()
    ensures runs { OneTreeInRuns }
    ensures fresh { OneTreeInFreshRuns }
{
    laws::policies_are_lawful();
}

/// So no directory is in itself, at any depth: no path from it leads to it.
pub fn none_in_itself()
    ensures { NoneInItself }
{}
