//! Laws of every word. A law is the contract of a function that does nothing.
ghost use Rattle.ele_path.specs.OneMeaning.{OneMeaning};

/// No word spells two paths. If a word spells a path with a tag, its first mark cuts it into a word
/// of the path and the text of the tag. If a word spells a path of any of the three kinds, it has
/// no fault as that kind. No word has two faults.
#[tactic(auto, using(crate::proofs::PathsAt::one_meaning))]
pub fn one_meaning()
    ensures { OneMeaning }
{}
