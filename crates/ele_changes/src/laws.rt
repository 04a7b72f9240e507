//! A law about changes. A law is the contract of a function that does nothing.
ghost use Rattle.ele_changes.specs.BothMoments.{BothMoments};

/// A change loses a name just if a look-up with the first moment finds it and one with the second
/// doesn't, and gains one the other way round. It keeps a name just if both find it, of a file of
/// which it isn't known that it had one version at both.
pub fn both_moments()
    ensures { BothMoments }
{}
