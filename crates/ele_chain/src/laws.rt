//! The laws of chains. A contract sees chains as lists of rows.
ghost use Rattle.ele_chain.specs.LongerChain.{LongerChain};
ghost use Rattle.ele_chain.specs.OneChain.{OneChain};

/// Chains that have the same last hash have the same rows, unless two different texts that they hash
/// have one SHA-256.
pub fn one_chain()
    ensures { OneChain }
{}

/// A chain that goes on begins with the bytes that it had.
pub fn longer_chain()
    ensures { LongerChain }
{}
