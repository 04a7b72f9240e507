//! Laws about lines. A law is the contract of a function that does nothing.
ghost use Rattle.ele_script.specs.EventBack.{EventBack};
ghost use Rattle.ele_script.specs.EveryLine.{EveryLineMeaning};
ghost use Rattle.ele_script.specs.LineMeaning.{OneLineMeaning};

use ele_path::one_meaning;

/// No line asks for two things or has two first faults, and no line that asks for something has a
/// fault.
#[tactic(auto, using(crate::proofs::LineLaws::one_line_meaning))]
pub fn one_line_meaning()
    ensures { OneLineMeaning }
{
    // For the proof: a word means one path.
    one_meaning();
}

/// Each line asks for something or has a first fault.
pub fn every_line_meaning()
    ensures { EveryLineMeaning }
{}

/// The text that an event is printed as spells that event.
pub fn printed_values()
    ensures { EventBack }
{}
