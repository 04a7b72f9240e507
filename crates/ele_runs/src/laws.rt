//! Laws of runs: each is the contract of a function that does nothing.
ghost use Rattle.ele_runs.specs.FrontOfOutput.{FrontOfOutput};
ghost use Rattle.ele_runs.specs.OneAnswer.{OneAnswer};
ghost use Rattle.ele_runs.specs.OneOutput.{OneOutput};
ghost use Rattle.ele_runs.specs.PlainOutput.{PlainOutput};
ghost use Rattle.ele_runs.specs.RepliesKeepHeadline.{RepliesKeepHeadline};
ghost use Rattle.ele_runs.specs.SomeAnswer.{SomeAnswer};
ghost use Rattle.ele_runs.specs.SomeOutput.{SomeOutput};
ghost use Rattle.ele_runs.specs.TallyCounts.{TallyCounts};

use ele_script::line_laws::{every_line_meaning, one_line_meaning};

/// From one history a line has one answer, unless memory stops it.
pub fn one_answer()
    ensures { OneAnswer }
{
    // Facts for the proof: no line has two meanings, and a pass depends only on its world.
    one_line_meaning();
    ele_history::laws::pass_is_of_world();
}

/// From one history lines have one output, unless memory stops one of them.
pub fn one_output()
    ensures { OneOutput }
{
    // A fact for the proof: each line has one answer.
    one_answer();
}

/// From a history within its limit of entries, each line has an answer that is no stop for memory.
pub fn some_answer()
    ensures { SomeAnswer }
{
    // A fact for the proof: each line has a meaning.
    every_line_meaning();
}

/// From a history within its limit of entries, lines have an output in which memory stopped none.
pub fn some_output()
    ensures { SomeOutput }
{
    // A fact for the proof: each line has a meaning.
    every_line_meaning();
}

/// The text of a run without options is an output, and each output is the text of such a run.
pub fn plain_output()
    ensures { PlainOutput }
{}

/// A run without options that its writer ended has written a prefix of an output of its input.
pub fn front_of_output()
    ensures { FrontOfOutput }
{
    // A fact for the proof: each line has a meaning.
    every_line_meaning();
}

/// The tally of a run counts the bad lines, the refusals and the stops among the answers to its whole
/// lines, and names the first of these lines and the first bad one.
pub fn tally_counts()
    ensures { TallyCounts }
{}

/// Events led to the world before each line of a run, from the fresh world of its limits. So each
/// reply to an event is as the headline says.
pub fn replies_keep_headline()
    ensures { RepliesKeepHeadline }
{
    // A fact for the proof: the reply of the step keeps the headline.
    ele_headline::headline();
}
