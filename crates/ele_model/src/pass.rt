//! How a pass ends.
ghost use Rattle.std.specs.Prelude.{Some};
ghost use Rattle.ele_model.specs.AnswerText.{words_text, pass_words};

use crate::refusal::Stop;
use std::fmt;

/// How a pass over the due versions ended, and how many it removed. It is displayed as scripts
/// print it: `ok pass finished 4`, `ok pass budget 2`, `stop 1 NoMemory removed 3`.
#[derive(Clone, Copy, PartialEq, Eq)]
pub enum PassEnd {
    /// Nothing is due any more.
    Finished(u64),
    /// The pass removed as many as its budget allows.
    Budget(u64),
    /// A clean event was stopped; removed versions stay removed.
    Stopped(Stop, u64),
}

impl fmt::Display for PassEnd {
    ghost output = { λ end. Some (words_text (pass_words end)) };

    fn fmt<W: fmt::Write>(&self, f: &mut fmt::Formatter<W>) -> fmt::Result {
        match self {
            PassEnd::Finished(removed) => write!(f, "ok pass finished {removed}"),
            PassEnd::Budget(removed) => write!(f, "ok pass budget {removed}"),
            PassEnd::Stopped(stop, removed) => {
                let (number, name) = (stop.number(), stop.name());
                write!(f, "stop {number} {name} removed {removed}")
            }
        }
    }
}
