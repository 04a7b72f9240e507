//! `elephant help TOPIC`, which clap knows nothing of.
ghost use Rattle.std.specs.Prelude.{◌≡◌, map, option_map, string_bytes};
ghost use Rattle.ele_help.specs.Topics.{has_help};
ghost use Rattle.ele_invocation.specs.Invocation.{IsHelp};
ghost use Rattle.ele_invocation.specs.Topics.{is_left_to_clap, topic_in};

use crate::invocation::{Invocation, not_understood, word};
use ele_help::topic_help;
use std::alloc::Global;

const NO_TOPIC: &str = "error: there is no help on this topic\n\n\
    Topics: script, policies, refusals, limits, run, storm, forecast,\n\
    evidence, verify, and each command of scripts, as in 'elephant help create'\n\n\
    For more information, try 'elephant help' and 'elephant help script'.\n";

// Whether clap has the help on a word of the program.
fn is_left_to_clap(first: &str) -> bool
    ensures { result ≡ is_left_to_clap first.now }
{
    matches!(
        first,
        "run" | "storm" | "forecast" | "evidence" | "verify" | "help" | "--help" | "-h"
    )
}

/// Returns the help on a topic or a command, or a refusal if there is none.
pub(crate) fn asked_topic(alloc: Global, first: &str, second: Option<&str>) -> Invocation
    ensures { IsHelp (has_help first.now (option_map (λ word. word.now) second.entry)) result }
{
    match topic_help(alloc, first, second) {
        Ok(Some(text)) => Invocation::Help(text),
        Ok(None) => not_understood(alloc, NO_TOPIC),
        Err(_) => Invocation::NoMemory,
    }
}

/// Returns the topic of the words `help TOPIC` and the word after it. `None` leaves the words to clap.
pub(crate) fn topic_of(words: &[String]) -> Option<(&str, Option<&str>)>
    ensures { option_map (λ topic. (topic.0.now, option_map (λ word. word.now) topic.1)) result
        ≡ topic_in (map string_bytes words.now) }
{
    if words.len() > 4 || word(words, 1) != Some("help") {
        return None;
    }
    let Some(first) = word(words, 2) else {
        return None;
    };
    if is_left_to_clap(first) {
        return None;
    }
    Some((first, word(words, 3)))
}
