//! The line `help`. A contract says which lines ask for help, and on which topic there is some. What
//! a text says is tested.
ghost use Rattle.std.specs.Prelude.{◌≡◌, ◌≢◌, ◌++◌, [], IfErr, IfOk, List, MatchOption, codes, ℕ};
ghost use Rattle.std.specs.Option.{option_map};
ghost use Rattle.std.specs.Str.{IsUtf8, bytes_eq};
ghost use Rattle.ele_dialog.specs.Help.{IsHelp, IsTopic, IsTopicBehind, first_word};
ghost use Rattle.ele_output.specs.Prints.{Prints};

use ele_help::topic_help;
use ele_moment::NoMemory;
use ele_output::Printer;
use memchr::memchr;
use std::alloc::Global;
use std::io::Write;

const NO_HELP: &[u8] =
    b"there is no help on this; help lists all lines, and help create explains one\n";

/// Returns on which topic a line asks for help: `help` alone on all lines of scripts. None if it
/// doesn't ask for help.
pub(crate) fn topic_of(line: &[u8]) -> Option<&[u8]>
    ensures { IsTopic line.now (option_map (λ topic. topic.now) result) }
{
    if is_help(line) {
        Some(b"script")
    } else {
        topic_behind(line)
    }
}

// Whether a line is `help`.
fn is_help(line: &[u8]) -> bool
    ensures { result ≡ bytes_eq line.now (codes "help") }
{
    line == b"help".as_slice()
}

// Returns the topic of a line that begins with `help` and a space.
fn topic_behind(line: &[u8]) -> Option<&[u8]>
    ensures { IsTopicBehind line.now (option_map (λ topic. topic.now) result) }
{
    match behind_help(line) {
        Some(words) => Some(first_word(words)),
        None => None,
    }
}

// Returns what is behind `help` and a space, if the line begins so.
fn behind_help(line: &[u8]) -> Option<&[u8]>
    ensures { MatchOption result ((words : List ℕ) → line.now ≢ codes "help " ++ words)
        (λ words. line.now ≡ codes "help " ++ words.now) }
{
    line.strip_prefix(b"help ".as_slice())
}

// Returns the bytes before the first space.
fn first_word(words: &[u8]) -> &[u8]
    ensures { result.now ≡ first_word words.now }
{
    match memchr(b' ', words) {
        Some(at) => words.split_at(at).0,
        None => words,
    }
}

/// Prints the help on a topic, or that there is none. `NoMemory` if memory is refused, when nothing is
/// printed.
pub(crate) fn put_help<W: Write>(
    alloc: Global,
    topic: &[u8],
    printer: &mut Printer<'_, W>,
) -> Result<(), NoMemory>
    ensures ok { IfOk result (λ _. (text : List ℕ) × IsHelp topic.now text
        × Prints W.contents printer.old printer.new text) }
    ensures err { IfErr result (λ _. IsUtf8 topic.now
        × Prints W.contents printer.old printer.new []) }
{
    let Ok(topic) = str::from_utf8(topic) else {
        printer.put(NO_HELP);
        return Ok(());
    };
    match topic_help(alloc, topic, None) {
        Ok(Some(text)) => printer.put(text.as_bytes()),
        Ok(None) => printer.put(NO_HELP),
        Err(_) => return Err(NoMemory),
    }
    Ok(())
}
