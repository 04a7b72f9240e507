//! The commands of scripts, as the program lists them: a heading for each topic, and a line for each
//! command. `tools/examples` compares the lines with those of `docs/SCRIPT.md`.

use crate::wrapped::put_wrapped;
use ele_commands::{HELP, ROWS, Row, Topic, WordKind};
use std::alloc::{AllocError, Global};

const HEAD: &str = "\
A script is lines of words with one space between each two. Each line gets one
answer. Its first word is ok, no (a refusal, with its number and name), bad (the
line is no command) or stop (no memory, or the history is full).
'elephant help COMMAND' explains one command, as in 'elephant help create'.

Lines and their answers:
";

const LETTERS: &str = "
  N, H, V  a number, a handle, a version's number: digits without a leading zero
  M, U     a moment: seconds since 1970, or a time as 2026-01-31T12:00:00Z
  P, Q     a path: / or names as /docs/notes
  A        a path, or a path@M for what was there at that moment: if several
           versions closed in that second, the last of them
  T        the same, or a path#V for the version of that number
  G        the name of a group
  X        bytes as hexadecimal digits, as printf 'hi' | xxd -p prints them,
           or - for none
  POL      one, all, safe:SECONDS, safe:SECONDS/FLOOR or landmarks:AGE/WIDTH,..
           in seconds: 604800 is a week
  [U] [P]  words that you may leave out; T|H is either of two
";

// The headings, in the order in which they are printed.
static HEADINGS: [(Topic, &str); 9] = [
    (Topic::Time, "Time\n"),
    (Topic::Names, "Directories and names\n"),
    (Topic::Contents, "Sessions and versions\n"),
    (Topic::Questions, "Questions\n"),
    (Topic::Policies, "Policies\n"),
    (Topic::Cleaning, "Forgetting\n"),
    (Topic::Groups, "Groups and marks\n"),
    (Topic::History, "Histories\n"),
    (
        Topic::Why,
        "Explaining, only with the option --explain of elephant run\n",
    ),
];

// The column of the answers.
const WIDTH: usize = 23;

// The letters that stand for a word after another one. A path after a path is Q, a moment after a
// moment is U, and a path after that may be left out.
fn letters(kind: WordKind, after_path: bool, after_moment: bool) -> &'static str {
    match kind {
        WordKind::Number => "N",
        WordKind::Handle => "H",
        WordKind::Version => "V",
        WordKind::Moment if after_moment => "U",
        WordKind::Moment => "M",
        WordKind::End => "[U]",
        WordKind::Name => "G",
        WordKind::Path if after_path => "Q",
        WordKind::Path if after_moment => "[P]",
        WordKind::Path => "P",
        WordKind::Tagged => "T",
        WordKind::Timed => "A",
        WordKind::Source => "T|H",
        WordKind::Bytes => "X",
        WordKind::Policy => "POL",
    }
}

/// Appends the words of a command, and the letters of the words after them.
pub(crate) fn put_usage(text: &mut String, row: &Row) -> Result<(), AllocError> {
    let (_, first, second, kinds, _) = *row;
    text.push_str(first)?;
    if !second.is_empty() {
        text.push_str(" ")?;
        text.push_str(second)?;
    }
    let (mut after_path, mut after_moment) = (false, false);
    for kind in kinds {
        text.push_str(" ")?;
        text.push_str(letters(*kind, after_path, after_moment))?;
        after_path = *kind == WordKind::Path;
        after_moment = *kind == WordKind::Moment;
    }
    Ok(())
}

/// Appends spaces to a text that is shorter than a width.
pub(crate) fn pad(text: &mut String, width: usize) -> Result<(), AllocError> {
    let length = text.len();
    for _ in length..width {
        text.push_str(" ")?;
    }
    Ok(())
}

// Appends the line of a command.
fn put_line(alloc: Global, text: &mut String, row: &Row, answer: &str) -> Result<(), AllocError> {
    let mut usage = String::from_str(alloc, "    ")?;
    put_usage(&mut usage, row)?;
    pad(&mut usage, WIDTH)?;
    text.push_str(usage.as_str())?;
    put_wrapped(text, WIDTH, answer)?;
    text.push_str("\n")
}

// Appends the lines of the commands of a topic.
fn put_topic(alloc: Global, text: &mut String, wanted: Topic) -> Result<(), AllocError> {
    for row in ROWS.iter() {
        let (command, _, _, _, _) = *row;
        let (topic, answer) = HELP[command as usize];
        if topic == wanted {
            put_line(alloc, text, row, answer)?;
        }
    }
    Ok(())
}

/// What `elephant help script` prints.
pub(crate) fn script_help(alloc: Global) -> Result<String, AllocError> {
    let mut text = String::from_str(alloc, HEAD)?;
    for entry in HEADINGS.iter() {
        let (topic, heading) = *entry;
        text.push_str("  ")?;
        text.push_str(heading)?;
        put_topic(alloc, &mut text, topic)?;
    }
    text.push_str(LETTERS)?;
    Ok(text)
}
