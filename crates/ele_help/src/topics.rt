//! The help on a topic: a page, or what one command does.
ghost use Rattle.std.specs.Prelude.{◌≡◌, ◌<◌, IfOk, is_some};
ghost use Rattle.std.specs.List.{list_any};
ghost use Rattle.std.specs.Option.{option_map};
ghost use Rattle.ele_help.specs.Topics.{has_help, is_command, is_named};

use crate::errors::errors_help;
use crate::pages::{LIMITS, POLICIES};
use crate::paragraphs::PARAGRAPHS;
use crate::script::{put_usage, script_help};
use crate::wrapped::put_wrapped;
use ele_commands::{Command, HELP, ROWS, Row};
use std::alloc::{AllocError, Global};

// Whether one word or two name a command: `open` names two commands.
fn is_named(row: &Row, first: &str, second: Option<&str>) -> bool
    ensures { result ≡ is_named first.now (option_map (λ word. word.now) second.entry)
        row.now.1.now row.now.2.now }
{
    let (_, one, two, _, _) = *row;
    match second {
        Some(second) => one == first && two == second,
        None => one == first,
    }
}

// The place of a command in the tables.
fn place_of(command: Command) -> usize
    ensures { result < 48 }
{
    command as usize
}

// What is before the answer of a command.
const ANSWER: &str = "Answer: ";

// Appends the line of a command, its answer, what it does and its example.
fn put_command(text: &mut String, row: &Row) -> Result<(), AllocError> {
    let (command, _, _, _, _) = *row;
    let place = place_of(command);
    let (_, answer) = HELP[place];
    let (what, example) = PARAGRAPHS[place];
    if !text.is_empty() {
        text.push_str("\n")?;
    }
    text.push_str("Line:   ")?;
    put_usage(text, row)?;
    text.push_str("\n")?;
    text.push_str(ANSWER)?;
    put_wrapped(text, ANSWER.len(), answer)?;
    text.push_str("\n\n")?;
    text.push_str(what)?;
    text.push_str("\n")?;
    text.push_str(example)
}

// Whether the words name a command.
fn is_command(first: &str, second: Option<&str>) -> bool
    ensures { result ≡ is_command first.now (option_map (λ word. word.now) second.entry) }
{
    has_named(&ROWS, first, second)
}

// Whether they name one of these.
fn has_named(rows: &[Row], first: &str, second: Option<&str>) -> bool
    ensures { result
        ≡ list_any (λ row. is_named first.now (option_map (λ word. word.now) second.entry)
        row.1.now row.2.now) rows.now }
{
    rows.iter().any(|row| is_named(row, first, second))
}

// Returns the help on each command that the words name.
fn put_commands(alloc: Global, first: &str, second: Option<&str>) -> Result<String, AllocError> {
    let mut text = String::new(alloc);
    for row in ROWS.iter() {
        if is_named(row, first, second) {
            put_command(&mut text, row)?;
        }
    }
    Ok(text)
}

// The same, or None if they name no command.
fn command_help(
    alloc: Global,
    first: &str,
    second: Option<&str>,
) -> Result<Option<String>, AllocError>
    ensures { IfOk result
        (λ help. is_some help ≡ is_command first.now (option_map (λ word. word.now) second.entry)) }
{
    if !is_command(first, second) {
        return Ok(None);
    }
    Ok(Some(put_commands(alloc, first, second)?))
}

/// Returns the help on a page's word, or on each command that the words name. None if they are no such words.
pub fn topic_help(
    alloc: Global,
    first: &str,
    second: Option<&str>,
) -> Result<Option<String>, AllocError>
    ensures { IfOk result
        (λ help. is_some help ≡ has_help first.now (option_map (λ word. word.now) second.entry)) }
{
    if second.is_some() {
        return command_help(alloc, first, second);
    }
    match first {
        "script" => Ok(Some(script_help(alloc)?)),
        "refusals" => Ok(Some(errors_help(alloc)?)),
        "policies" => Ok(Some(String::from_str(alloc, POLICIES)?)),
        "limits" => Ok(Some(String::from_str(alloc, LIMITS)?)),
        _ => command_help(alloc, first, second),
    }
}
