//! The command that the words of a line begin with, and the kinds of the words after it.
ghost use Rattle.std.specs.Prelude.{◌≡◌, ◌≤◌, ◌==◌, ◌∷◌, [], drop, length, map};
ghost use Rattle.std.specs.Option.{option_map};
ghost use Rattle.ele_commands.specs.Command.{kinds_of, name_of};
ghost use Rattle.ele_script.specs.Command.{kinds_if};
ghost use Rattle.ele_script.specs.CommandOf.{behind, command_in, command_of, commands, entry, FindsAll, find_command, first_letter, named};

use ele_commands::{Command, ROWS, Row, WordKind};

// The rows from the first one whose name begins with the letter.
fn rows_from(letter: u8) -> &'static [Row]
    ensures { FindsAll letter (map entry result.now) }
{
    let rows: &[Row] = &ROWS;
    rows.split_at(first_row(letter)).1
}

// The place of the first row whose name begins with the letter, or the end of the rows.
fn first_row(letter: u8) -> usize
    ensures within { result ≤ length commands }
    ensures finds { FindsAll letter (drop result (map named commands)) }
{
    match letter {
        b'a' => Command::Ahead as usize,
        b'c' => Command::Clock as usize,
        b'd' => Command::Due as usize,
        b'e' => Command::Expiring as usize,
        b'g' => Command::GroupMake as usize,
        b'h' => Command::History as usize,
        b'l' => Command::Link as usize,
        b'm' => Command::Mark as usize,
        b'n' => Command::Note as usize,
        b'o' => Command::OpenWrite as usize,
        b'p' => Command::Pass as usize,
        b'r' => Command::Read as usize,
        b's' => Command::Save as usize,
        b't' => Command::Tick as usize,
        b'u' => Command::Unlink as usize,
        b'v' => Command::Versions as usize,
        b'w' => Command::Write as usize,
        _ => ROWS.len(),
    }
}

fn first_letter(words: &[&[u8]]) -> Option<u8>
    ensures { result ≡ first_letter (map (λ word. word.now) words.now) }
{
    let (first, _) = words.split_first()?;
    let (letter, _) = first.split_first()?;
    Some(*letter)
}

/// Returns the command that the words begin with, and the words after it, or `None` if the run has
/// no such command. `explains` says whether the run explains.
// Inlined, so that the result stays in registers.
#[inline(always)]
pub fn read_command<'w, 'l>(
    explains: bool,
    words: &'w [&'l [u8]],
) -> Option<(Command, &'w [&'l [u8]])>
    ensures { option_map (λ x. (x.0, map (λ word. word.now) x.1.now)) result
        ≡ command_in explains (map (λ word. word.now) words.now) }
{
    let (command, behind) = any_command(words)?;
    if command.is_allowed(explains) {
        Some((command, behind))
    } else {
        None
    }
}

// The same for a run that has all commands.
#[inline(always)]
#[tactic(auto, using(crate::proofs::Letters::no_letter, crate::proofs::Letters::by_letter))]
fn any_command<'w, 'l>(words: &'w [&'l [u8]]) -> Option<(Command, &'w [&'l [u8]])>
    ensures { option_map (λ x. (x.0, map (λ word. word.now) x.1.now)) result
        ≡ command_of (map (λ word. word.now) words.now) }
{
    let letter = first_letter(words)?;
    find_command(rows_from(letter), words)
}

// The command of the first row whose name the words begin with.
fn find_command<'w, 'l>(rows: &[Row], words: &'w [&'l [u8]]) -> Option<(Command, &'w [&'l [u8]])>
    ensures { option_map (λ x. (x.0, map (λ word. word.now) x.1.now)) result
        ≡ find_command (map entry rows.now) (map (λ word. word.now) words.now) }
{
    for row in rows {
        let (command, first, second, _, _) = *row;
        if let Some(rest) = behind(words, first, second) {
            return Some((command, rest));
        }
    }
    None
}

// The words after a name of one word or two.
fn behind<'w, 'l>(words: &'w [&'l [u8]], first: &str, second: &str) -> Option<&'w [&'l [u8]]>
    ensures { option_map (λ rest. map (λ word. word.now) rest.now) result
        ≡ behind (name_of first.now second.now) (map (λ word. word.now) words.now) }
{
    let rest = behind_word(words, first)?;
    if second.is_empty() {
        return Some(rest);
    }
    behind_word(rest, second)
}

// The words after one word.
fn behind_word<'w, 'l>(words: &'w [&'l [u8]], name: &str) -> Option<&'w [&'l [u8]]>
    ensures { option_map (λ rest. map (λ word. word.now) rest.now) result
        ≡ behind (name.now ∷ []) (map (λ word. word.now) words.now) }
{
    let (first, rest) = words.split_first()?;
    if *first != name.as_bytes() {
        return None;
    }
    Some(rest)
}

/// Returns the kinds of the words after a command if there are `count` of them. An end, or the path
/// of `changes`, is among the kinds only if each kind has its word.
pub fn kinds_for(command: Command, count: usize) -> &'static [WordKind]
    ensures { result.now ≡ kinds_if command (count == length (kinds_of command)) }
{
    let kinds = command.kinds();
    match kinds {
        [shorter @ .., WordKind::End] if count != kinds.len() => shorter,
        [shorter @ .., WordKind::Path] if command == Command::Changes && count != kinds.len() => {
            shorter
        }
        _ => kinds,
    }
}
