//! What an unknown command probably means. A contract sees a word as its bytes, and a hint as
//! itself.
ghost use Rattle.std.specs.Prelude.{◌≡◌, map};
ghost use Rattle.ele_reasons.specs.Hints.{audit_hint, hint_of, letter_hint, second_hint, session_hint, shell_hint, word_hint};

use crate::reasons::Hint;
use ele_commands::Command;

/// What these words probably mean. The word with the number, 1 or 2, makes them no command.
pub(crate) fn hint(number: u64, words: &[&[u8]]) -> Hint
    ensures { result ≡ hint_of number (map (λ word. word.now) words.now) }
{
    let Some((word, _)) = words.split_first() else {
        return Hint::Unknown;
    };
    if number == 2 {
        second_hint(word)
    } else {
        word_hint(word)
    }
}

// For a word that begins commands of two words.
fn second_hint(word: &[u8]) -> Hint
    ensures { result ≡ second_hint word.now }
{
    if word == b"group".as_slice() {
        Hint::Group
    } else if word == b"open".as_slice() {
        Hint::Open
    } else {
        Hint::Unknown
    }
}

// For a word that begins no command.
fn word_hint(word: &[u8]) -> Hint
    ensures { result ≡ word_hint word.now }
{
    if word == b"why".as_slice() {
        Hint::Explaining
    } else if word == b"ahead".as_slice() {
        Hint::Explaining
    } else {
        audit_hint(word)
    }
}

// For a word that asks what happened, or any other word.
fn audit_hint(word: &[u8]) -> Hint
    ensures { result ≡ audit_hint word.now }
{
    if word == b"gone".as_slice() {
        Hint::Explaining
    } else if word == b"handles".as_slice() {
        Hint::Explaining
    } else if word == b"answers".as_slice() {
        Hint::Explaining
    } else if word == b"story".as_slice() {
        Hint::Explaining
    } else if word == b"removals".as_slice() {
        Hint::Explaining
    } else if word == b"changes".as_slice() {
        Hint::Explaining
    } else if word == b"expiring".as_slice() {
        Hint::Explaining
    } else {
        shell_hint(word)
    }
}

// For a command of a shell, or any other word.
fn shell_hint(word: &[u8]) -> Hint
    ensures { result ≡ shell_hint word.now }
{
    if word == b"ls".as_slice() {
        Hint::Instead(Command::ListNames)
    } else if word == b"cat".as_slice() {
        Hint::Instead(Command::Read)
    } else if word == b"rm".as_slice() {
        Hint::Instead(Command::Unlink)
    } else if word == b"mv".as_slice() {
        Hint::Instead(Command::Rename)
    } else {
        session_hint(word)
    }
}

// For a word that ends or changes directory in another tool, or any other word.
fn session_hint(word: &[u8]) -> Hint
    ensures { result ≡ session_hint word.now }
{
    if word == b"exit".as_slice() {
        Hint::Leave
    } else if word == b"quit".as_slice() {
        Hint::Leave
    } else if word == b"cd".as_slice() {
        Hint::Place
    } else {
        letter_hint(word)
    }
}

// For a word by its first byte.
fn letter_hint(word: &[u8]) -> Hint
    ensures { result ≡ letter_hint word.now }
{
    match word {
        [b'#', ..] => Hint::Remark,
        [first, ..] if b'A' <= *first && *first <= b'Z' => Hint::Case,
        _ => Hint::Unknown,
    }
}
