//! Why a line is no command. A contract sees a line as its bytes, and a reason as itself.
ghost use Rattle.std.specs.Prelude.{◌≡◌, ◌+◌, ◌<◌, ◌≤◌, ◌^◌, nat_lt, true, map, length, Err, IfOk, IfSome, IfNone, OnErr};
ghost use Rattle.std.specs.List.{list_all, list_any};
ghost use Rattle.ele_script.specs.FirstFault.{IsFirstFault, IsOfKind};
ghost use Rattle.ele_script.specs.Memory.{WordTakesMemory, any_takes, word_takes};
ghost use Rattle.ele_commands.specs.Command.{command_words, kinds_of};
ghost use Rattle.ele_reasons.specs.Reason.{IsFirstBadWord, IsReason, IsReasonOfWords, IsUnknown, IsDetail, IsWordReason, digits_detail, divides_names, fault_of, is_dated, is_digit, is_tag, is_united, mixed_detail, name_detail, path_detail, tagged_detail};
ghost use Rattle.ele_reasons.specs.ReasonFound.{AreOfKinds, IsCommand, TakesBehind, begin_row, begins_in};
ghost use Rattle.ele_script.specs.Words.{words_of};

use crate::cut::first_words;
use crate::hints::hint;
use crate::policy_detail::policy_detail;
use crate::reasons::{Detail, Reason};
use ele_commands::{Command, ROWS, Row, When, WordKind};
use ele_moment::NoMemory;
use ele_path::one_meaning;
use ele_printer::LineFault;
use ele_script::{LONGEST_LINE, begins_path, check_word, kinds_for, read_command};
use std::alloc::Global;

// Some editors begin a text with it.
const BYTE_ORDER_MARK: [u8; 3] = [0xef, 0xbb, 0xbf];

/// Returns why a line, without its line feed, is no command, or `None` if it is one. `explains`
/// says whether the run explains.
///
/// The reason is that of the fault for which `read_line_in` refuses the line, and names the first
/// word that has it. `NoMemory` comes only if the command takes a path or bytes.
pub fn reason(alloc: Global, explains: bool, line: &[u8]) -> Result<Option<Reason>, NoMemory>
    ensures some { IfOk result (λ found. IfSome found (IsReason explains line.now)) }
    ensures fault { IfOk result
        (λ found. IfSome found (λ reason. IsFirstFault explains line.now (fault_of reason))) }
    ensures none { IfOk result
        (λ found. IfNone found ((fault : LineFault) → ¬ IsFirstFault explains line.now fault)) }
    ensures memory { OnErr result (WordTakesMemory explains (words_of line.now)) }
{
    // For the proof: a word means one path.
    one_meaning();
    if line.len() > LONGEST_LINE {
        return Ok(Some(Reason::TooLong));
    }
    if line.starts_with(&BYTE_ORDER_MARK) {
        return Ok(Some(Reason::ByteOrderMark));
    }
    match first_words(line) {
        Ok(words) => words_reason(alloc, explains, words.as_slice()),
        Err(reason) => Ok(Some(reason)),
    }
}

// Why the first words of a line are no command.
fn words_reason(alloc: Global, explains: bool, words: &[&[u8]]) -> Result<Option<Reason>, NoMemory>
    ensures some { IfOk result
        (λ found. IfSome found (IsReasonOfWords explains (map (λ word. word.now) words.now))) }
    ensures none { IfOk result
        (λ found. IfNone found (IsCommand explains (map (λ word. word.now) words.now))) }
    ensures memory { OnErr result (TakesBehind explains (map (λ word. word.now) words.now)) }
{
    let Some((command, behind)) = read_command(explains, words) else {
        let number = unknown_number(explains, words);
        return Ok(Some(Reason::NoCommand(number, hint(number, words))));
    };
    let kinds = kinds_for(command, behind.len());
    if behind.len() != kinds.len() {
        return Ok(Some(Reason::Words(command, exceeds(command, behind.len()))));
    }
    bad_word(alloc, name_length(command), kinds, behind)
}

fn exceeds(command: Command, count: usize) -> bool
    ensures { result ≡ nat_lt (length (kinds_of command)) count }
{
    count > command.kinds().len()
}

fn name_length(command: Command) -> u64
    ensures is { result ≡ length (command_words command) }
    ensures few { result ≤ 2 }
{
    if command.words().1.is_empty() { 1 } else { 2 }
}

// The number of the word that makes these words no command.
fn unknown_number(explains: bool, words: &[&[u8]]) -> u64
    ensures { IsUnknown explains (map (λ word. word.now) words.now) result }
{
    if begins_command(explains, words, &ROWS) {
        2
    } else {
        1
    }
}

// Whether the first word, if there is one, begins the name in a row.
fn begins_command(explains: bool, words: &[&[u8]], rows: &[Row]) -> bool
    ensures { result ≡ begin_row explains (map (λ word. word.now) words.now) rows.now }
{
    let Some((word, _)) = words.split_first() else {
        return false;
    };
    begins_name(explains, word, rows)
}

// Whether the word begins the name in a row.
fn begins_name(explains: bool, word: &[u8], rows: &[Row]) -> bool
    ensures { result ≡ list_any (begins_in explains word.now) rows.now }
{
    rows.iter().any(|(_, first, _, _, when)| word == first.as_bytes()
        && (explains || *when == When::Always))
}

// Why the first word that isn't of its kind isn't; `before` is the number of words before these.
fn bad_word(
    alloc: Global,
    before: u64,
    kinds: &[WordKind],
    words: &[&[u8]],
) -> Result<Option<Reason>, NoMemory>
    requires count { length words.now ≡ length kinds.now }
    requires few { before + length words.now < 2 ^ 64 }
    ensures some { IfOk result (λ found. IfSome found
        (IsFirstBadWord before kinds.now (map (λ word. word.now) words.now))) }
    ensures none { IfOk result (λ found. IfNone found
        (AreOfKinds kinds.now (map (λ word. word.now) words.now))) }
    ensures memory { OnErr result
        (any_takes kinds.now (map (λ word. word.now) words.now) ≡ true) }
{
    let (Some((kind, kinds)), Some((word, words))) = (kinds.split_first(), words.split_first())
    else {
        return Ok(None);
    };
    let number = before + 1;
    let found = word_reason(alloc, number, *kind, word)?;
    if found.is_some() {
        return Ok(found);
    }
    bad_word(alloc, number, kinds, words)
}

// Why the word with this number isn't of its kind. `NoMemory` comes only if a word of the kind
// takes memory.
fn word_reason(
    alloc: Global,
    number: u64,
    kind: WordKind,
    word: &[u8],
) -> Result<Option<Reason>, NoMemory>
    ensures some { IfOk result (λ found. IfSome found (IsWordReason number kind word.now)) }
    ensures none { IfOk result (λ found. IfNone found (IsOfKind kind word.now)) }
    ensures memory { OnErr result (word_takes kind word.now ≡ true) }
{
    match check_word(alloc, kind, word) {
        Ok(()) => Ok(None),
        Err(LineFault::NoMemory) => Err(NoMemory),
        Err(fault) => Ok(Some(Reason::Word {
            number,
            kind,
            fault,
            detail: detail(kind, word),
        })),
    }
}

fn detail(kind: WordKind, word: &[u8]) -> Detail
    ensures { IsDetail kind word.now result }
{
    match kind {
        WordKind::Number
        | WordKind::Handle
        | WordKind::Version
        | WordKind::Moment
        | WordKind::End => digits_detail(word),
        WordKind::Name => name_detail(word),
        WordKind::Path => path_detail(word),
        WordKind::Tagged | WordKind::Timed => tagged_detail(word),
        WordKind::Source => {
            if begins_path(word) {
                Detail::Other
            } else {
                digits_detail(word)
            }
        }
        WordKind::Bytes => Detail::Other,
        WordKind::Policy => policy_detail(word),
    }
}

fn name_detail(word: &[u8]) -> Detail
    ensures { result ≡ name_detail word.now }
{
    if divides_names(word) {
        Detail::Tag
    } else {
        Detail::Other
    }
}

fn path_detail(word: &[u8]) -> Detail
    ensures { result ≡ path_detail word.now }
{
    if !begins_path(word) {
        Detail::NoSlash
    } else if has_tag(word) {
        Detail::Tag
    } else {
        Detail::Other
    }
}

// Whether the word has a byte that begins a tag or separates names.
fn divides_names(word: &[u8]) -> bool
    ensures { result ≡ list_any divides_names word.now }
{
    word.iter().any(|byte| *byte == b'/' || is_tag(*byte))
}

fn has_tag(word: &[u8]) -> bool
    ensures { result ≡ list_any is_tag word.now }
{
    word.iter().any(|byte| is_tag(*byte))
}

fn is_tag(byte: u8) -> bool
    ensures { result ≡ is_tag byte }
{
    byte == b'@' || byte == b'#'
}

fn tagged_detail(word: &[u8]) -> Detail
    ensures { result ≡ tagged_detail word.now }
{
    if begins_path(word) {
        Detail::Other
    } else {
        Detail::NoSlash
    }
}

fn digits_detail(word: &[u8]) -> Detail
    ensures { result ≡ digits_detail word.now }
{
    match word {
        [b'0', ..] if is_digits(word) => Detail::LeadingZero,
        [_, ..] if is_digits(word) => Detail::TooLarge,
        [first, ..] if is_digit(*first) => mixed_detail(word),
        _ => Detail::Other,
    }
}

// The detail of a word that begins with a digit, and isn't only digits.
fn mixed_detail(word: &[u8]) -> Detail
    ensures { result ≡ mixed_detail word.now }
{
    if is_dated(word) {
        Detail::Date
    } else if is_united(word) {
        Detail::Unit
    } else {
        Detail::Other
    }
}

// Whether the word has only digits and hyphens.
fn is_dated(word: &[u8]) -> bool
    ensures { result ≡ list_all is_dated word.now }
{
    word.iter().all(|byte| is_digit(*byte) || *byte == b'-')
}

// Whether the word has only digits and lower-case letters.
fn is_united(word: &[u8]) -> bool
    ensures { result ≡ list_all is_united word.now }
{
    word.iter()
        .all(|byte| is_digit(*byte) || (b'a' <= *byte && *byte <= b'z'))
}

fn is_digit(byte: u8) -> bool
    ensures { result ≡ is_digit byte }
{
    b'0' <= byte && byte <= b'9'
}

fn is_digits(word: &[u8]) -> bool
    ensures { result ≡ list_all is_digit word.now }
{
    word.iter().all(|byte| is_digit(*byte))
}
