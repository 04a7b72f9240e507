//! The reasons why a line is no command. A contract sees a reason as itself, and a printer as its
//! outlet.
ghost use Rattle.std.specs.Prelude.{◌≡◌, ◌++◌, codes};
ghost use Rattle.ele_commands.specs.Command.{kinds_of};
ghost use Rattle.ele_output.specs.Prints.{Prints};
ghost use Rattle.ele_reasons.specs.ReasonText.{after_text, behind_text, byte_text, cause_text, count_text, digit_text, first_text, hexadecimal, hint_text, is_moment, is_span, kind_text, list_text, other_text, path_text, place_text, reason_text, syntax_text, tag_text, takes_text, word_text};

use ele_commands::{Command, WordKind};
use ele_output::{Printer, put_with_number};
use ele_printer::LineFault;
use std::io::Write;

/// What exactly is wrong with a word that isn't of its kind.
#[derive(Clone, Copy, PartialEq, Eq)]
pub enum Detail {
    /// Only digits, with a leading zero.
    LeadingZero,
    /// Only digits, of a number that is too large.
    TooLarge,
    /// A digit, then only digits and lower-case letters, as in `7d`.
    Unit,
    /// A digit, then only digits and hyphens, as in `2026-03-02`.
    Date,
    /// A path that doesn't begin with a slash.
    NoSlash,
    /// A name with `@` or `#`, or the name of a group with a slash.
    Tag,
    /// A policy with a floor that is too large.
    Floor,
    /// A policy with a number of seconds that is 0 or too large.
    Seconds,
    /// A ladder with no pairs or too many.
    Pairs,
    /// A ladder with an age that isn't greater than the one before it.
    Ages,
    /// A ladder with a width that doesn't divide the next.
    Widths,
    /// Anything else.
    Other,
}

/// What an unknown command probably means.
#[derive(Clone, Copy, PartialEq, Eq)]
pub enum Hint {
    /// A command that only a run that explains has.
    Explaining,
    /// A word that begins with a capital letter, which no command does.
    Case,
    /// The name that another tool has for this command.
    Instead(Command),
    /// A word that ends another tool.
    Leave,
    /// A word that changes the current directory of another tool.
    Place,
    /// A remark, which begins with `#`.
    Remark,
    /// `group` with no known word after it.
    Group,
    /// `open` with no known word after it.
    Open,
    /// Nothing known.
    Unknown,
}

/// Why a line is no command: its first fault, and the number of the word that has it, from 1.
/// `put_reason` prints the place and the reason, as `word 2: a moment has no leading zero`.
#[derive(Clone, Copy, PartialEq, Eq)]
pub enum Reason {
    /// The line has more than 8,192 bytes.
    TooLong,
    /// The last line of a script has no line feed, and isn't run. `reason` never returns this.
    Cut,
    /// The line begins with a byte order mark.
    ByteOrderMark,
    /// This word is empty: the line has a space too many.
    Empty(u64),
    /// This word has this byte, which no word may have.
    Byte(u64, u8),
    /// This word, with any word before it, is no command, and probably means this.
    NoCommand(u64, Hint),
    /// The command has more words after it than it takes, if this is true, or else fewer.
    Words(Command, bool),
    /// This word isn't of the kind that the command takes at this place.
    Word {
        number: u64,
        kind: WordKind,
        fault: LineFault,
        detail: Detail,
    },
}

// Prints the words that a command takes, by their kinds.
fn put_takes<W: Write>(kinds: &[WordKind], printer: &mut Printer<'_, W>)
    ensures { Prints W.contents printer.old printer.new (takes_text kinds.now) }
{
    if is_span(kinds) {
        printer.put(b"two moments, and a path or none");
    } else {
        put_list(kinds, printer);
    }
}

// Whether these are two moments and a path, which may be left out.
fn is_span(kinds: &[WordKind]) -> bool
    ensures { result ≡ is_span kinds.now }
{
    matches!(kinds, [WordKind::Moment, WordKind::Moment, WordKind::Path])
}

// Prints the kinds in a list.
fn put_list<W: Write>(kinds: &[WordKind], printer: &mut Printer<'_, W>)
    ensures { Prints W.contents printer.old printer.new (list_text kinds.now) }
{
    match kinds {
        [] => printer.put(b"no words"),
        [WordKind::Path, WordKind::Path] => printer.put(b"two paths"),
        [kind, kinds @ ..] => put_first(*kind, kinds, printer),
    }
}

// Prints the first kind and those after it.
#[tactic(auto, using(ele_output::proofs::Known::puts_then))]
fn put_first<W: Write>(kind: WordKind, kinds: &[WordKind], printer: &mut Printer<'_, W>)
    ensures { Prints W.contents printer.old printer.new (kind_text kind ++ behind_text kinds.now) }
{
    put_kind(kind, printer);
    put_behind(kinds, printer);
}

// Prints the kinds after the first.
#[cycle(behind)]
fn put_behind<W: Write>(kinds: &[WordKind], printer: &mut Printer<'_, W>)
    ensures { Prints W.contents printer.old printer.new (behind_text kinds.now) }
{
    match kinds {
        [] => {}
        [WordKind::Moment, WordKind::End] => printer.put(b" and one moment or two"),
        [last] => put_last(*last, printer),
        [kind, kinds @ ..] => put_more(*kind, kinds, printer),
    }
}

// Prints one of the kinds after the first, and those after it.
#[cycle(behind)]
#[tactic(auto, using(ele_output::proofs::Known::puts_then))]
fn put_more<W: Write>(kind: WordKind, kinds: &[WordKind], printer: &mut Printer<'_, W>)
    ensures { Prints W.contents printer.old printer.new
        (codes ", " ++ kind_text kind ++ behind_text kinds.now) }
{
    put_next(kind, printer);
    put_behind(kinds, printer);
}

fn put_last<W: Write>(kind: WordKind, printer: &mut Printer<'_, W>)
    ensures { Prints W.contents printer.old printer.new (codes " and " ++ kind_text kind) }
{
    printer.put(b" and ");
    put_kind(kind, printer);
}

fn put_next<W: Write>(kind: WordKind, printer: &mut Printer<'_, W>)
    ensures { Prints W.contents printer.old printer.new (codes ", " ++ kind_text kind) }
{
    printer.put(b", ");
    put_kind(kind, printer);
}

fn put_kind<W: Write>(kind: WordKind, printer: &mut Printer<'_, W>)
    ensures { Prints W.contents printer.old printer.new (kind_text kind) }
{
    printer.put(kind_name(kind).as_bytes());
}

fn kind_name(kind: WordKind) -> &'static str
    ensures { result.now ≡ kind_text kind }
{
    match kind {
        WordKind::Number => "a number",
        WordKind::Handle => "a handle",
        WordKind::Version => "a version",
        WordKind::Moment => "a moment",
        WordKind::End => "an end",
        WordKind::Name => "a group",
        WordKind::Path => "a path",
        WordKind::Tagged => "a path with a tag",
        WordKind::Timed => "a path at a moment",
        WordKind::Source => "a path with a tag, or a handle",
        WordKind::Bytes => "bytes",
        WordKind::Policy => "a policy",
    }
}

// Prints what is wrong with a word that has a byte which no word may have.
fn put_unfit<W: Write>(byte: u8, printer: &mut Printer<'_, W>)
    ensures { Prints W.contents printer.old printer.new (byte_text byte) }
{
    match byte {
        b'\r' => printer.put(b"it has a carriage return: end a line with a line feed alone"),
        b'\t' => printer.put(b"it has a tab: put one space between two words"),
        byte => put_other(byte, printer),
    }
}

fn put_other<W: Write>(byte: u8, printer: &mut Printer<'_, W>)
    ensures { Prints W.contents printer.old printer.new
        (codes "it has the byte " ++ hexadecimal byte
        ++ codes ", which is none from space to ~: a name may have %" ++ hexadecimal byte) }
{
    printer.put(b"it has the byte ");
    put_hexadecimal(byte, printer);
    printer.put(b", which is none from space to ~: a name may have %");
    put_hexadecimal(byte, printer);
}

// Prints a byte as two hexadecimal digits.
fn put_hexadecimal<W: Write>(byte: u8, printer: &mut Printer<'_, W>)
    ensures { Prints W.contents printer.old printer.new (hexadecimal byte) }
{
    printer.put(hexadecimal_digit(byte / 16).as_bytes());
    printer.put(hexadecimal_digit(byte % 16).as_bytes());
}

// The digit of a number below 16.
fn hexadecimal_digit(number: u8) -> &'static str
    ensures { result.now ≡ digit_text number }
{
    match number {
        0 => "0",
        1 => "1",
        2 => "2",
        3 => "3",
        4 => "4",
        5 => "5",
        6 => "6",
        7 => "7",
        8 => "8",
        9 => "9",
        10 => "a",
        11 => "b",
        12 => "c",
        13 => "d",
        14 => "e",
        _ => "f",
    }
}

fn put_hint<W: Write>(hint: Hint, printer: &mut Printer<'_, W>)
    ensures { Prints W.contents printer.old printer.new (hint_text hint) }
{
    match hint {
        Hint::Instead(command) => {
            printer.put(b"the command for this is ");
            printer.put(first_word(command).as_bytes());
        }
        _ => printer.put(after_hint(hint).as_bytes()),
    }
}

fn first_word(command: Command) -> &'static str
    ensures { result.now ≡ first_text command }
{
    let (first, _) = command.words();
    first
}

// The text of a hint that names no other command.
fn after_hint(hint: Hint) -> &'static str
    ensures { result.now ≡ after_text hint }
{
    match hint {
        Hint::Explaining => "the command needs the option --explain",
        Hint::Leave => "there is no such command: the end of the input ends the run",
        Hint::Place => "there is no current directory: a path begins with a slash",
        Hint::Remark => "remarks need the option --remarks",
        Hint::Group => "make, drop, add or remove follows group",
        Hint::Open => "write or read follows open",
        Hint::Case => "commands are in lower case, as create",
        Hint::Instead(_) | Hint::Unknown => {
            "there is no such command: elephant help script lists all"
        }
    }
}

fn word_why(kind: WordKind, fault: LineFault, detail: Detail) -> &'static str
    ensures { result.now ≡ word_text kind fault detail }
{
    match detail {
        Detail::LeadingZero if is_moment(kind) => "a moment has no leading zero",
        Detail::LeadingZero => "a number has no leading zero",
        Detail::TooLarge if is_moment(kind) => "a moment is at most 253402300799",
        Detail::TooLarge => "a number is at most 18446744073709551615",
        Detail::Date if is_moment(kind) => {
            "a date wants its time, for example 2026-03-02T00:00:00Z"
        }
        Detail::Unit if !is_moment(kind) => {
            "a number has only digits, and a time is in seconds: a day has 86400"
        }
        Detail::NoSlash => "a path begins with a slash",
        Detail::Tag if fault == LineFault::BadName => tag_why(kind),
        Detail::Floor => "a floor is at most 16 versions",
        Detail::Seconds => "a policy has from 1 to 253402300799 seconds",
        Detail::Pairs => "a ladder has one to eight pairs, as in landmarks:3600/60,86400/3600",
        Detail::Ages => "each age of a ladder is greater than the one before it",
        Detail::Widths => "each width of a ladder divides the next, as 60 divides 3600",
        Detail::Date | Detail::Unit | Detail::Tag | Detail::Other => other_why(kind, fault),
    }
}

// The text for a name with a byte that no name has.
fn tag_why(kind: WordKind) -> &'static str
    ensures { result.now ≡ tag_text kind }
{
    match kind {
        WordKind::Name => "the name of a group has no /, @ or #",
        _ => "a name has no @ and no #",
    }
}

fn is_moment(kind: WordKind) -> bool
    ensures { result ≡ is_moment kind }
{
    kind == WordKind::Moment || kind == WordKind::End
}

// The text for a word with no detail.
fn other_why(kind: WordKind, fault: LineFault) -> &'static str
    ensures { result.now ≡ other_text kind fault }
{
    match fault {
        LineFault::BadName => "a name has at most 64 bytes, and is neither . nor ..",
        LineFault::BadPath => path_why(kind),
        LineFault::BadMoment => {
            "a moment is seconds since 1970, or a time as 2026-03-02T00:00:00Z"
        }
        LineFault::BadLadder => "a policy has no such numbers",
        LineFault::LineTooLong | LineFault::NoMemory | LineFault::Syntax => syntax_why(kind),
    }
}

// The text for a word that begins with a slash and is no path.
fn path_why(kind: WordKind) -> &'static str
    ensures { result.now ≡ path_text kind }
{
    match kind {
        WordKind::Tagged | WordKind::Source => {
            "a path has no empty name and at most 32 names, and a number after #"
        }
        _ => "a path has no empty name and at most 32 names",
    }
}

// The text for a word that has only the fault `Syntax`.
fn syntax_why(kind: WordKind) -> &'static str
    ensures { result.now ≡ syntax_text kind }
{
    match kind {
        WordKind::Number | WordKind::Handle | WordKind::Version => "a number has only digits",
        WordKind::Source => "a path begins with a slash, and a handle has only digits",
        WordKind::Timed => "only @ and a moment may follow the path",
        WordKind::Bytes => "bytes are an even number of hexadecimal digits, or - for none",
        WordKind::Policy => {
            "a policy is one, all, safe:SECONDS, safe:SECONDS/FLOOR or landmarks:AGE/WIDTH,.."
        }
        WordKind::Moment | WordKind::End | WordKind::Name | WordKind::Path | WordKind::Tagged =>
            "not as it should be",
    }
}

// What to add if a command that begins with a path has too many words: a name may have had a space.
fn count_why(kinds: &[WordKind], more: bool) -> &'static str
    ensures { result.now ≡ count_text kinds.now more }
{
    match kinds {
        [
            WordKind::Path | WordKind::Tagged | WordKind::Timed | WordKind::Source,
            ..
        ] if more => { ", and a name has no space: write %20" }
        _ => "",
    }
}

// Prints which words a command takes.
fn put_count<W: Write>(command: Command, more: bool, printer: &mut Printer<'_, W>)
    ensures { Prints W.contents printer.old printer.new
        (codes "the command takes " ++ takes_text (kinds_of command)
        ++ count_text (kinds_of command) more) }
{
    printer.put(b"the command takes ");
    put_takes(command.kinds(), printer);
    printer.put(count_why(command.kinds(), more).as_bytes());
}

fn put_place<W: Write>(reason: Reason, printer: &mut Printer<'_, W>)
    ensures { Prints W.contents printer.old printer.new (place_text reason) }
{
    match reason {
        Reason::TooLong => printer.put(b"length"),
        Reason::Cut => printer.put(b"end"),
        Reason::ByteOrderMark => printer.put(b"word 1"),
        Reason::Empty(number) => put_with_number(b"word ", number, printer),
        Reason::Byte(number, _) => put_with_number(b"word ", number, printer),
        Reason::NoCommand(number, _) => put_with_number(b"word ", number, printer),
        Reason::Words(_, _) => printer.put(b"number of words"),
        Reason::Word { number, .. } => put_with_number(b"word ", number, printer),
    }
}

fn put_cause<W: Write>(reason: Reason, printer: &mut Printer<'_, W>)
    ensures { Prints W.contents printer.old printer.new (cause_text reason) }
{
    match reason {
        Reason::TooLong => printer.put(b"a line has at most 8192 bytes"),
        Reason::Cut => printer.put(b"it has no line feed"),
        Reason::ByteOrderMark => {
            printer.put(b"a byte order mark precedes it: save the script without one");
        }
        Reason::Empty(_) => printer.put(b"one space too many stands here"),
        Reason::Byte(_, byte) => put_unfit(byte, printer),
        Reason::NoCommand(_, hint) => put_hint(hint, printer),
        Reason::Words(command, more) => put_count(command, more, printer),
        Reason::Word {
            kind,
            fault,
            detail,
            ..
        } => printer.put(word_why(kind, fault, detail).as_bytes()),
    }
}

/// Prints the place and the reason.
pub fn put_reason<W: Write>(reason: Reason, printer: &mut Printer<'_, W>)
    ensures { Prints W.contents printer.old printer.new (reason_text reason) }
{
    put_place(reason, printer);
    printer.put(b": ");
    put_cause(reason, printer);
}
