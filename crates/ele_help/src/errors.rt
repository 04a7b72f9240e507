//! What each number and name after `no`, `bad` and `stop`, or on standard error, means, and what to do.
//! `tools/examples` compares it with `docs/ERRORS.md`.

use crate::script::pad;
use crate::wrapped::put_wrapped;
use ele_model::{Refusal, Stop, Which};
use ele_printer::LineFault;
use ele_run_options::ShellFault;
use ele_storm_plan::{AuditFault, StormFault};
use std::alloc::{AllocError, Global};

static LINE_FAULTS: [(LineFault, &str); 6] = [
    (
        LineFault::BadName,
        "a name has 1 to 64 bytes without /, @ and #, and isn't . or .. Spell it otherwise",
    ),
    (
        LineFault::BadPath,
        "a path begins with /, has no empty name and at most 32 names, and a number after #",
    ),
    (
        LineFault::BadMoment,
        "no moment has this form, or it is too late. Write seconds, or 2026-01-31T12:00:00Z",
    ),
    (
        LineFault::BadLadder,
        "no policy has these numbers. See 'elephant help policies'",
    ),
    (
        LineFault::Syntax,
        "the line is no command, or a word is missing, too many or of another form. Try --numbers",
    ),
    (
        LineFault::LineTooLong,
        "the line has more than 8,192 bytes. Write the content by several lines",
    ),
];

static STOPS: [(Stop, &str); 2] = [
    (
        Stop::NoMemory,
        "there was no memory. The line may succeed later; 'trim' and 'clean' free memory",
    ),
    (
        Stop::HistoryFull,
        "the history has as many events as it may. Start the run with more --events",
    ),
];

static SHELL_FAULTS: [(ShellFault, &str); 3] = [
    (
        ShellFault::ReadFault,
        "the input can't be read. The next line has the system's reason",
    ),
    (
        ShellFault::WriteFault,
        "the output can't be written. The next line has the system's reason",
    ),
    (
        ShellFault::TooManyLines,
        "the input has more than 1,000,000 lines or 8,589,934,592 bytes. Split it",
    ),
];

static STORM_FAULTS: [(AuditFault, &str); 3] = [
    (
        AuditFault::TurnHeld,
        "a call never gave the store back. Report it",
    ),
    (
        AuditFault::Storm(StormFault::NoThread),
        "no thread could be made. Ask for fewer writers and historians",
    ),
    (
        AuditFault::Storm(StormFault::Alone),
        "a worker met no other after 10,000,000 looks. Try again on a machine with less to do",
    ),
];

// The column of the meanings.
const WIDTH: usize = 20;

// Appends the line of a number and a name.
fn put_error(
    alloc: Global,
    text: &mut String,
    number: u8,
    name: &str,
    meaning: &str,
) -> Result<(), AllocError> {
    let mut line = format!(in alloc; "  {number} {name}")?;
    pad(&mut line, WIDTH)?;
    text.push_str(line.as_str())?;
    put_wrapped(text, WIDTH, meaning)?;
    text.push_str("\n")
}

// Returns the refusal with this number.
fn refusal_at(number: u8) -> Option<Refusal> {
    match number {
        3 => Some(Refusal::ClockBack),
        4 => Some(Refusal::ClockEnd),
        5 => Some(Refusal::NoEntry),
        6 => Some(Refusal::NotDirectory),
        7 => Some(Refusal::IsDirectory),
        8 => Some(Refusal::Exists),
        9 => Some(Refusal::NotEmpty),
        10 => Some(Refusal::IntoItself),
        11 => Some(Refusal::IsRoot),
        12 => Some(Refusal::Future),
        13 => Some(Refusal::Forgotten(None)),
        14 => Some(Refusal::NoVersion),
        15 => Some(Refusal::NoHandle),
        16 => Some(Refusal::NotWriter),
        17 => Some(Refusal::TooBig),
        18 => Some(Refusal::Drafting),
        19 => Some(Refusal::NotRestorable),
        20 => Some(Refusal::NoGroup),
        21 => Some(Refusal::GroupExists),
        22 => Some(Refusal::NoMark),
        23 => Some(Refusal::MarkExists),
        24 => Some(Refusal::NotPast),
        25 => Some(Refusal::AlreadyMember),
        26 => Some(Refusal::NotMember),
        27 => Some(Refusal::Full(Which::Files)),
        41 => Some(Refusal::NotAhead),
        _ => None,
    }
}

// What a refusal means, and what to do.
fn meaning_of(refusal: &Refusal) -> &'static str {
    match refusal {
        Refusal::ClockBack => "the moment is earlier than now. The clock never goes back",
        Refusal::ClockEnd => { "the moment would be later than the year 9999. Use fewer seconds" }
        Refusal::NoEntry => "the path names nothing. 'list' shows what is there",
        Refusal::NotDirectory => {
            "the path leads to a file, or through one. Give the path of a directory"
        }
        Refusal::IsDirectory => "the path leads to a directory. Give the path of a file",
        Refusal::Exists => {
            "the name is in use. Nothing is ever replaced: unlink or rename it first"
        }
        Refusal::NotEmpty => "the directory has names. Remove or move them first",
        Refusal::IntoItself => { "the directory would be moved below itself. Choose another place" }
        Refusal::IsRoot => { "the root can't be made, moved or deleted. Give a path with a name" }
        Refusal::Future => "the moment is later than now. Ask for now or earlier",
        Refusal::Forgotten(_) => {
            "the version was removed. The word after it is an older one that you can read, or -"
        }
        Refusal::NoVersion => { "no version has had the number yet. 'versions' lists the numbers" }
        Refusal::NoHandle => {
            "no open handle has the number. 'open' answers with the number to use"
        }
        Refusal::NotWriter => { "the handle is one that reads. Open the file by 'open write'" }
        Refusal::TooBig => {
            "the content would be longer than 1,048,576 bytes, or the note than 200. Use several"
        }
        Refusal::Drafting => "a handle writes the file. Close it first",
        Refusal::NotRestorable => {
            "nothing can be restored by this name. 'restorable' lists what can"
        }
        Refusal::NoGroup => "no group has the name. Make it by 'group make'",
        Refusal::GroupExists => { "a group has the name already. Use it, or choose another name" }
        Refusal::NoMark => { "the group has no mark for the moment. 'groups' lists the marks" }
        Refusal::MarkExists => {
            "the group has a mark for the moment already. 'unmark' removes it"
        }
        Refusal::NotPast => {
            "the moment of a mark must be earlier than now. Let the clock move first"
        }
        Refusal::AlreadyMember => "the file is in the group already. There is nothing to do",
        Refusal::NotMember => "the file isn't in the group. 'groups' lists the members",
        Refusal::Full(_) => {
            "a limit is reached, for good. The word after it says which; see 'elephant help limits'"
        }
        Refusal::NotAhead => {
            "the end of a mark must be later than now, the moment of 'ahead' or 'expiring' not earlier, nor the second of 'changes' than its first"
        }
    }
}

// Appends the line of a refusal.
fn put_refusal(alloc: Global, text: &mut String, refusal: &Refusal) -> Result<(), AllocError> {
    let meaning = meaning_of(refusal);
    put_error(alloc, text, refusal.number(), refusal.name(), meaning)
}

// Appends the refusals.
fn put_refusals(alloc: Global, text: &mut String) -> Result<(), AllocError> {
    text.push_str("After no: the command was refused, and has changed nothing.\n")?;
    for number in 1..100 {
        if let Some(refusal) = refusal_at(number) {
            put_refusal(alloc, text, &refusal)?;
        }
    }
    Ok(())
}

// Appends the faults of lines.
fn put_line_faults(alloc: Global, text: &mut String) -> Result<(), AllocError> {
    text.push_str("\nAfter bad: the line is no command, and has changed nothing.\n")?;
    for entry in LINE_FAULTS.iter() {
        let (fault, meaning) = *entry;
        put_error(alloc, text, fault.number(), fault.name(), meaning)?;
    }
    Ok(())
}

// Appends the stops.
fn put_stops(alloc: Global, text: &mut String) -> Result<(), AllocError> {
    text.push_str("\nAfter stop: the line was not run. Only a pass keeps what it removed.\n")?;
    for entry in STOPS.iter() {
        let (stop, meaning) = *entry;
        put_error(alloc, text, stop.number(), stop.name(), meaning)?;
    }
    Ok(())
}

// Appends the faults that end a run.
fn put_shell_faults(alloc: Global, text: &mut String) -> Result<(), AllocError> {
    text.push_str("\nOn standard error: the run ended early.\n")?;
    for entry in SHELL_FAULTS.iter() {
        let (fault, meaning) = *entry;
        put_error(alloc, text, fault.number(), fault.name(), meaning)?;
    }
    Ok(())
}

// Appends the faults that end a storm.
fn put_storm_faults(alloc: Global, text: &mut String) -> Result<(), AllocError> {
    text.push_str("\nOn standard error: the storm ended early.\n")?;
    for entry in STORM_FAULTS.iter() {
        let (fault, meaning) = *entry;
        put_error(alloc, text, fault.number(), fault.name(), meaning)?;
    }
    Ok(())
}

/// What `elephant help refusals` prints.
pub(crate) fn errors_help(alloc: Global) -> Result<String, AllocError> {
    let mut text = String::new(alloc);
    put_refusals(alloc, &mut text)?;
    put_line_faults(alloc, &mut text)?;
    put_stops(alloc, &mut text)?;
    put_shell_faults(alloc, &mut text)?;
    put_storm_faults(alloc, &mut text)?;
    Ok(text)
}
