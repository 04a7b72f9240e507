//! Refusals and stops, each with its number and name.
ghost use Rattle.std.specs.Prelude.{◌≡◌, Some};
ghost use Rattle.ele_model.specs.Answers.{refusal_number, refusal_name, stop_number, stop_name, which_word};
ghost use Rattle.ele_model.specs.AnswerText.{words_text, refusal_words, stop_words};

use ele_moment::VersionNo;
use std::error::Error;
use std::fmt;

/// A kind of thing that has a limit. It is displayed as its word in scripts, `files`.
#[derive(Clone, Copy, Debug, PartialEq, Eq)]
pub enum Which {
    Files,
    Directories,
    Names,
    Versions,
    Handles,
    Groups,
    Members,
    Marks,
}

impl Which {
    /// Returns its word.
    /// Cost: constant time.
    pub fn word(self) -> &'static str
        ensures { result.now ≡ which_word self }
    {
        match self {
            Which::Files => "files",
            Which::Directories => "directories",
            Which::Names => "names",
            Which::Versions => "versions",
            Which::Handles => "handles",
            Which::Groups => "groups",
            Which::Members => "members",
            Which::Marks => "marks",
        }
    }
}

/// Why a command was refused. The history keeps the reply, and nothing else has changed. It is
/// displayed as scripts print it after `no`: `5 NoEntry`, `13 Forgotten 2`, `27 Full files`.
#[derive(Clone, Copy, Debug, PartialEq, Eq)]
pub enum Refusal {
    /// The moment is before now.
    ClockBack,
    /// The moment would be after the last one.
    ClockEnd,
    /// No such name.
    NoEntry,
    /// The path has a file in place of a directory.
    NotDirectory,
    /// The path has a directory in place of a file.
    IsDirectory,
    /// The name is taken.
    Exists,
    /// The directory has names.
    NotEmpty,
    /// The directory would be in itself.
    IntoItself,
    /// The root has no name.
    IsRoot,
    /// The moment is after now.
    Future,
    /// The version was removed. The value is the greatest held number before it, if there is one.
    Forgotten(Option<VersionNo>),
    /// The file never had that version.
    NoVersion,
    /// No such handle.
    NoHandle,
    /// The handle is for reading.
    NotWriter,
    /// The content would be longer than 1,048,576 bytes.
    TooBig,
    /// The file has a draft.
    Drafting,
    /// The name can't be restored.
    NotRestorable,
    /// No such group.
    NoGroup,
    /// The group exists.
    GroupExists,
    /// The group has no such mark.
    NoMark,
    /// The group has the mark already.
    MarkExists,
    /// The moment is not before now.
    NotPast,
    /// The group has the file already.
    AlreadyMember,
    /// The group doesn't have the file.
    NotMember,
    /// A limit is reached.
    Full(Which),
    /// The end of a mark is not after now, or `ahead` asks for a moment before now.
    NotAhead,
}

/// Why a command was not run. No history keeps it, and nothing has changed. It is displayed as
/// scripts print it after `stop`: `1 NoMemory`.
#[derive(Clone, Copy, Debug, PartialEq, Eq)]
pub enum Stop {
    NoMemory,
    HistoryFull,
}

impl Refusal {
    /// Returns its number.
    /// Cost: constant time.
    pub fn number(self) -> u8
        ensures { result ≡ refusal_number self }
    {
        match self {
            Refusal::ClockBack => 3,
            Refusal::ClockEnd => 4,
            Refusal::NoEntry => 5,
            Refusal::NotDirectory => 6,
            Refusal::IsDirectory => 7,
            Refusal::Exists => 8,
            Refusal::NotEmpty => 9,
            Refusal::IntoItself => 10,
            Refusal::IsRoot => 11,
            Refusal::Future => 12,
            Refusal::Forgotten(_) => 13,
            Refusal::NoVersion => 14,
            Refusal::NoHandle => 15,
            Refusal::NotWriter => 16,
            Refusal::TooBig => 17,
            Refusal::Drafting => 18,
            Refusal::NotRestorable => 19,
            Refusal::NoGroup => 20,
            Refusal::GroupExists => 21,
            Refusal::NoMark => 22,
            Refusal::MarkExists => 23,
            Refusal::NotPast => 24,
            Refusal::AlreadyMember => 25,
            Refusal::NotMember => 26,
            Refusal::Full(_) => 27,
            Refusal::NotAhead => 41,
        }
    }

    /// Returns its name.
    /// Cost: constant time.
    pub fn name(self) -> &'static str
        ensures { result.now ≡ refusal_name self }
    {
        match self {
            Refusal::ClockBack => "ClockBack",
            Refusal::ClockEnd => "ClockEnd",
            Refusal::NoEntry => "NoEntry",
            Refusal::NotDirectory => "NotDirectory",
            Refusal::IsDirectory => "IsDirectory",
            Refusal::Exists => "Exists",
            Refusal::NotEmpty => "NotEmpty",
            Refusal::IntoItself => "IntoItself",
            Refusal::IsRoot => "IsRoot",
            Refusal::Future => "Future",
            Refusal::Forgotten(_) => "Forgotten",
            Refusal::NoVersion => "NoVersion",
            Refusal::NoHandle => "NoHandle",
            Refusal::NotWriter => "NotWriter",
            Refusal::TooBig => "TooBig",
            Refusal::Drafting => "Drafting",
            Refusal::NotRestorable => "NotRestorable",
            Refusal::NoGroup => "NoGroup",
            Refusal::GroupExists => "GroupExists",
            Refusal::NoMark => "NoMark",
            Refusal::MarkExists => "MarkExists",
            Refusal::NotPast => "NotPast",
            Refusal::AlreadyMember => "AlreadyMember",
            Refusal::NotMember => "NotMember",
            Refusal::Full(_) => "Full",
            Refusal::NotAhead => "NotAhead",
        }
    }
}

impl Stop {
    /// Returns its number.
    /// Cost: constant time.
    pub fn number(self) -> u8
        ensures { result ≡ stop_number self }
    {
        match self {
            Stop::NoMemory => 1,
            Stop::HistoryFull => 2,
        }
    }

    /// Returns its name.
    /// Cost: constant time.
    pub fn name(self) -> &'static str
        ensures { result.now ≡ stop_name self }
    {
        match self {
            Stop::NoMemory => "NoMemory",
            Stop::HistoryFull => "HistoryFull",
        }
    }
}

impl fmt::Display for Which {
    ghost output = { λ which. Some (which_word which) };

    fn fmt<W: fmt::Write>(&self, f: &mut fmt::Formatter<W>) -> fmt::Result {
        f.write_str(self.word())
    }
}

impl fmt::Display for Refusal {
    ghost output = { λ why. Some (words_text (refusal_words why)) };

    fn fmt<W: fmt::Write>(&self, f: &mut fmt::Formatter<W>) -> fmt::Result {
        let (number, name) = (self.number(), self.name());
        match self {
            Refusal::Forgotten(before) => match before {
                Some(VersionNo(before)) => write!(f, "{number} {name} {before}"),
                None => write!(f, "{number} {name} -"),
            },
            Refusal::Full(which) => write!(f, "{number} {name} {which}"),
            _ => write!(f, "{number} {name}"),
        }
    }
}

impl Error for Refusal {}

impl fmt::Display for Stop {
    ghost output = { λ stop. Some (words_text (stop_words stop)) };

    fn fmt<W: fmt::Write>(&self, f: &mut fmt::Formatter<W>) -> fmt::Result {
        let (number, name) = (self.number(), self.name());
        write!(f, "{number} {name}")
    }
}

impl Error for Stop {}
