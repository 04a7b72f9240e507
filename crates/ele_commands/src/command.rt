//! The commands of the script: the words that name each, and the kinds of the words behind these. A
//! contract sees a command as itself.
ghost use Rattle.std.specs.Prelude.{◌≡◌};
ghost use Rattle.ele_commands.specs.Command.{command_words, is_allowed, kinds_of, name_of};

use crate::command::When::{Always, Explaining};
use crate::kind::WordKind::{
    self, Bytes, End, Handle, Moment, Name, Number, Path, Policy, Source, Tagged, Timed, Version,
};

/// What a line tells a world to do; its first word, or its first two, name it.
#[derive(Clone, Copy, PartialEq, Eq)]
pub enum Command {
    Ahead,
    Answers,
    Abandon,
    Clock,
    Close,
    Clean,
    Create,
    Changes,
    Due,
    Default,
    Expiring,
    GroupMake,
    GroupDrop,
    GroupAdd,
    GroupRemove,
    Groups,
    Gone,
    History,
    Handles,
    Link,
    ListNames,
    Mark,
    MakeDir,
    Note,
    OpenWrite,
    OpenRead,
    Pass,
    SetPolicy,
    Read,
    Rename,
    Revert,
    Restore,
    RemoveDir,
    Restorable,
    Removals,
    Save,
    Stat,
    Story,
    Tick,
    Truncate,
    Trim,
    Unlink,
    Undelete,
    Unmark,
    Usage,
    Versions,
    Write,
    Why,
}

/// In which runs a command is one.
#[derive(Clone, Copy, PartialEq, Eq)]
pub enum When {
    /// In all.
    Always,
    /// In those that explain.
    Explaining,
}

/// A command, the words that name it, of which the second may be empty, the kinds of the words behind
/// these, and in which runs it is one.
pub type Row = (
    Command,
    &'static str,
    &'static str,
    &'static [WordKind],
    When,
);

/// A row for each command, in the order of `Command`: those with one first letter stand together, and
/// of these the ones that come often first.
pub static ROWS: [Row; 48] = [
    (Command::Ahead, "ahead", "", &[Moment], Explaining),
    (Command::Answers, "answers", "", &[], Explaining),
    (Command::Abandon, "abandon", "", &[Handle], Always),
    (Command::Clock, "clock", "", &[Moment], Always),
    (Command::Close, "close", "", &[Handle], Always),
    (Command::Clean, "clean", "", &[], Always),
    (Command::Create, "create", "", &[Path], Always),
    (
        Command::Changes,
        "changes",
        "",
        &[Moment, Moment, Path],
        Explaining,
    ),
    (Command::Due, "due", "", &[], Always),
    (Command::Default, "default", "", &[Path, Policy], Always),
    (Command::Expiring, "expiring", "", &[Moment], Explaining),
    (Command::GroupMake, "group", "make", &[Name], Always),
    (Command::GroupDrop, "group", "drop", &[Name], Always),
    (Command::GroupAdd, "group", "add", &[Name, Path], Always),
    (
        Command::GroupRemove,
        "group",
        "remove",
        &[Name, Path],
        Always,
    ),
    (Command::Groups, "groups", "", &[], Always),
    (Command::Gone, "gone", "", &[], Explaining),
    (Command::History, "history", "", &[], Always),
    (Command::Handles, "handles", "", &[], Explaining),
    (Command::Link, "link", "", &[Path, Path], Always),
    (Command::ListNames, "list", "", &[Timed], Always),
    (Command::Mark, "mark", "", &[Name, Moment, End], Always),
    (Command::MakeDir, "mkdir", "", &[Path], Always),
    (Command::Note, "note", "", &[Bytes], Always),
    (Command::OpenWrite, "open", "write", &[Path], Always),
    (Command::OpenRead, "open", "read", &[Tagged], Always),
    (Command::Pass, "pass", "", &[Number], Always),
    (Command::SetPolicy, "policy", "", &[Path, Policy], Always),
    (Command::Read, "read", "", &[Source], Always),
    (Command::Rename, "rename", "", &[Path, Path], Always),
    (Command::Revert, "revert", "", &[Path, Version], Always),
    (Command::Restore, "restore", "", &[Path, Moment], Always),
    (Command::RemoveDir, "rmdir", "", &[Path], Always),
    (Command::Restorable, "restorable", "", &[], Always),
    (Command::Removals, "removals", "", &[], Explaining),
    (Command::Save, "save", "", &[Path, Bytes], Always),
    (Command::Stat, "stat", "", &[Tagged], Always),
    (Command::Story, "story", "", &[Path], Explaining),
    (Command::Tick, "tick", "", &[Number], Always),
    (Command::Truncate, "truncate", "", &[Handle, Number], Always),
    (Command::Trim, "trim", "", &[], Always),
    (Command::Unlink, "unlink", "", &[Path], Always),
    (Command::Undelete, "undelete", "", &[Path], Always),
    (Command::Unmark, "unmark", "", &[Name, Moment], Always),
    (Command::Usage, "usage", "", &[], Always),
    (Command::Versions, "versions", "", &[Timed], Always),
    (
        Command::Write,
        "write",
        "",
        &[Handle, Number, Bytes],
        Always,
    ),
    (Command::Why, "why", "", &[Tagged], Explaining),
];

/// What a command is about.
#[derive(Clone, Copy, PartialEq, Eq)]
pub enum Topic {
    /// The clock.
    Time,
    /// Files, directories and their names.
    Names,
    /// Contents and versions of files.
    Contents,
    /// Policies.
    Policies,
    /// Groups and marks.
    Groups,
    /// The removal of due versions.
    Cleaning,
    /// What is held.
    Questions,
    /// What happened.
    History,
    /// Why versions are held or removed, and what an audit asks.
    Why,
}

/// For help, what each command is about and how it is answered, in the order of `Command`.
pub static HELP: [(Topic, &str); 48] = [
    (
        Topic::Why,
        "ok ahead K, then K lines - RIPE FILE NUMBER in order",
    ),
    (
        Topic::Why,
        "ok answers F K, then K lines - LINE in order, each with its answer below",
    ),
    (Topic::Contents, "ok done"),
    (Topic::Time, "ok now S TEXT"),
    (Topic::Contents, "ok closed, or ok closed version V"),
    (
        Topic::Cleaning,
        "ok removed RIPE FILE NUMBER, or ok nothing",
    ),
    (Topic::Names, "ok file F"),
    (
        Topic::Why,
        "ok changes K, then K lines - KIND TARGET V V PATH PATH in order",
    ),
    (
        Topic::Questions,
        "ok due K, then K lines - RIPE FILE NUMBER in order",
    ),
    (Topic::Policies, "ok done"),
    (
        Topic::Why,
        "ok expiring K, then K lines - RIPE FILE NUMBER PATH UNTIL in order",
    ),
    (Topic::Groups, "ok done"),
    (Topic::Groups, "ok done"),
    (Topic::Groups, "ok done"),
    (Topic::Groups, "ok done"),
    (
        Topic::Questions,
        "ok groups K, then K lines - G members F,F marks M,M in order of making",
    ),
    (
        Topic::Why,
        "ok gone F K, then K lines - MOMENT FILE NUMBER PATH FATE in order",
    ),
    (
        Topic::History,
        "ok history F K, then K lines - LINE in order",
    ),
    (
        Topic::Why,
        "ok handles K, then K lines - HANDLE FILE VERSION SINCE PATH by handle",
    ),
    (Topic::Names, "ok done"),
    (
        Topic::Questions,
        "ok names K, then K lines - NAME file F or - NAME directory D by the bytes of the names",
    ),
    (Topic::Groups, "ok done"),
    (Topic::Names, "ok directory D"),
    (Topic::History, "ok done"),
    (Topic::Contents, "ok handle H"),
    (Topic::Contents, "ok handle H"),
    (
        Topic::Cleaning,
        "ok pass finished R, ok pass budget R, or stop NUMBER Name removed R",
    ),
    (Topic::Policies, "ok done"),
    (Topic::Questions, "ok bytes LENGTH X"),
    (Topic::Names, "ok done"),
    (Topic::Contents, "ok version V"),
    (Topic::Contents, "ok version V"),
    (Topic::Names, "ok done"),
    (
        Topic::Questions,
        "ok restorable K, then K lines - DIR NAME file F or - DIR NAME directory D in order",
    ),
    (
        Topic::Why,
        "ok removals F K, then K lines - MOMENT FILE NUMBER PATH UNTIL FATE in order",
    ),
    (Topic::Contents, "ok version V"),
    (
        Topic::Questions,
        "ok file F version N opened O closed C ended E length L policy POL, or ok directory D default POL",
    ),
    (
        Topic::Why,
        "ok story F K, then K lines - version N C E L FATE by number, and - name FROM TO PATH in order",
    ),
    (Topic::Time, "ok now S TEXT"),
    (Topic::Contents, "ok done"),
    (Topic::History, "ok trimmed K"),
    (Topic::Names, "ok done"),
    (Topic::Names, "ok version V, or ok done"),
    (Topic::Groups, "ok done"),
    (
        Topic::Questions,
        "ok usage 4, then - one FILES VERSIONS BYTES BLOCKS, and the same for all, safe and landmarks",
    ),
    (
        Topic::Questions,
        "ok versions K, then K lines - N O C E L by number",
    ),
    (Topic::Contents, "ok done"),
    (Topic::Why, "ok why FATE, or ok why removed MOMENT FATE"),
];

impl Command {
    /// The words that name it, of which the second may be empty.
    pub fn words(self) -> (&'static str, &'static str)
        ensures { name_of result.0.now result.1.now ≡ command_words self }
    {
        let (_, first, second, _, _) = ROWS[self as usize];
        (first, second)
    }

    /// The kinds of the words behind these; a last one that is an `End` may be left out.
    pub fn kinds(self) -> &'static [WordKind]
        ensures { result.now ≡ kinds_of self }
    {
        let (_, _, _, kinds, _) = ROWS[self as usize];
        kinds
    }

    /// Whether it is a command of a run that explains, or of one that doesn't.
    pub fn is_allowed(self, explains: bool) -> bool
        ensures { result ≡ is_allowed explains self }
    {
        let (_, _, _, _, when) = ROWS[self as usize];
        explains || when == Always
    }
}
