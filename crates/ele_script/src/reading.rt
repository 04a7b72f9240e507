//! Reading lines. A contract sees a line as its bytes, and an event as itself.
ghost use Rattle.std.specs.Prelude.{◌≡◌, ◌<◌, ◌⊎◌, [], map, length, true, false, IfOk, IfErr, Ok, Err};
ghost use Rattle.std.specs.List.{position};
ghost use Rattle.ele_script.specs.Memory.{TakesMemory};
ghost use Rattle.ele_script.specs.Words.{words_of, is_worded, ends_word};
ghost use Rattle.ele_commands.specs.Command.{is_allowed};
ghost use Rattle.ele_script.specs.Spells.{Asks, AsksEvent, SpellsWords, line_parts};
ghost use Rattle.ele_script.specs.EventOf.{event_of};
ghost use Rattle.ele_script.specs.Reads.{ReadsLine};
ghost use Rattle.ele_script.specs.FirstFault.{IsFirstFault, IsEventFault, IsFaultOfWords};

use crate::arguments::{
    bytes, handle, handle_and_number, handle_number_and_bytes, moment, name, name_and_moment,
    name_and_path, name_moment_and_end, nothing, number, path, path_and_bytes, path_and_moment,
    path_and_policy, path_and_version, path_at, source, tagged, two_moments, two_moments_and_path,
    two_paths,
};
use crate::command::read_command;
use arrayvec::ArrayVec;
use ele_commands::Command;
use ele_model::{Event, Handle, VersionNo};
use ele_moment::Moment;
use ele_path::{Path, TaggedPath, one_meaning};
use ele_printer::LineFault;
use std::alloc::Global;

/// What a line of a script asks for.
#[derive(Drop)]
pub enum Line {
    /// Run an event.
    Event(Event),
    /// Clean until nothing is due, or until this many versions are removed.
    Pass(u64),
    /// Print the history.
    History,
    /// Fold the history into its base.
    Trim,
    /// Explain something. Only a run that explains reads it.
    Question(Question),
}

/// What a line asks to be explained.
#[derive(Drop)]
pub enum Question {
    /// Why the version that the path with its tag names is held, or may be removed.
    Why(TaggedPath),
    /// Which versions will be due at this moment.
    Ahead(Moment),
    /// Which versions were removed.
    Gone,
    /// Which handles are open.
    Handles,
    /// What the stored events were answered.
    Answers,
    /// What is known of the file that this path names, or named last.
    Story(Path),
    /// Which versions were removed, with their last names.
    Removals,
    /// What changed between two moments, at this path and below it if there is one.
    Changes(Moment, Moment, Option<Path>),
    /// Which versions will be due at this moment, with the last names of their files.
    Expiring(Moment),
}

/// The maximum number of bytes of a line, without its line feed.
pub const LONGEST_LINE: usize = 8192;

// The maximum number of words of a command.
const MOST_WORDS: usize = 4;

/// Reads a line, without its line feed, for a run that doesn't explain. Errors are those of
/// `read_line_in`.
pub fn read_line(alloc: Global, line: &[u8]) -> Result<Line, LineFault>
    ensures found { IfOk result (Asks false line.now) }
    ensures only { (asked : Line) → Asks false line.now asked
        → (result ≡ Ok asked) ⊎ (result ≡ Err LineFault.NoMemory) }
    ensures fault { IfErr result
        (λ fault. (fault ≡ LineFault.NoMemory) ⊎ IsFirstFault false line.now fault) }
    ensures refused { (fault : LineFault) → IsFirstFault false line.now fault
        → (result ≡ Err fault) ⊎ (result ≡ Err LineFault.NoMemory) }
    ensures memory { result ≡ Err LineFault.NoMemory → TakesMemory false (words_of line.now) }
{
    read_line_in(alloc, false, line)
}

/// Reads a line, without its line feed. `explains` says whether the run explains: only then are
/// questions commands.
///
/// The error is the line's first fault: its length, its bytes and spaces, its command and number of
/// words, then the first bad word from the left. `NoMemory` may replace any result if the command
/// takes a path, bytes or the name of a group.
#[tactic(auto, using(crate::proofs::Laws::one_fault, crate::proofs::Words::unfit_line))]
pub fn read_line_in(alloc: Global, explains: bool, line: &[u8]) -> Result<Line, LineFault>
    ensures found { IfOk result (Asks explains line.now) }
    ensures only { (asked : Line) → Asks explains line.now asked
        → (result ≡ Ok asked) ⊎ (result ≡ Err LineFault.NoMemory) }
    ensures fault { IfErr result
        (λ fault. (fault ≡ LineFault.NoMemory) ⊎ IsFirstFault explains line.now fault) }
    ensures refused { (fault : LineFault) → IsFirstFault explains line.now fault
        → (result ≡ Err fault) ⊎ (result ≡ Err LineFault.NoMemory) }
    ensures memory { result ≡ Err LineFault.NoMemory → TakesMemory explains (words_of line.now) }
{
    // For the proof: a word means one path.
    one_meaning();
    if line.len() > LONGEST_LINE {
        return Err(LineFault::LineTooLong);
    }
    let mut words = ArrayVec::new();
    if !cut_words(line, &mut words) {
        return Err(LineFault::Syntax);
    }
    line_of(alloc, explains, words.as_slice())
}

/// Reads a line, without its line feed, that asks for an event. Errors are those of `read_line`,
/// and `Syntax` for a line that asks for something else.
#[tactic(auto, using(crate::proofs::Laws::event_found, crate::proofs::Laws::event_memory))]
pub fn read_event(alloc: Global, line: &[u8]) -> Result<Event, LineFault>
    ensures found { IfOk result (AsksEvent line.now) }
    ensures only { (event : Event) → AsksEvent line.now event
        → (result ≡ Ok event) ⊎ (result ≡ Err LineFault.NoMemory) }
    ensures fault { IfErr result
        (λ fault. (fault ≡ LineFault.NoMemory) ⊎ IsEventFault line.now fault) }
    ensures refused { (fault : LineFault) → IsEventFault line.now fault
        → (result ≡ Err fault) ⊎ (result ≡ Err LineFault.NoMemory) }
    ensures memory { result ≡ Err LineFault.NoMemory → TakesMemory false (words_of line.now) }
{
    let asked = read_line(alloc, line);
    event_in(asked)
}

// The event that the line asks for; any other line is `Syntax`.
fn event_in(asked: Result<Line, LineFault>) -> Result<Event, LineFault>
    ensures { result ≡ event_of asked }
{
    match asked {
        Ok(Line::Event(event)) => Ok(event),
        Ok(Line::Pass(_) | Line::History | Line::Trim | Line::Question(_)) => {
            Err(LineFault::Syntax)
        }
        Err(fault) => Err(fault),
    }
}

// Puts the words of a line into an empty list of the caller's, so that they aren't moved. Returns
// false if a byte is in no word, a word is empty or there are too many words.
#[tactic(auto, using(crate::proofs::Words::cut_some, crate::proofs::Words::cut_unplain, crate::proofs::Words::cut_empty, crate::proofs::Words::cut_none, crate::proofs::Words::unworded))]
fn cut_words<'l>(line: &'l [u8], words: &mut ArrayVec<&'l [u8], MOST_WORDS>) -> bool
    requires { words.old.items ≡ [] }
    ensures found { result ≡ true
        → map (λ word. word.now) words.new.items ≡ words_of line.now }
    ensures worded { result ≡ true → is_worded line.now ≡ true }
    ensures none { result ≡ false
        → (is_worded line.now ≡ false) ⊎ (MOST_WORDS < length (words_of line.now)) }
{
    let mut rest = line;
    'words: while let Some(at) = word_end(rest) {
        if rest[at] != b' ' {
            return false;
        }
        if at == 0 {
            return false;
        }
        if words.is_full() {
            return false;
        }
        let (word, behind) = rest.split_at(at);
        words.push(word);
        rest = behind.split_at(1).1;
    }
    if rest.is_empty() {
        return false;
    }
    if words.is_full() {
        return false;
    }
    words.push(rest);
    true
}

/// Returns the position of the first byte that ends a word: a space, or a byte that no word may
/// have.
pub fn word_end(text: &[u8]) -> Option<usize>
    ensures { result ≡ position ends_word text.now }
{
    text.iter()
        .position(|byte| !(*byte > b' ' && *byte <= b'~'))
}

// Reads the words of a line.
#[tactic(auto, using(crate::proofs::Commands::spelled_words, crate::proofs::Commands::allowed_words, crate::proofs::Commands::memory_of_words))]
fn line_of(alloc: Global, explains: bool, words: &[&[u8]]) -> Result<Line, LineFault>
    ensures found { IfOk result (SpellsWords (map (λ word. word.now) words.now)) }
    ensures allowed { IfOk result
        (λ asked. is_allowed explains (line_parts asked).0 ≡ true) }
    ensures fault { IfErr result
        (λ fault. (fault ≡ LineFault.NoMemory)
        ⊎ IsFaultOfWords explains (map (λ word. word.now) words.now) fault) }
    ensures memory { result ≡ Err LineFault.NoMemory
        → TakesMemory explains (map (λ word. word.now) words.now) }
{
    let Some((command, behind)) = read_command(explains, words) else {
        return Err(LineFault::Syntax);
    };
    line_behind(alloc, command, behind)
}

// Reads the words after a command. `clock` and `due` are read without the stack that the arms of
// all others take.
fn line_behind(alloc: Global, command: Command, words: &[&[u8]]) -> Result<Line, LineFault>
    ensures { ReadsLine command (map (λ word. word.now) words.now) result }
{
    match command {
        Command::Clock => moment(words).map(|moment| Line::Event(Event::Clock(moment))),
        Command::Due => nothing(words).and(Ok(Line::Event(Event::Due))),
        _ => line_behind_any(alloc, command, words),
    }
}

// The same for any command. Each arm makes its line at once, so that no event is moved.
#[inline(never)]
fn line_behind_any(alloc: Global, command: Command, words: &[&[u8]]) -> Result<Line, LineFault>
    ensures { ReadsLine command (map (λ word. word.now) words.now) result }
{
    match command {
        Command::Clock => moment(words).map(|moment| Line::Event(Event::Clock(moment))),
        Command::Tick => number(words).map(|seconds| Line::Event(Event::Tick(seconds))),
        Command::MakeDir => path(alloc, words).map(|path| Line::Event(Event::MakeDir(path))),
        Command::RemoveDir => path(alloc, words).map(|path| Line::Event(Event::RemoveDir(path))),
        Command::Create => path(alloc, words).map(|path| Line::Event(Event::Create(path))),
        Command::Link => {
            two_paths(alloc, words).map(|(from, to)| Line::Event(Event::Link(from, to)))
        }
        Command::Unlink => path(alloc, words).map(|path| Line::Event(Event::Unlink(path))),
        Command::Rename => {
            two_paths(alloc, words).map(|(from, to)| Line::Event(Event::Rename(from, to)))
        }
        Command::Undelete => path(alloc, words).map(|path| Line::Event(Event::Undelete(path))),
        Command::OpenWrite => path(alloc, words).map(|path| Line::Event(Event::OpenWrite(path))),
        Command::OpenRead => tagged(alloc, words).map(|path| Line::Event(Event::OpenRead(path))),
        Command::Write => {
            let read = handle_number_and_bytes(alloc, words);
            read.map(|(handle, at, bytes)| Line::Event(Event::Write(Handle(handle), at, bytes)))
        }
        Command::Truncate => {
            let read = handle_and_number(words);
            read.map(|(handle, size)| Line::Event(Event::Truncate(Handle(handle), size)))
        }
        Command::Close => handle(words).map(|handle| Line::Event(Event::Close(Handle(handle)))),
        Command::Abandon => {
            handle(words).map(|handle| Line::Event(Event::Abandon(Handle(handle))))
        }
        Command::Save => {
            let read = path_and_bytes(alloc, words);
            read.map(|(path, bytes)| Line::Event(Event::Save(path, bytes)))
        }
        Command::Revert => {
            let read = path_and_version(alloc, words);
            read.map(|(path, number)| Line::Event(Event::Revert(path, VersionNo(number))))
        }
        Command::Restore => {
            let read = path_and_moment(alloc, words);
            read.map(|(path, moment)| Line::Event(Event::Restore(path, moment)))
        }
        Command::SetPolicy => {
            let read = path_and_policy(alloc, words);
            read.map(|(path, policy)| Line::Event(Event::SetPolicy(path, policy)))
        }
        Command::Default => {
            let read = path_and_policy(alloc, words);
            read.map(|(path, policy)| Line::Event(Event::SetDefault(path, policy)))
        }
        Command::GroupMake => name(alloc, words).map(|name| Line::Event(Event::GroupMake(name))),
        Command::GroupDrop => name(alloc, words).map(|name| Line::Event(Event::GroupDrop(name))),
        Command::GroupAdd => {
            name_and_path(alloc, words).map(|(name, path)| Line::Event(Event::GroupAdd(name, path)))
        }
        Command::GroupRemove => {
            let read = name_and_path(alloc, words);
            read.map(|(name, path)| Line::Event(Event::GroupRemove(name, path)))
        }
        Command::Mark => mark(alloc, words),
        Command::Unmark => {
            let read = name_and_moment(alloc, words);
            read.map(|(name, moment)| Line::Event(Event::Unmark(name, moment)))
        }
        Command::Clean => nothing(words).and(Ok(Line::Event(Event::CleanOne))),
        Command::Note => bytes(alloc, words).map(|bytes| Line::Event(Event::Note(bytes))),
        Command::Read => source(alloc, words).map(|source| Line::Event(Event::Read(source))),
        Command::Stat => tagged(alloc, words).map(|path| Line::Event(Event::Stat(path))),
        Command::Versions => path_at(alloc, words).map(|path| Line::Event(Event::Versions(path))),
        Command::ListNames => path_at(alloc, words).map(|path| Line::Event(Event::List(path))),
        Command::Restorable => nothing(words).and(Ok(Line::Event(Event::Restorable))),
        Command::Due => nothing(words).and(Ok(Line::Event(Event::Due))),
        Command::Usage => nothing(words).and(Ok(Line::Event(Event::UsageAll))),
        Command::Groups => nothing(words).and(Ok(Line::Event(Event::GroupsAll))),
        Command::Pass => number(words).map(Line::Pass),
        Command::History => nothing(words).and(Ok(Line::History)),
        Command::Trim => nothing(words).and(Ok(Line::Trim)),
        Command::Why => tagged(alloc, words).map(|tagged| Line::Question(Question::Why(tagged))),
        Command::Ahead => moment(words).map(|moment| Line::Question(Question::Ahead(moment))),
        Command::Gone => nothing(words).and(Ok(Line::Question(Question::Gone))),
        Command::Handles => nothing(words).and(Ok(Line::Question(Question::Handles))),
        Command::Answers => nothing(words).and(Ok(Line::Question(Question::Answers))),
        Command::Story => path(alloc, words).map(|path| Line::Question(Question::Story(path))),
        Command::Removals => nothing(words).and(Ok(Line::Question(Question::Removals))),
        Command::Changes => changes(alloc, words),
        Command::Expiring => moment(words).map(|moment| Line::Question(Question::Expiring(moment))),
    }
}

// Reads a mark, which has an end if there are three words.
fn mark(alloc: Global, words: &[&[u8]]) -> Result<Line, LineFault>
    ensures { ReadsLine Command.Mark (map (λ word. word.now) words.now) result }
{
    if words.len() == 3 {
        let read = name_moment_and_end(alloc, words);
        read.map(|(name, at, end)| Line::Event(Event::Mark(name, at, Some(end))))
    } else {
        let read = name_and_moment(alloc, words);
        read.map(|(name, at)| Line::Event(Event::Mark(name, at, None)))
    }
}

// Reads the question for changes, which has a path if there are three words.
fn changes(alloc: Global, words: &[&[u8]]) -> Result<Line, LineFault>
    ensures { ReadsLine Command.Changes (map (λ word. word.now) words.now) result }
{
    if words.len() == 3 {
        let read = two_moments_and_path(alloc, words);
        read.map(|(first, second, path)| {
            Line::Question(Question::Changes(first, second, Some(path)))
        })
    } else {
        let read = two_moments(words);
        read.map(|(first, second)| Line::Question(Question::Changes(first, second, None)))
    }
}
