//! What a line is answered, and the text of it.
//! A contract sees the answer, and what keeps the world before and after it.
ghost use Rattle.std.specs.Prelude.{◌≡◌, Err, IfSome, List, None, Option, ℕ};
ghost use Rattle.std.specs.Option.{option_copied, option_map};
ghost use Rattle.ele_history.specs.Past.{world_of};
ghost use Rattle.ele_model.specs.Why.{IsWhy, MeansFate};
ghost use Rattle.ele_model.specs.declared.refusal.Refusal.TheVariants.{Forgotten};
ghost use Rattle.ele_output.specs.Prints.{Prints};
ghost use Rattle.ele_runs.specs.Kept.{Plain, Recorded, last_reply};
ghost use Rattle.ele_runs.specs.Said.{Explains, HearsKept, IsLastText, IsText, MayMean, Records, SaysAhead, SaysChanges, SaysExpiring, SaysFate, has_no_reply, said_front};
ghost use Rattle.ele_runs.specs.Tally.{outcome_for};
ghost use Rattle.ele_runs.specs.Written.{AsksEventIn, IsEventText, event_said, number_front};
ghost use Rattle.ele_script.specs.declared.reading.Question.TheVariants as question;

use crate::keep::Keep;
use crate::tally::Outcome;
use ele_audit::{
    OpenHandle, Removed, Story, hold_at, open_handles, put_answers, put_gone, put_handles,
    put_story, put_why_gone, put_why_held, removed, removed_version, story, story_alone,
};
use ele_change_paths::{Difference, changes_by_path};
use ele_change_text::put_changes;
use ele_changes::Span;
use ele_history::History;
use ele_holds::Hold;
use ele_model::{
    Entry, Event, Explain, Fate, FromFlat, KeyList, Moment, PassEnd, Refusal, Reply, Stop,
};
use ele_output::Printer;
use ele_path::{Path, TaggedPath};
use ele_printer::{
    put_ahead, put_answer, put_fault, put_history, put_in_front, put_pass, put_stop, put_trimmed,
    put_why,
};
use ele_removals::{Expiries, Removal, expiring, put_expiring, put_removals, removals};
use ele_run_options::RunOptions;
use ele_script::{Line, LineFault, Question, read_line_in};
use std::alloc::Global;
use std::io::Write;

/// What a line was answered. What is kept isn't held twice.
#[derive(Drop)]
pub enum Said {
    /// Nothing, as an empty line is, or a remark that is passed over.
    Nothing,
    /// That it is no command.
    Bad(LineFault),
    /// That its event was stopped, or its trim, or the reading of it.
    Stopped(Stop),
    /// The reply to its event, which is the last one that is kept.
    Replied,
    /// How its pass ended.
    Passed(PassEnd),
    /// The history.
    History,
    /// How many entries its trim folded.
    Trimmed(u64),
    /// What becomes of the version that it asks about, or why it means none.
    Why(Result<Fate, Refusal>),
    /// What becomes of the version that it asks about, and the mark that held it after its policy had
    /// let it go.
    WhyHeld(Fate, Hold),
    /// What became of the removed version that it asks about.
    WhyRemoved(Removed),
    /// What will be due at the moment that it asks about.
    Ahead(Result<KeyList, Refusal>),
    /// The versions that the history removed.
    Gone(Vec<Removed>),
    /// The open handles.
    Handles(Vec<OpenHandle>),
    /// The history, with its replies.
    Answers,
    /// The story of the file that it asks about, or why its path never named one.
    Story(Result<Story, Refusal>),
    /// The versions that the history removed, with their last names.
    Removals(Vec<Removal>),
    /// What changed between the moments that it asks about, or why these are refused.
    Changes(Result<Difference, Refusal>),
    /// What will be due at the moment that it asks about, with the last names of the files.
    Expiring(Result<Expiries, Refusal>),
}

/// Answers a line as it is kept, over whatever keeps the world.
pub fn hear_kept<K: Keep>(
    alloc: Global,
    options: RunOptions,
    line: Option<&[u8]>,
    keeper: &mut K,
) -> Said
    ensures { HearsKept options (K.kept keeper.old) (option_map (λ line. line.now) line.entry)
        result (K.kept keeper.new) }
{
    let Some(line) = line else {
        return Said::Bad(LineFault::LineTooLong);
    };
    if has_no_reply(options, line) {
        return Said::Nothing;
    }
    hear(alloc, options.explain, line, keeper)
}

// Whether a line gets no answer: an empty one, or a remark that is passed over.
fn has_no_reply(options: RunOptions, line: &[u8]) -> bool
    ensures { result ≡ has_no_reply options line.now }
{
    match line.first() {
        Some(first) => options.remarks && *first == b'#',
        None => true,
    }
}

// Answers a line that is neither empty nor too long, in a run that explains, or in one that doesn't.
fn hear<K: Keep>(alloc: Global, explains: bool, line: &[u8], keeper: &mut K) -> Said
    ensures { MayMean explains (K.kept keeper.old) line.now result (K.kept keeper.new) }
{
    match read_line_in(alloc, explains, line) {
        Ok(Line::Event(event)) => keeper.hear_event(event),
        Ok(Line::Pass(budget)) => Said::Passed(keeper.hear_pass(budget)),
        Ok(Line::Trim) => keeper.hear_trim(),
        Ok(Line::Question(question)) => keeper.explain(alloc, &question),
        Ok(Line::History) => {
            if keeper.has_history() {
                Said::History
            } else {
                Said::Bad(LineFault::Syntax)
            }
        }
        Err(fault) => match fault {
            LineFault::NoMemory => Said::Stopped(Stop::NoMemory),
            _ => Said::Bad(fault),
        },
    }
}

/// Returns the event that a line asks for. `None` if it asks for none, or if memory to read it is
/// refused.
pub(crate) fn asked_event(alloc: Global, options: RunOptions, line: Option<&[u8]>) -> Option<Event>
    ensures { IfSome result
        (AsksEventIn options (option_map (λ line. line.now) line.entry)) }
{
    let line = line?;
    if has_no_reply(options, line) {
        return None;
    }
    match read_line_in(alloc, options.explain, line) {
        Ok(Line::Event(event)) => Some(event),
        _ => None,
    }
}

/// Answers an event of a history. Returns the stop, if one came in place of a reply.
#[tactic(auto, using(crate::proofs::Questions::stops_event))]
pub(crate) fn record_event<C: Explain + FromFlat>(
    event: Event,
    history: &mut History<C>,
) -> Option<Stop>
    ensures { Records (Recorded history.old) event (event_said result) (Recorded history.new) }
{
    match history.record(event) {
        Ok(_) => None,
        Err(stop) => Some(stop),
    }
}

/// By which word the answer to an event is told, with the last reply that is kept.
pub(crate) fn event_outcome(stop: Option<Stop>, last: Option<&Reply>) -> Outcome
    ensures { result ≡ outcome_for (option_copied last.entry) (event_said stop) }
{
    match (stop, last) {
        (Some(_), _) => Outcome::Stopped,
        (None, Some(Reply::Refused(_))) => Outcome::Refused,
        (None, _) => Outcome::Well,
    }
}

/// Puts the text of the answer to an event: the last reply that is kept, or the stop.
pub(crate) fn put_event_answer<W: Write>(
    stop: Option<Stop>,
    last: Option<&Reply>,
    printer: &mut Printer<'_, W>,
)
    ensures { (text : List ℕ) × IsEventText (option_copied last.entry) stop text
        × Prints W.contents printer.old printer.new text }
{
    match stop {
        None => put_last(last, printer),
        Some(stop) => put_stop(stop, printer),
    }
}

/// Puts the number of a line that has an answer, if lines are numbered.
pub(crate) fn put_number_front<W: Write>(
    options: RunOptions,
    number: u64,
    printer: &mut Printer<'_, W>,
)
    ensures { Prints W.contents printer.old printer.new (number_front options number) }
{
    if options.numbers {
        put_in_front(number, printer);
    }
}

/// Answers a question about a history.
// Not inlined, so that only questions take the stack of their answers.
#[inline(never)]
#[tactic(auto, using(crate::proofs::Questions::ahead_recorded, crate::proofs::Questions::changes_recorded, crate::proofs::Questions::expiring_recorded))]
pub(crate) fn explain<C: Explain + FromFlat>(
    alloc: Global,
    question: &Question,
    history: &History<C>,
) -> Said
    ensures { Explains (Recorded history.now) question.now result }
{
    match question {
        Question::Why(tagged) => explain_why(alloc, tagged, history),
        Question::Ahead(moment) => explain_ahead(*moment, history.core()),
        Question::Gone => match removed(alloc, history) {
            Ok(rows) => Said::Gone(rows),
            Err(_) => Said::Stopped(Stop::NoMemory),
        },
        Question::Handles => match open_handles(alloc, history) {
            Ok(handles) => Said::Handles(handles),
            Err(_) => Said::Stopped(Stop::NoMemory),
        },
        Question::Answers => Said::Answers,
        Question::Story(path) => explain_story(alloc, path, history),
        Question::Removals => match removals(alloc, history) {
            Ok(rows) => Said::Removals(rows),
            Err(_) => Said::Stopped(Stop::NoMemory),
        },
        Question::Changes(first, second, within) => {
            explain_changes(*first, *second, within, history.core())
        }
        Question::Expiring(moment) => explain_expiring(*moment, history.core()),
    }
}

/// Answers a question about a core alone.
#[tactic(auto, using(crate::proofs::Questions::ahead_alone, crate::proofs::Questions::changes_alone, crate::proofs::Questions::expiring_alone))]
pub fn explain_alone<C: Explain>(question: &Question, core: &C) -> Said
    ensures { Explains (Plain (C.world core.now) None) question.now result }
{
    match question {
        Question::Why(tagged) => explain_why_alone(tagged, core),
        Question::Ahead(moment) => explain_ahead(*moment, core),
        Question::Story(path) => explain_story_alone(path, core),
        Question::Changes(first, second, within) => explain_changes(*first, *second, within, core),
        Question::Expiring(moment) => explain_expiring(*moment, core),
        Question::Gone | Question::Handles | Question::Answers | Question::Removals => {
            Said::Bad(LineFault::Syntax)
        }
    }
}

// Returns why a version is held, or why it was removed.
#[tactic(auto, using(crate::proofs::Questions::fate_recorded))]
fn explain_why<C: Explain + FromFlat>(
    alloc: Global,
    tagged: &TaggedPath,
    history: &History<C>,
) -> Said
    ensures { Explains (Recorded history.now) (question.Why tagged.now) result }
{
    let told = history.core().fate_at(tagged);
    match &told {
        Ok(fate) => explain_fate(fate, tagged, history.core()),
        Err(Refusal::Forgotten(_)) => explain_forgotten(alloc, told, tagged, history),
        Err(_) => Said::Why(told),
    }
}

// Returns why a core alone holds a version.
#[tactic(auto, using(crate::proofs::Questions::fate_alone))]
fn explain_why_alone<C: Explain>(tagged: &TaggedPath, core: &C) -> Said
    ensures { Explains (Plain (C.world core.now) None) (question.Why tagged.now) result }
{
    match core.fate_at(tagged) {
        Ok(fate) => explain_fate(&fate, tagged, core),
        Err(refusal) => Said::Why(Err(refusal)),
    }
}

// Returns the fate of a version, with the mark that held it after its policy had let it go.
fn explain_fate<C: Explain>(fate: &Fate, tagged: &TaggedPath, core: &C) -> Said
    requires { MeansFate (C.world core.now) tagged.now fate.now }
    ensures { SaysFate (C.world core.now) tagged.now result }
{
    match hold_at(tagged, fate, core) {
        Ok(Some(hold)) => Said::WhyHeld(*fate, hold),
        Ok(None) => Said::Why(Ok(*fate)),
        Err(_) => Said::Stopped(Stop::NoMemory),
    }
}

// Returns why a version was removed, or that no stored entry removed it.
#[tactic(auto, using(crate::proofs::Questions::removal_stopped))]
fn explain_forgotten<C: Explain + FromFlat>(
    alloc: Global,
    told: Result<Fate, Refusal>,
    tagged: &TaggedPath,
    history: &History<C>,
) -> Said
    requires why { IsWhy (world_of history.now) tagged.now told }
    requires forgotten { (before : Option ℕ) × (told ≡ Err (Forgotten before)) }
    ensures { Explains (Recorded history.now) (question.Why tagged.now) result }
{
    match removed_version(alloc, tagged, history) {
        Ok(Some(row)) => Said::WhyRemoved(row),
        Ok(None) => Said::Why(told),
        Err(_) => Said::Stopped(Stop::NoMemory),
    }
}

// Returns what a history knows of a file.
fn explain_story<C: Explain + FromFlat>(alloc: Global, path: &Path, history: &History<C>) -> Said
    ensures { Explains (Recorded history.now) (question.Story path.now) result }
{
    match story(alloc, path, history) {
        Ok(told) => Said::Story(told),
        Err(_) => Said::Stopped(Stop::NoMemory),
    }
}

// Returns what a core alone knows of a file.
fn explain_story_alone<C: Explain>(path: &Path, core: &C) -> Said
    ensures { Explains (Plain (C.world core.now) None) (question.Story path.now) result }
{
    match story_alone(path, core) {
        Ok(told) => Said::Story(told),
        Err(_) => Said::Stopped(Stop::NoMemory),
    }
}

// Returns what changed between the moments, at the path if there is one.
fn explain_changes<C: Explain>(
    first: Moment,
    second: Moment,
    within: &Option<Path>,
    core: &C,
) -> Said
    ensures { SaysChanges (C.world core.now) first second within.now result }
{
    match changes_by_path(&Span { first, second }, within, core) {
        Ok(told) => Said::Changes(told),
        Err(_) => Said::Stopped(Stop::NoMemory),
    }
}

// Returns what will be due at the moment. It takes no memory if nothing is due by then.
fn explain_ahead<C: Explain>(moment: Moment, core: &C) -> Said
    ensures { SaysAhead (C.world core.now) moment result }
{
    if moment < core.now() {
        return Said::Ahead(Err(Refusal::NotAhead));
    }
    match core.due_by(moment) {
        Ok(keys) => Said::Ahead(Ok(keys)),
        Err(_) => Said::Stopped(Stop::NoMemory),
    }
}

// Returns what will be due at the moment, with names. It takes no memory if nothing is due by then.
fn explain_expiring<C: Explain>(moment: Moment, core: &C) -> Said
    ensures { SaysExpiring (C.world core.now) moment result }
{
    match expiring(moment, core) {
        Ok(told) => Said::Expiring(told),
        Err(_) => Said::Stopped(Stop::NoMemory),
    }
}

impl Said {
    /// By which word it is told, with the last reply that is kept.
    pub(crate) fn outcome(&self, last: Option<&Reply>) -> Outcome
        ensures { result ≡ outcome_for (option_copied last.entry) self.now }
    {
        match self {
            Said::Bad(_) => Outcome::Bad,
            Said::Stopped(_) | Said::Passed(PassEnd::Stopped(_, _)) => Outcome::Stopped,
            Said::Why(Err(_)) | Said::Ahead(Err(_)) | Said::Story(Err(_)) => Outcome::Refused,
            Said::Changes(Err(_)) | Said::Expiring(Err(_)) => Outcome::Refused,
            Said::Replied => event_outcome(None, last),
            _ => Outcome::Well,
        }
    }

    /// Puts the line's number in front, where lines are numbered and there is something to tell.
    pub(crate) fn put_front<W: Write>(
        &self,
        options: RunOptions,
        number: u64,
        printer: &mut Printer<'_, W>,
    )
        ensures { Prints W.contents printer.old printer.new (said_front options number self.now) }
    {
        match self {
            Said::Nothing => {}
            _ => put_number_front(options, number, printer),
        }
    }

    /// Puts its text, with the last reply that is kept, and the entries of the history after so many
    /// that were folded.
    pub fn put<W: Write>(
        &self,
        last: Option<&Reply>,
        folded: u64,
        entries: &[Entry],
        printer: &mut Printer<'_, W>,
    )
        ensures { (text : List ℕ) × IsText (option_copied last.entry) folded entries.now self.now text
            × Prints W.contents printer.old printer.new text }
    {
        match self {
            Said::Nothing => {}
            Said::Bad(fault) => put_fault(*fault, printer),
            Said::Stopped(stop) => put_stop(*stop, printer),
            Said::Replied => put_last(last, printer),
            Said::Passed(end) => put_pass(end, printer),
            Said::History => put_history(folded, entries, printer),
            Said::Trimmed(count) => put_trimmed(*count, printer),
            Said::Why(told) => put_why(told, printer),
            Said::WhyHeld(fate, hold) => put_why_held(fate, hold, printer),
            Said::WhyRemoved(row) => put_why_gone(row, printer),
            Said::Ahead(told) => put_ahead(told, printer),
            Said::Gone(rows) => put_gone(folded, rows.as_slice(), printer),
            Said::Handles(handles) => put_handles(handles.as_slice(), printer),
            Said::Answers => put_answers(folded, entries, printer),
            Said::Story(told) => put_story(told, printer),
            Said::Removals(rows) => put_removals(folded, rows.as_slice(), printer),
            Said::Changes(told) => put_changes(told, printer),
            Said::Expiring(told) => put_expiring(told, printer),
        }
    }
}

/// The reply of the last entry, if there is one.
pub fn last_reply<C: Explain>(history: &History<C>) -> Option<&Reply>
    ensures { option_copied result ≡ last_reply history.now }
{
    match history.last() {
        Some(entry) => Some(&entry.reply),
        None => None,
    }
}

// Puts the reply, if there is one.
fn put_last<W: Write>(last: Option<&Reply>, printer: &mut Printer<'_, W>)
    ensures { (text : List ℕ) × IsLastText (option_copied last.entry) text
        × Prints W.contents printer.old printer.new text }
{
    match last {
        Some(reply) => put_answer(reply, printer),
        None => {}
    }
}
