//! Whether a text is the evidence of a history. A contract sees the text, the history that its
//! events make when they are run again, and the verdict.
ghost use Rattle.std.specs.Prelude.{◌≡◌, ◌≢◌, ◌⊎◌, ◌++◌, [], IfErr, IfOk, List, MatchOption, OnErr, Ok, Err, length, ℕ};
ghost use Rattle.ele_evidence.specs.Checked.{AsksFirst, Begins, IsChecked, IsEnd, IsHashed};
ghost use Rattle.ele_evidence.specs.EvidenceText.{IsRow, head_row};
ghost use Rattle.ele_evidence.specs.Verdict.{AsksRow, IsHistory, IsUnverified, IsVerdict, RunsOn, entry_of, line_after};
ghost use Rattle.ele_history.specs.Past.{IsFull, Past, recorded};
ghost use Rattle.ele_history.specs.Reply.{MayRecord};
ghost use Rattle.ele_model.specs.Bounds.{Bounds};
ghost use Rattle.ele_model.specs.World.{fresh_world};
ghost use Rattle.ele_model.specs.declared.event.Event.{Event};

use crate::row::{end_line, entry_row};
use crate::verdict::{Fault, Verdict};
use ele_chain::HashLine;
use ele_history::History;
use ele_model::{Entry, Event, NoMemory, Step, Stop};
use ele_printer::LineFault;
use ele_script::read_event;
use memchr::{memchr, memchr_iter};
use std::alloc::Global;

/// What a row is found to be.
#[derive(Drop)]
pub(crate) enum Checked<'t> {
    /// No row, but the last line.
    End,
    /// It is right. Its hash line, and what is below that.
    Right(HashLine, &'t [u8]),
    /// Why it is wrong, and from where on.
    Wrong(Fault, &'t [u8]),
}

/// Returns whether a text is the evidence of a history that began in the fresh world with the limits
/// of this one, by running its events again in this one. `head` is the first row for these limits.
///
/// `NoMemory` if memory is refused to an event or its row, or to the last line: the text begins with
/// the rows of a history then, whose events were run, and maybe the next one.
/// Cost: that of the events, and of their text; holds one row. The history has the entries then, up
/// to the first line that is wrong.
pub fn verify<C: Step>(
    alloc: Global,
    history: &mut History<C>,
    head: &[u8],
    text: &[u8],
) -> Result<Verdict, NoMemory>
    requires empty { history.old.entries ≡ [] }
    requires untrimmed { history.old.folded ≡ 0 }
    requires head { head.now ≡ head_row history.old.base.limits }
    ensures ok { IfOk result (IsVerdict history.old.base.limits text.now) }
    ensures err { OnErr result (IsUnverified history.old.base.limits text.now history.new) }
{
    // For the proof: the history begins in the fresh world.
    history.base();
    let line = HashLine::none().below(head);
    match behind_both(text, head, line.bytes()) {
        Some(rest) => verify_rows(alloc, history, text, line, rest),
        None => Ok(Verdict::NoHead),
    }
}

// What is behind a prefix of a text, if it begins with that.
fn behind<'t>(text: &'t [u8], prefix: &[u8]) -> Option<&'t [u8]>
    ensures { MatchOption result ((rest : List ℕ) → text.now ≢ prefix.now ++ rest)
        (λ rest. text.now ≡ prefix.now ++ rest.now) }
{
    text.strip_prefix(prefix)
}

// What is behind two parts of a text, if it begins with them.
fn behind_both<'t>(text: &'t [u8], first: &[u8], second: &[u8]) -> Option<&'t [u8]>
    ensures { MatchOption result
        ((rest : List ℕ) → text.now ≢ first.now ++ (second.now ++ rest))
        (λ rest. text.now ≡ first.now ++ (second.now ++ rest.now)) }
{
    match behind(text, first) {
        Some(rest) => behind(rest, second),
        None => None,
    }
}

// Checks row after row below the first one, of which this is the hash line.
fn verify_rows<C: Step>(
    alloc: Global,
    history: &mut History<C>,
    text: &[u8],
    first: HashLine,
    below: &[u8],
) -> Result<Verdict, NoMemory>
    requires begins { Begins history.old.base.limits text.now history.old first below.now }
    ensures ok { IfOk result (IsVerdict history.old.base.limits text.now) }
    ensures err { OnErr result (IsUnverified history.old.base.limits text.now history.new) }
{
    let mut line = first;
    let mut rest = below;
    'rows: for _ in 0..u64::MAX {
        let count = lemma_is_history(history);
        let checked = check_row(alloc, history, &line, rest)?;
        match checked {
            Checked::End => return Ok(Verdict::Whole(count, line)),
            Checked::Right(next, after) => {
                line = next;
                rest = after;
            }
            Checked::Wrong(fault, wrong) => {
                return Ok(Verdict::Wrong(line_of(text, wrong), fault));
            }
        }
    }
    // No text has so many rows.
    lemma_is_history(history);
    Err(NoMemory)
}

// The number of entries of a history that was never trimmed. Its contract also says what all such
// histories keep.
fn lemma_is_history<C: Step>(history: &History<C>) -> u64
    ensures { (limits : Bounds) → history.now.base ≡ fresh_world limits → history.now.folded ≡ 0
        → IsHistory limits history.now × (result ≡ length history.now.entries) }
{
    // For the proof: what the contract of `entries` says.
    history.entries();
    history.count()
}

/// Returns the number of the line at which the rest of a text begins, counted from 1.
pub fn line_of(text: &[u8], rest: &[u8]) -> u64
    ensures { (right : List ℕ) → text.now ≡ right ++ rest.now → result ≡ line_after right }
{
    let at = text.len().saturating_sub(rest.len());
    let right = text.split_at(at).0;
    memchr_iter(b'\n', right).count() as u64 + 1
}

// Checks the next row, and runs its event.
fn check_row<'t, C: Step>(
    alloc: Global,
    history: &mut History<C>,
    above: &HashLine,
    rest: &'t [u8],
) -> Result<Checked<'t>, NoMemory>
    ensures ok { IfOk result
        (λ checked. IsChecked history.old above.now rest.now checked history.new) }
    ensures err { OnErr result (RunsOn history.old rest.now history.new) }
{
    match event_before(alloc, rest) {
        Ok(event) => check_event(alloc, history, above, event, rest),
        Err(fault) => check_end(alloc, fault, history.entries().len() as u64, rest),
    }
}

// The event that the bytes begin with, as `- ` and a line that asks for it.
fn event_before(alloc: Global, rest: &[u8]) -> Result<Event, LineFault>
    ensures found { IfOk result (AsksRow rest.now) }
    ensures only { (event : Event) → AsksRow rest.now event
        → (result ≡ Ok event) ⊎ (result ≡ Err LineFault.NoMemory) }
{
    match behind(rest, b"- ") {
        Some(text) => first_event(alloc, text),
        None => Err(LineFault::Syntax),
    }
}

// The event that the first line of a text asks for.
fn first_event(alloc: Global, text: &[u8]) -> Result<Event, LineFault>
    ensures found { IfOk result (AsksFirst text.now) }
    ensures only { (event : Event) → AsksFirst text.now event
        → (result ≡ Ok event) ⊎ (result ≡ Err LineFault.NoMemory) }
{
    match memchr(b'\n', text) {
        Some(end) => read_event(alloc, text.split_at(end).0),
        None => Err(LineFault::Syntax),
    }
}

// Checks that the rest, which for this fault asks for no event, is the last line of a text with so
// many entries.
fn check_end<'t>(
    alloc: Global,
    fault: LineFault,
    count: u64,
    rest: &'t [u8],
) -> Result<Checked<'t>, NoMemory>
    ensures { IfOk result
        (λ checked. IsEnd count rest.now checked × (fault ≢ LineFault.NoMemory)) }
{
    match fault {
        LineFault::NoMemory => return Err(NoMemory),
        _ => {}
    }
    let last = end_line(alloc, count)?;
    if rest == last.as_slice() {
        Ok(Checked::End)
    } else {
        Ok(Checked::Wrong(Fault::NoRow, rest))
    }
}

// Checks the row of this event, which the rest asks for.
fn check_event<'t, C: Step>(
    alloc: Global,
    history: &mut History<C>,
    above: &HashLine,
    event: Event,
    rest: &'t [u8],
) -> Result<Checked<'t>, NoMemory>
    requires { AsksRow rest.now event }
    ensures ok { IfOk result
        (λ checked. IsChecked history.old above.now rest.now checked history.new) }
    ensures err { OnErr result (RunsOn history.old rest.now history.new) }
{
    let row = match answered_row(alloc, history, event) {
        Ok(row) => row,
        Err(Stop::HistoryFull) => return Ok(Checked::Wrong(Fault::TooMany, rest)),
        Err(Stop::NoMemory) => return Err(NoMemory),
    };
    let Some(below) = behind(rest, row.as_slice()) else {
        return Ok(Checked::Wrong(Fault::Answer, rest));
    };
    Ok(check_hash(above, row.as_slice(), below))
}

// Checks the hash line below a row.
fn check_hash<'t>(above: &HashLine, row: &[u8], below: &'t [u8]) -> Checked<'t>
    ensures { IsHashed above.now row.now below.now result }
{
    let line = above.below(row);
    match behind(below, line.bytes()) {
        Some(after) => Checked::Right(line, after),
        None => Checked::Wrong(Fault::Hash, below),
    }
}

// Runs an event, and returns its row.
fn answered_row<C: Step>(
    alloc: Global,
    history: &mut History<C>,
    event: Event,
) -> Result<Vec<u8>, Stop>
    ensures ok { IfOk result (λ row. (history.new ≡ recorded history.old event)
        × IsRow (entry_of history.old event) row.items) }
    ensures full { IfErr result (λ stop. stop ≡ Stop.HistoryFull → IsFull history.old) }
    ensures err { OnErr result ((history.new ≡ history.old)
        ⊎ (history.new ≡ recorded history.old event)) }
{
    match run_event(history, event) {
        Ok(()) => newest_row(alloc, history),
        Err(stop) => Err(stop),
    }
}

// Runs an event, whose reply the history keeps.
fn run_event<C: Step>(history: &mut History<C>, event: Event) -> Result<(), Stop>
    ensures { MayRecord history.old event result history.new }
{
    match history.record(event) {
        Ok(_) => Ok(()),
        Err(stop) => Err(stop),
    }
}

// The row of the newest entry.
fn newest_row<C: Step>(alloc: Global, history: &History<C>) -> Result<Vec<u8>, Stop>
    ensures ok { (past : Past) (event : Event) → history.now ≡ recorded past event
        → IfOk result (λ row. IsRow (entry_of past event) row.items) }
    ensures full { result ≢ Err Stop.HistoryFull }
{
    match history.last() {
        Some(entry) => row_of(alloc, entry),
        None => Err(Stop::NoMemory),
    }
}

// The row of an entry.
fn row_of(alloc: Global, entry: &Entry) -> Result<Vec<u8>, Stop>
    ensures ok { IfOk result (λ row. IsRow entry.now row.items) }
    ensures full { result ≢ Err Stop.HistoryFull }
{
    match entry_row(alloc, entry) {
        Ok(row) => Ok(row),
        Err(_) => Err(Stop::NoMemory),
    }
}
