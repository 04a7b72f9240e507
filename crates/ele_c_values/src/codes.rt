//! The result of a call, as codes and numbers for C. A contract sees these.
ghost use Rattle.std.specs.Prelude.{◌≡◌, pos};
ghost use Rattle.std.specs.Option.{option_copied};
ghost use Rattle.ele_c_values.specs.Numbers.{or_never};
ghost use Rattle.ele_c_values.specs.Codes.{checkpoint_code, code_of, detail_in, detail_of, journal_code, limit_number, number_of, number_or_zero, opening_code, renewal_code, reply_code, reply_detail, reply_number, rest_number};

use ele_embed::{
    CheckpointError, Fault, JournalError, OpenJournalError, RenewalError, Said, Store,
};
use ele_model::{Moment, PassEnd, Refusal, Reply, VersionNo, Which};

/// Success.
pub const OK: i32 = 0;
/// Memory was refused.
pub const NO_MEMORY: i32 = 1;
/// The handle is closed.
pub const CLOSED: i32 = 64;
/// The handle is open already.
pub const OPENED: i32 = 65;
/// A limit is above its largest.
pub const BAD_LIMITS: i32 = 66;
/// There is no history.
pub const NO_HISTORY: i32 = 67;
/// Nothing of the kind is kept.
pub const NO_RESULT: i32 = 68;
/// There is no such row.
pub const NO_ROW: i32 = 69;
/// The buffer is too small.
pub const NO_ROOM: i32 = 70;
/// Memory for the text was refused.
pub const UNTOLD: i32 = 71;
/// The bytes are no checkpoint of a store.
pub const BAD_CHECKPOINT: i32 = 72;
/// A handle is open.
pub const HANDLES_OPEN: i32 = 73;
/// The store has no journal.
pub const NO_JOURNAL: i32 = 74;
/// The store has a journal.
pub const HAS_JOURNAL: i32 = 75;
/// The bytes are no file of a store.
pub const BAD_JOURNAL: i32 = 76;

/// Neither a moment nor a level.
pub const NEVER: u64 = u64::MAX;

/// A moment in seconds, or `NEVER`.
pub(crate) fn or_never(moment: Option<Moment>) -> u64
    ensures { result ≡ or_never moment }
{
    match moment {
        Some(moment) => moment.seconds(),
        None => NEVER,
    }
}

/// Returns the code of the last result.
pub fn code_of(store: &Store) -> i32
    ensures { result ≡ pos (code_of store.now) }
{
    match store.said() {
        Said::Bad(fault) => fault.number() as i32,
        Said::Stopped(stop) => stop.number() as i32,
        Said::Passed(PassEnd::Stopped(stop, _)) => stop.number() as i32,
        Said::Why(Err(refusal)) => refusal.number() as i32,
        Said::Ahead(Err(refusal)) => refusal.number() as i32,
        Said::Story(Err(refusal)) => refusal.number() as i32,
        Said::Changes(Err(refusal)) => refusal.number() as i32,
        Said::Expiring(Err(refusal)) => refusal.number() as i32,
        _ => reply_code(store.reply()),
    }
}

// The code of a reply.
fn reply_code(reply: Option<&Reply>) -> i32
    ensures { result ≡ pos (reply_code (option_copied reply.entry)) }
{
    match reply {
        Some(Reply::Refused(refusal)) => refusal.number() as i32,
        _ => OK,
    }
}

/// Returns the code of an error of a checkpoint.
pub fn checkpoint_code(error: CheckpointError) -> i32
    ensures { result ≡ pos (checkpoint_code error) }
{
    match error {
        CheckpointError::Damaged(_) | CheckpointError::Fault(_) => BAD_CHECKPOINT,
        CheckpointError::Stop(stop) => stop.number() as i32,
    }
}

/// Returns the code of an error of a renewal.
pub fn renewal_code(error: RenewalError) -> i32
    ensures { result ≡ pos (renewal_code error) }
{
    match error {
        RenewalError::HasJournal => HAS_JOURNAL,
        RenewalError::Open => HANDLES_OPEN,
        RenewalError::Stop(stop) => stop.number() as i32,
    }
}

/// Returns the code of an error of a journal.
pub fn journal_code(error: JournalError) -> i32
    ensures { result ≡ pos (journal_code error) }
{
    match error {
        JournalError::NoJournal => NO_JOURNAL,
        JournalError::HasJournal => HAS_JOURNAL,
        JournalError::NoMemory => NO_MEMORY,
    }
}

/// Returns the code of an error of the bytes of a file.
pub fn opening_code(error: OpenJournalError) -> i32
    ensures { result ≡ pos (opening_code error) }
{
    match error {
        OpenJournalError::Cut | OpenJournalError::Head => BAD_JOURNAL,
        OpenJournalError::Damaged(_) | OpenJournalError::Fault(_) => BAD_JOURNAL,
        OpenJournalError::Stop(stop) => stop.number() as i32,
    }
}

/// Returns the number of what follows the whole changes of a file.
pub fn rest_number(fault: Option<Fault>) -> u32
    ensures { result ≡ rest_number fault }
{
    match fault {
        None => 0,
        Some(Fault::Cut) => 1,
        Some(Fault::Damaged(_)) => 2,
    }
}

/// Returns the number in the last result; for a list and for bytes, how many there are.
pub fn number_of(store: &Store) -> u64
    ensures { result ≡ number_of store.now }
{
    match store.said() {
        Said::Trimmed(count) => *count,
        Said::Ahead(Ok(keys)) => keys.as_slice().len() as u64,
        Said::Gone(rows) => rows.len() as u64,
        Said::Handles(handles) => handles.len() as u64,
        Said::Story(Ok(story)) => story.versions.len() as u64 + story.names.len() as u64,
        Said::Removals(rows) => rows.len() as u64,
        Said::Changes(Ok(found)) => found.rows.len() as u64,
        Said::Expiring(Ok(found)) => found.rows.len() as u64,
        _ => reply_number(store.reply()),
    }
}

// The number in a reply.
fn reply_number(reply: Option<&Reply>) -> u64
    ensures { result ≡ reply_number (option_copied reply.entry) }
{
    let Some(reply) = reply else {
        return 0;
    };
    match reply {
        Reply::Now(moment) => moment.seconds(),
        Reply::Directory(id) => id.0,
        Reply::File(id) => id.0,
        Reply::Handle(handle) => handle.0,
        Reply::Version(number) => number.0,
        Reply::Closed(Some(number)) => number.0,
        Reply::Bytes(bytes) => bytes.as_slice().len() as u64,
        Reply::Rows(rows) => rows.as_slice().len() as u64,
        Reply::NameList(names) => names.as_slice().len() as u64,
        Reply::RestoreList(names) => names.as_slice().len() as u64,
        Reply::DueList(keys) => keys.as_slice().len() as u64,
        Reply::UsageList(_) => 4,
        Reply::GroupList(groups) => groups.as_slice().len() as u64,
        _ => 0,
    }
}

/// Returns the detail of the last refusal, beside its code.
pub fn detail_of(store: &Store) -> Option<u64>
    ensures { result ≡ detail_of store.now }
{
    match store.said() {
        Said::Why(Err(refusal)) => detail_in(*refusal),
        _ => reply_detail(store.reply()),
    }
}

// The detail of a reply, if it is a refusal that has one.
fn reply_detail(reply: Option<&Reply>) -> Option<u64>
    ensures { result ≡ reply_detail (option_copied reply.entry) }
{
    match reply {
        Some(Reply::Refused(refusal)) => detail_in(*refusal),
        _ => None,
    }
}

// The detail of a refusal, if it has one.
fn detail_in(refusal: Refusal) -> Option<u64>
    ensures { result ≡ detail_in refusal }
{
    match refusal {
        Refusal::Forgotten(before) => Some(number_or_zero(before)),
        Refusal::Full(which) => Some(limit_number(which)),
        _ => None,
    }
}

// The number of a version, or 0.
fn number_or_zero(number: Option<VersionNo>) -> u64
    ensures { result ≡ number_or_zero number }
{
    match number {
        Some(number) => number.0,
        None => 0,
    }
}

// The number of a limit.
fn limit_number(which: Which) -> u64
    ensures { result ≡ limit_number which }
{
    match which {
        Which::Files => 1,
        Which::Directories => 2,
        Which::Names => 3,
        Which::Versions => 4,
        Which::Handles => 5,
        Which::Groups => 6,
        Which::Members => 7,
        Which::Marks => 8,
    }
}
