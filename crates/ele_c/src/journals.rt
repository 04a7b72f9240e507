//! Journals: the bytes that a store's file gets, and stores that are opened from files.
ghost use Rattle.std.specs.Prelude.{not, ◌≡◌, ◌==◌, IfErr, IfOk, false, length, pos, true};
ghost use Rattle.ele_c.specs.Journals.{GivesText, IsFileOf, IsNoFile, OpensJournal, Settles};
ghost use Rattle.ele_c.specs.Stored.{stored};
ghost use Rattle.ele_embed.specs.Journals.{IsNotBegun, IsNotGiven, begun_journal, compacted, pended};

use crate::handle::Elephant;
use box_parts::Parts;
use ele_c_values::codes::{
    CLOSED, NO_JOURNAL, NO_RESULT, OK, OPENED, journal_code, opening_code, rest_number,
};
use ele_embed::{Fault, OpenJournalError, OpenedStore, Store};
use ele_model::Stop;
use std::alloc::Global;

/// Begins a journal, and makes the text the bytes of its file.
#[unsafe(no_mangle)]
pub extern "C" fn elephant_journal_begin(
    alloc: Global,
    elephant: &mut Elephant,
    length: &mut u64,
) -> i32
    ensures { GivesText begun_journal false IsNotBegun (stored elephant.old) result
        (stored elephant.new) length.old length.new }
{
    if !elephant.is_open() {
        return CLOSED;
    }
    let mut store = elephant.take(alloc).into_box();
    match store.begin_journal() {
        Ok(()) => give_text(elephant, store, length),
        Err(error) => give_back(elephant, store, journal_code(error)),
    }
}

/// Makes the text the bytes of the change under way.
#[unsafe(no_mangle)]
pub extern "C" fn elephant_journal_pending(
    alloc: Global,
    elephant: &mut Elephant,
    length: &mut u64,
) -> i32
    ensures { GivesText pended true IsNotGiven (stored elephant.old) result
        (stored elephant.new) length.old length.new }
{
    if !elephant.is_open() {
        return CLOSED;
    }
    let mut store = elephant.take(alloc).into_box();
    match store.pending() {
        Ok(()) => give_text(elephant, store, length),
        Err(error) => give_back(elephant, store, journal_code(error)),
    }
}

/// Makes the text the bytes of a new file.
#[unsafe(no_mangle)]
pub extern "C" fn elephant_journal_compact(
    alloc: Global,
    elephant: &mut Elephant,
    length: &mut u64,
) -> i32
    ensures { GivesText compacted true IsNotGiven (stored elephant.old) result
        (stored elephant.new) length.old length.new }
{
    if !elephant.is_open() {
        return CLOSED;
    }
    let mut store = elephant.take(alloc).into_box();
    match store.compact() {
        Ok(()) => give_text(elephant, store, length),
        Err(error) => give_back(elephant, store, journal_code(error)),
    }
}

// Puts the store back, and gives the length of its text.
fn give_text(elephant: &mut Elephant, store: Box<Store>, count: &mut u64) -> i32
    requires closed { elephant.old.is_full ≡ false }
    ensures full { elephant.new.is_full ≡ true }
    ensures given { elephant.new.held ≡ store.value }
    ensures code { result ≡ pos 0 }
    ensures count { count.new ≡ length store.value.answer }
{
    *count = store.answer().len() as u64;
    elephant.give(Parts::of(store));
    OK
}

// Puts the store back, and returns the code.
fn give_back(elephant: &mut Elephant, store: Box<Store>, code: i32) -> i32
    requires closed { elephant.old.is_full ≡ false }
    ensures full { elephant.new.is_full ≡ true }
    ensures given { elephant.new.held ≡ store.value }
    ensures code { result ≡ code }
{
    elephant.give(Parts::of(store));
    code
}

/// Says that the bytes that were given last are on the disk.
#[unsafe(no_mangle)]
pub extern "C" fn elephant_journal_written(alloc: Global, elephant: &mut Elephant) -> i32
    ensures { Settles (stored elephant.old) result (stored elephant.new) }
{
    if !elephant.is_open() {
        return CLOSED;
    }
    let mut store = elephant.take(alloc).into_box();
    let settled = store.written();
    elephant.give(Parts::of(store));
    match settled {
        Ok(true) => OK,
        Ok(false) => NO_RESULT,
        Err(_) => NO_JOURNAL,
    }
}

/// Opens the store that the bytes of a file keep.
#[unsafe(no_mangle)]
pub extern "C" fn elephant_journal_open(
    alloc: Global,
    elephant: &mut Elephant,
    bytes: &[u8],
    history: u32,
    whole: &mut u64,
    rest: &mut u32,
) -> i32
    ensures { OpensJournal bytes.now (not (history == 0)) (stored elephant.old) result
        (stored elephant.new) (record { whole = whole.old; rest = rest.old })
        (record { whole = whole.new; rest = rest.new }) }
{
    if elephant.is_open() {
        return OPENED;
    }
    match boxed_store(alloc, bytes, history != 0) {
        Ok(
            BoxedStore {
                store,
                whole: count,
                fault,
            },
        ) => {
            elephant.give(Parts::of(store));
            *whole = count as u64;
            *rest = rest_number(fault);
            OK
        }
        Err(error) => opening_code(error),
    }
}

/// A store on the heap, and what the bytes of its file were.
#[derive(Drop)]
struct BoxedStore {
    store: Box<Store>,
    whole: usize,
    fault: Option<Fault>,
}

// Makes the store that the bytes of a file keep on the heap.
#[tactic(auto, using(crate::proofs::Files::is_file, crate::proofs::Files::is_no_file, crate::proofs::Files::lacks_memory))]
fn boxed_store(
    alloc: Global,
    bytes: &[u8],
    has_history: bool,
) -> Result<BoxedStore, OpenJournalError>
    ensures ok { IfOk result (λ opened.
        IsFileOf bytes.now has_history opened.store.value opened.whole opened.fault) }
    ensures err { IfErr result (IsNoFile bytes.now has_history) }
{
    let OpenedStore {
        store,
        whole,
        fault,
    } = match Store::open_journal(alloc, bytes, has_history) {
        Ok(opened) => opened,
        Err(error) => return Err(error),
    };
    match Box::new(alloc, store) {
        Ok(store) => Ok(BoxedStore {
            store,
            whole,
            fault,
        }),
        Err(_) => Err(OpenJournalError::Stop(Stop::NoMemory)),
    }
}
