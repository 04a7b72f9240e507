//! The open handles of a history. A contract sees them as rows.
ghost use Rattle.std.specs.Prelude.{◌≡◌, ◌≢◌, [], IfOk, OnErr};
ghost use Rattle.ele_audit.specs.Open.{AreOpen, IsOpen, file_of, opened_at, opens, since_of};
ghost use Rattle.ele_history.specs.Past.{world_of};

use crate::gone::clock_after;
use crate::row::OpenHandle;
use ele_history::History;
use ele_model::{Explain, HandleRow, NameRow, NoMemory, Reads, Reply, Step, Target};
use ele_moment::{FileId, Handle, Moment};
use ele_name_paths::{Above, path_of};
use std::alloc::Global;

/// Returns the open handles, by number.
///
/// `NoMemory` if memory is refused. If no handle is open, it takes none.
/// Cost: a copy of the rows of names. For each handle it scans these for each name of the path, and
/// for each reader the entries until the one that opened it.
#[tactic(auto, using(crate::proofs::Numbered::no_handles))]
pub fn open_handles<C: Explain>(
    alloc: Global,
    history: &History<C>,
) -> Result<Vec<OpenHandle>, NoMemory>
    ensures ok { IfOk result (λ handles. AreOpen history.now handles.items) }
    ensures err { OnErr result ((world_of history.now).handles ≢ []) }
{
    if history.core().handles().is_empty() {
        return Ok(Vec::new(alloc));
    }
    gathered(alloc, history)
}

// The open handles, with a copy of the rows of names.
fn gathered<C: Explain>(alloc: Global, history: &History<C>) -> Result<Vec<OpenHandle>, NoMemory>
    ensures { IfOk result (λ handles. AreOpen history.now handles.items) }
{
    let names = history.core().name_rows()?;
    let mut handles = Vec::new(alloc);
    let rows = history.core().handles();
    for row in rows {
        let handle = open_handle(alloc, history, &names, row)?;
        handles.push(handle)?;
    }
    Ok(handles)
}

// What is known of the handle, with the rows of names.
fn open_handle<C: Explain>(
    alloc: Global,
    history: &History<C>,
    names: &[NameRow],
    row: &HandleRow,
) -> Result<OpenHandle, NoMemory>
    requires { names.now ≡ (world_of history.now).names }
    ensures { IfOk result (IsOpen history.now row.now) }
{
    let path = path_of(alloc, Above::Live, names, Target::File(file_of(&row.reads)))?;
    Ok(OpenHandle {
        row: *row,
        since: since_of(history, row),
        path,
    })
}

// The file that is read.
fn file_of(reads: &Reads) -> FileId
    ensures { result ≡ file_of reads.now }
{
    match reads {
        Reads::Draft(file) => *file,
        Reads::Version(file, _) => *file,
    }
}

// Since when the handle has been open.
fn since_of<C: Explain>(history: &History<C>, row: &HandleRow) -> Option<Moment>
    ensures { result ≡ since_of history.now row.now.number row.now.reads }
{
    match row.reads {
        Reads::Draft(file) => history.core().draft_opened(file),
        Reads::Version(..) => opened_at(history, row.number),
    }
}

// When a stored entry opened the handle.
fn opened_at<C: Step>(history: &History<C>, handle: Handle) -> Option<Moment>
    ensures { result ≡ opened_at handle history.now.base history.now.entries }
{
    let mut clock = history.base().now;
    let entries = history.entries();
    for entry in entries {
        if opens(&entry.reply, handle) {
            return Some(clock);
        }
        clock = clock_after(&entry.reply, clock);
    }
    None
}

// Whether the reply is the handle.
fn opens(reply: &Reply, handle: Handle) -> bool
    ensures { result ≡ opens handle reply.now }
{
    match reply {
        Reply::Handle(opened) => *opened == handle,
        _ => false,
    }
}
