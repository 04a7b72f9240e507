//! The queue of keys and the book of usage of rows that have neither yet.
ghost use Rattle.std.specs.Prelude.{◌≡◌, ℕ, ◌==◌, ◌&&◌, ◌||◌, IfOk, OnOk};
ghost use Rattle.ele_due.specs.declared.key.Key.{Key};
ghost use Rattle.ele_due.specs.HasKey.{has_key};
ghost use Rattle.ele_model.specs.Neighbours.{is_moment};
ghost use Rattle.ele_model.specs.Parts.{HasParts};
ghost use Rattle.ele_model.specs.RipeRows.{ripe_at};
ghost use Rattle.ele_state.specs.Inside.{world_of};
ghost use Rattle.ele_state.specs.Queued.{IsQueued};
ghost use Rattle.ele_state.specs.Tracked.{IsBooked};

use crate::moments::ripe_moment;
use crate::rows::Rows;
use ele_due::DueQueue;
use ele_fates::put;
use ele_model::{FileId, FileRow, NoMemory};
use ele_usage::UsageBook;

// Adds the keys of the file's versions to the queue.
fn add_keys(queue: &mut DueQueue, rows: &Rows, file: FileId) -> Result<(), NoMemory>
    requires { HasParts (world_of rows.now) }
    ensures { OnOk result ((k : Key) → has_key k queue.new ≡ (has_key k queue.old
        || ((k.file == file) && is_moment k.ripe (ripe_at (world_of rows.now) k.file k.number)))) }
{
    let held = rows.files.stamps_of_file(file)?;
    for info in held.as_slice() {
        let moment = ripe_moment(rows, file, info.number);
        put(queue, file, info.number, moment)?;
    }
    Ok(())
}

// Returns the queue of the rows. The files are those of the rows.
pub fn queue_of(rows: &Rows, files: &[FileRow]) -> Result<DueQueue, NoMemory>
    requires formed { HasParts (world_of rows.now) }
    requires files { files.now ≡ rows.now.files.files }
    ensures { IfOk result (λ queue. IsQueued (world_of rows.now) queue) }
{
    let mut queue = DueQueue::new(rows.alloc);
    for file in files {
        add_keys(&mut queue, rows, file.id)?;
    }
    Ok(queue)
}

// Returns the book of the rows. The files are those of the rows.
pub fn book_of(rows: &Rows, files: &[FileRow]) -> Result<UsageBook, NoMemory>
    requires formed { HasParts (world_of rows.now) }
    requires files { files.now ≡ rows.now.files.files }
    ensures { IfOk result (λ book. IsBooked rows.now.files book) }
{
    let mut book = UsageBook::new();
    for file in files {
        let usage = rows.files.usage_of(file.id)?;
        book.add(file.policy.kind(), usage);
    }
    Ok(book)
}
