//! A state made of the rows of a world.
ghost use Rattle.std.specs.Prelude.{◌≡◌, IfOk};
ghost use Rattle.ele_model.specs.Start.{IsStart};
ghost use Rattle.ele_state.specs.Inside.{world_of};

use crate::State;
use crate::derived::{book_of, queue_of};
use crate::rows::{Made, Rows};
use ele_due::DueQueue;
use ele_files::{Files, Meter};
use ele_groups::Groups;
use ele_model::{Flat, NoMemory};
use ele_names::Names;
use ele_policy::laws;
use ele_usage::UsageBook;
use std::alloc::Global;

// The rows of the world, with an empty queue and an empty book.
fn rows_from(alloc: Global, flat: &Flat) -> Result<Rows, NoMemory>
    requires { IsStart flat.now }
    ensures world { IfOk result (λ rows. world_of rows ≡ flat.entry.now) }
    ensures meter { IfOk result (λ rows. rows.meter ≡ 0) }
{
    let made = &flat.made;
    Ok(Rows {
        moment: flat.now,
        directories: Vec::from_slice(alloc, flat.directories.as_slice())?,
        names: Names::from_rows(alloc, flat.names.as_slice())?,
        files: Files::from_flat(alloc, flat)?,
        groups: Groups::from_rows(alloc, flat.groups.as_slice())?,
        queue: DueQueue::new(alloc),
        book: UsageBook::new(),
        made: Made {
            files: made.files,
            directories: made.directories,
            names: made.names,
            versions: made.versions,
            groups: made.groups,
            members: made.members,
            marks: made.marks,
        },
        limits: flat.limits,
        meter: Meter::new(),
        alloc,
    })
}

impl State {
    /// Makes the state whose world these rows are, with queue and book made from them.
    ///
    /// `NoMemory` if memory is refused.
    /// Cost: the rows times the logarithm of their number, all bytes of contents, and for each
    /// version the groups of its file; takes memory for all rows and contents.
    pub fn from_flat(alloc: Global, flat: &Flat) -> Result<State, NoMemory>
        requires { IsStart flat.now }
        ensures world { IfOk result (λ state. state.world ≡ flat.entry.now) }
        ensures read { IfOk result (λ state. state.rows_read ≡ 0) }
    {
        laws::policies_are_lawful();
        let mut rows = rows_from(alloc, flat)?;
        let files = flat.files.as_slice();
        rows.queue = queue_of(&rows, files)?;
        rows.book = book_of(&rows, files)?;
        Ok(State { rows })
    }
}
