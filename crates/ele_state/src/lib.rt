//! One world, stored for fast access: its rows, and the queue of keys and the book of usage, which
//! follow each change. A contract sees a state as its flat world, with the number of version rows
//! that the last clean read.
#![tactic(auto)]

ghost use Rattle.std.specs.Prelude.{◌≡◌, ◌≤◌, ◌+◌, nat_le, IfOk};
ghost use Rattle.ele_moment.specs.Last.{last_moment};
ghost use Rattle.ele_model.specs.Bounds.{AreBounds};
ghost use Rattle.ele_model.specs.Change.{Time, after_change};
ghost use Rattle.ele_model.specs.CountsOf.{counts_of};
ghost use Rattle.ele_model.specs.NoIdleStays.{HasNoIdle};
ghost use Rattle.ele_model.specs.Step.{versions_made};
ghost use Rattle.ele_model.specs.WellFormed.{IsWellFormed};
ghost use Rattle.ele_model.specs.World.{fresh_world};
ghost use Rattle.ele_state.specs.Full.{is_full, made_of};

mod append;
mod book;
mod derived;
mod directory;
mod due;
mod fate;
mod file;
mod group;
mod mark;
mod moments;
mod name;
mod path;
mod policy;
mod restored;
mod returning;
mod rows;
mod session;
mod version;

pub use crate::path::{directory_in, file_in};
use crate::rows::{Made, Rows};
use ele_due::DueQueue;
pub use ele_files::Copied;
use ele_files::{Files, Meter};
use ele_groups::Groups;
use ele_model::{
    Counts, DirId, DirectoryRow, Flat, Limits, ListOf, Moment, NoMemory, Policy, Which,
};
use ele_names::Names;
use ele_policy::{Floor, Interval, laws};
use ele_usage::UsageBook;
use std::alloc::Global;
use std::marker::Model;

/// One world, which is well formed; each file has a live name, a held version or a draft.
#[derive(Drop)]
pub struct State {
    rows: Rows,
}

impl Model for State {
    ghost use Rattle.ele_state.specs.Shown.{Shown};

    ghost Value = { Shown };

    ghost use Rattle.ele_state.specs.Inside.{shown_of, IsSettled};

    ghost view = { λ state. shown_of state.rows };

    ghost invariant = { λ state. IsSettled state.rows };
}

impl State {
    /// Makes the fresh world with these limits.
    ///
    /// `NoMemory` if memory is refused.
    pub fn new(alloc: Global, limits: Limits) -> Result<State, NoMemory>
        ensures { IfOk result (λ state. state.world ≡ fresh_world limits) }
    {
        limits.lemma_within();
        laws::policies_are_lawful();
        let mut directories = Vec::new(alloc);
        directories.push(DirectoryRow {
            id: DirId(0),
            default: Policy::Safe(Interval::DAY, Floor::NONE),
        })?;
        Ok(State {
            rows: Rows {
                moment: Moment::START,
                directories,
                names: Names::new(alloc),
                files: Files::new(alloc),
                groups: Groups::new(alloc),
                queue: DueQueue::new(alloc),
                book: UsageBook::new(),
                made: Made {
                    files: 0,
                    directories: 0,
                    names: 0,
                    versions: 0,
                    groups: 0,
                    members: 0,
                    marks: 0,
                },
                limits,
                meter: Meter::new(),
                alloc,
            },
        })
    }

    /// Returns the allocator of the rows.
    pub fn allocator(&self) -> Global {
        self.rows.alloc
    }

    /// Returns the current moment. Its contract also says that the world is well formed, and that
    /// its limits are allowed. Each file has a live name, a held version or a draft. So the laws of
    /// `ele_world` hold.
    pub fn now(&self) -> Moment
        ensures value { result ≡ self.now.world.now }
        ensures formed { IsWellFormed self.now.world }
        ensures bounds { AreBounds self.now.world.limits }
        ensures idle { HasNoIdle self.now.world }
    {
        self.rows.moment
    }

    /// Moves the clock to the moment.
    pub fn set_time(&mut self, to: Moment)
        requires { self.old.world.now ≤ to }
        ensures world { self.new.world ≡ after_change self.old.world (Time to) }
        ensures valid { to ≤ last_moment }
    {
        to.lemma_in_range();
        self.rows.moment = to;
    }

    /// Returns whether the limit of that kind is reached. Open drafts count as versions.
    pub fn is_full(&self, which: Which) -> bool
        ensures { result ≡ is_full self.now.world which }
    {
        self.made(which) >= self.rows.limits.limit(which)
    }

    /// Returns whether the limit of versions is reached by one version more. Open drafts count as
    /// versions.
    pub fn is_nearly_full(&self) -> bool
        ensures { result ≡ nat_le self.now.world.limits.versions
            (versions_made self.now.world + 1) }
    {
        let limit = self.rows.limits.limit(Which::Versions);
        self.made(Which::Versions) >= limit.saturating_sub(1)
    }

    // How many of that kind were ever made. Open drafts count as versions.
    fn made(&self, which: Which) -> u64
        ensures { result ≡ made_of self.now.world which }
    {
        let made = self.counts();
        match which {
            Which::Files => made.files,
            Which::Directories => made.directories,
            Which::Names => made.names,
            Which::Versions => made.versions,
            Which::Handles => made.handles,
            Which::Groups => made.groups,
            Which::Members => made.members,
            Which::Marks => made.marks,
        }
    }

    /// Returns how many version rows `remove` read since the last `reset_rows_read`. Rows that
    /// other calls read don't count.
    pub fn rows_read(&self) -> u64
        ensures { result ≡ self.now.rows_read }
    {
        self.rows.meter.rows()
    }

    /// Sets the count of rows read to zero.
    pub fn reset_rows_read(&mut self)
        ensures { self.new ≡ record self.old { rows_read = 0 } }
    {
        self.rows.meter = Meter::new();
    }

    /// Returns a plain copy of all rows and counts.
    ///
    /// `NoMemory` if memory is refused.
    pub fn flat(&self) -> Result<Flat, NoMemory>
        ensures { IfOk result (λ flat. flat ≡ self.now.world) }
    {
        let rows = &self.rows;
        Ok(Flat {
            now: rows.moment,
            directories: ListOf::from_vec(Vec::from_slice(rows.alloc, &rows.directories)?),
            files: rows.files.file_rows()?,
            names: ListOf::from_vec(rows.names.rows()?),
            versions: rows.files.version_rows()?,
            drafts: rows.files.draft_rows()?,
            handles: rows.files.handle_rows()?,
            groups: rows.groups.rows()?,
            made: Counts {
                files: rows.made.files,
                directories: rows.made.directories,
                names: rows.made.names,
                versions: rows.made.versions,
                handles: rows.files.handles_opened(),
                groups: rows.made.groups,
                members: rows.made.members,
                marks: rows.made.marks,
            },
            limits: rows.limits,
        })
    }

    /// Returns how many of each kind were ever made, as the limits count them: open drafts count as
    /// versions.
    #[tactic(auto, using(crate::proofs::Bounded::versions_few))]
    pub fn counts(&self) -> Counts
        ensures { result ≡ counts_of self.now.world }
    {
        let rows = &self.rows;
        Counts {
            files: rows.made.files,
            directories: rows.made.directories,
            names: rows.made.names,
            versions: rows.made.versions + rows.files.drafts_open() as u64,
            handles: rows.files.handles_opened(),
            groups: rows.made.groups,
            members: rows.made.members,
            marks: rows.made.marks,
        }
    }
}
