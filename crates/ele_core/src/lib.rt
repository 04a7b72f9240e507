//! One world, which events change. A contract sees a core as its flat world, with the number of
//! version rows that the last clean read.
#![tactic(auto)]

ghost use Rattle.std.specs.Prelude.{◌≡◌, IfOk, OnErr, IsOk, true, false};
ghost use Rattle.ele_headline.specs.Headline.{KeepsHeadline};
ghost use Rattle.ele_model.specs.Bounds.{AreBounds};
ghost use Rattle.ele_model.specs.NoIdleStays.{HasNoIdle};
ghost use Rattle.ele_model.specs.Reached.{IsReached};
ghost use Rattle.ele_model.specs.Ready.{takes_no_memory};
ghost use Rattle.ele_model.specs.Run.{IsEvent};
ghost use Rattle.ele_model.specs.Step.{step};
ghost use Rattle.ele_model.specs.WellFormed.{IsWellFormed};
ghost use Rattle.ele_model.specs.World.{fresh_world};
ghost use Rattle.ele_events.specs.Does.{refuses};
ghost use Rattle.ele_events.specs.Reads.{IsRead};

mod answer;
mod clean;
mod clock;
mod copy;
mod directory;
mod explaining;
mod fate;
mod from_flat;
mod group;
mod name;
mod note;
mod question;
mod session;
mod step;
mod version;

pub use crate::from_flat::FromFlatError;
pub use ele_events::{Halt, Stat};
pub use ele_model::{
    Boxed, ByteList, Cause, Cell, Counts, DeletedName, DeletedNameList, DirId, DirectoryRow,
    DraftRow, Event, Fate, FileId, FileRow, FileStat, Flat, GroupList, GroupRow, Handle, HandleRow,
    KeptName, Key, KeyList, Kind, Ladder, LimitNumbers, Limits, ListOf, MarkRow, Moment, Name,
    NameList, NameRow, NoMemory, PassEnd, Path, PathAt, Policy, Reads, Refusal, Reply, Rows,
    Source, StampsList, Stop, Tag, TaggedPath, Target, Usage, VersionInfo, VersionNo, VersionRow,
    Which, deleted_names, laws,
};
pub use ele_moment::{BadMoment, BadName};
pub use ele_path::{PathAtFault, PathFault};
pub use ele_policy::{BadLadder, Floor, Interval};
pub use ele_state::Copied;
use ele_state::State;
pub use ele_well_formed::FlatFault;
use std::alloc::Global;
use std::marker::Model;

/// One world, which events led to. Each event is a call. A call that changes the world takes `&mut
/// self`, and a call that only asks takes `&self`. `apply` takes any event as a value.
pub struct Core {
    state: State,
}

impl Drop for Core {
    fn drop(self) {
        let Core { state: _state } = self;
    }
}

impl Model for Core {
    ghost use Rattle.ele_state.specs.Shown.{Shown};

    ghost Value = { Shown };

    ghost view = { λ core. core.state };

    ghost use Rattle.ele_model.specs.Reached.{IsReached};

    ghost invariant = { λ core. IsReached core.state.world };
}

impl Core {
    /// Makes the fresh world with these limits.
    ///
    /// `NoMemory` if memory is refused.
    /// Cost: constant time; takes memory for the root directory.
    pub fn new(alloc: Global, limits: Limits) -> Result<Core, NoMemory>
        ensures { IfOk result (λ core. core.world ≡ fresh_world limits) }
    {
        // For the proof: the limits are allowed.
        limits.lemma_within();
        let state = State::new(alloc, limits)?;
        Ok(Core { state })
    }

    /// Answers the event, and makes its change.
    ///
    /// `NoMemory` if memory is refused. The world is then as it was, and it doesn't refuse the
    /// event, since `apply` checks refusals first. `takes_no_memory` says which events take none.
    ///
    /// The reply and the next world are as the headline says of each run that leads to the world,
    /// and `now` says that there is one.
    /// Cost: that of the event's own call; a stat and a usage also take memory for their boxed
    /// replies.
    pub fn apply(&mut self, event: &Event) -> Result<Reply, NoMemory>
        ensures step { IfOk result
            (λ reply. (reply, self.new.world) ≡ step self.old.world event.now) }
        ensures headline { IfOk result
            (λ reply. KeepsHeadline self.old.world event.now reply self.new.world) }
        ensures err { OnErr result (self.new.world ≡ self.old.world) }
        ensures refused { OnErr result (refuses self.old.world event.now ≡ false) }
        ensures ready { takes_no_memory event.now ≡ true → IsOk result }
        ensures event { IsEvent event.now }
        ensures read { IfOk result (λ reply. IsRead event.now reply self.new.rows_read) }
    {
        // For the proof: the reply of the step keeps the headline.
        ele_headline::headline();
        self.state.reset_rows_read();
        let halt = match self.answer(event) {
            Ok(reply) => return Ok(reply),
            Err(halt) => halt,
        };
        match halt {
            Halt::Refused(refusal) => Ok(Reply::Refused(refusal)),
            Halt::NoMemory => Err(NoMemory),
        }
    }

    /// Returns the current moment. Its contract also says that events led to the world, from one
    /// that a run may begin in, such as the fresh world. So the headline holds of its next event,
    /// and the laws of `ele_world` hold. Three of them are clauses too: the world is well
    /// formed, its limits are allowed, and each file has a live name, a held version or a draft.
    /// Cost: constant time.
    pub fn now(&self) -> Moment
        ensures value { result ≡ self.now.world.now }
        ensures reached { IsReached self.now.world }
        ensures formed { IsWellFormed self.now.world }
        ensures bounds { AreBounds self.now.world.limits }
        ensures idle { HasNoIdle self.now.world }
    {
        self.state.now()
    }

    /// Returns how many version rows the last clean read; 0 after `apply` of any other event, whose
    /// reads aren't counted.
    /// Cost: constant time.
    pub fn rows_read(&self) -> u64
        ensures { result ≡ self.now.rows_read }
    {
        self.state.rows_read()
    }

    /// Returns a plain copy of all rows and counts.
    ///
    /// `NoMemory` if memory is refused.
    /// Cost: grows with all names ever made, all other rows, and the bytes of all versions and
    /// drafts, which it copies, shared blocks once for each version.
    pub fn flat(&self) -> Result<Flat, NoMemory>
        ensures { IfOk result (λ flat. flat ≡ self.now.world) }
    {
        self.state.flat()
    }
}
