//! Limits: how many files, names and other things may ever be made. A contract sees limits as their
//! numbers.
ghost use Rattle.std.specs.Prelude.{◌≡◌, ◌≤◌, ◌↔◌, IsSome, IsTrue, IfSome};
ghost use Rattle.ele_model.specs.Bounds.{AreBounds, largest_bounds};
ghost use Rattle.ele_model.specs.LimitsOf.{bounds_of, limit_of};

use crate::refusal::Which;
use std::marker::Model;

/// The numbers of limits by their names; `Limits::of` makes limits of them. A removal lowers no
/// count.
#[derive(Clone, Copy, PartialEq, Eq)]
pub struct LimitNumbers {
    /// Replies ever given, each of which a history keeps: at most 1,000,000,000.
    pub events: u64,
    /// Files ever made: at most 100,000.
    pub files: u64,
    /// Directories ever made, without the root: at most 10,000.
    pub directories: u64,
    /// Names ever given, by each event that makes, restores or renames one: at most 200,000.
    pub names: u64,
    /// Versions ever made, with the open drafts: at most 1,000,000.
    pub versions: u64,
    /// Handles ever opened: at most 1,000,000.
    pub handles: u64,
    /// Groups ever made: at most 1,000.
    pub groups: u64,
    /// Additions of files to groups, ever: at most 100,000.
    pub members: u64,
    /// Marks ever made: at most 10,000.
    pub marks: u64,
}

impl LimitNumbers {
    /// The largest limits.
    /// Cost: constant time.
    pub const LARGEST: LimitNumbers = LimitNumbers {
        events: 1_000_000_000,
        files: 100_000,
        directories: 10_000,
        names: 200_000,
        versions: 1_000_000,
        handles: 1_000_000,
        groups: 1_000,
        members: 100_000,
        marks: 10_000,
    };

    // Whether no number is above its largest.
    fn is_within_largest(&self) -> bool
        ensures { IsTrue result ↔ AreBounds self.now }
    {
        let most = LimitNumbers::LARGEST;
        self.events <= most.events
            && self.files <= most.files
            && self.directories <= most.directories
            && self.names <= most.names
            && self.versions <= most.versions
            && self.handles <= most.handles
            && self.groups <= most.groups
            && self.members <= most.members
            && self.marks <= most.marks
    }
}

/// The limits of a world, each at most its largest.
#[derive(Clone, Copy, PartialEq, Eq)]
pub struct Limits {
    numbers: LimitNumbers,
}

impl Model for Limits {
    ghost use Rattle.ele_model.specs.Bounds.{AreBounds};
    ghost use Rattle.ele_model.specs.declared.limits.LimitNumbers.{LimitNumbers};

    ghost Value = { LimitNumbers };

    ghost view = { λ limits. limits.numbers };

    ghost invariant = { λ limits. AreBounds limits.numbers };

    ghost inverse = { λ numbers. record { numbers = numbers } };
}

/// How many of each kind were ever made.
#[derive(Clone, Copy, PartialEq, Eq)]
pub struct Counts {
    pub files: u64,
    pub directories: u64,
    pub names: u64,
    pub versions: u64,
    pub handles: u64,
    pub groups: u64,
    /// Additions of files to groups, over all groups.
    pub members: u64,
    /// Marks, over all groups.
    pub marks: u64,
}

impl Limits {
    /// Makes limits of nine numbers: events, files, directories, names, versions, handles, groups,
    /// members and marks. `LimitNumbers` has the largest of each. None if a number is above its
    /// largest.
    /// Cost: constant time.
    pub fn new(numbers: [u64; 9]) -> Option<Limits>
        ensures valid { IsSome result ↔ AreBounds (bounds_of numbers) }
        ensures value { IfSome result (λ limits. limits ≡ bounds_of numbers) }
    {
        let [
            events,
            files,
            directories,
            names,
            versions,
            handles,
            groups,
            members,
            marks,
        ] = numbers;
        Limits::of(LimitNumbers {
            events,
            files,
            directories,
            names,
            versions,
            handles,
            groups,
            members,
            marks,
        })
    }

    /// Makes limits of these numbers. None if a number is above its largest.
    /// Cost: constant time.
    pub fn of(numbers: LimitNumbers) -> Option<Limits>
        ensures valid { IsSome result ↔ AreBounds numbers }
        ensures value { IfSome result (λ limits. limits ≡ numbers) }
    {
        if !numbers.is_within_largest() {
            return None;
        }
        Some(Limits { numbers })
    }

    /// Returns the largest limits.
    /// Cost: constant time.
    pub fn largest() -> Limits
        ensures { result ≡ largest_bounds }
    {
        Limits {
            numbers: LimitNumbers::LARGEST,
        }
    }

    /// Returns the largest limits, with another limit of events. None if it is more than
    /// 1,000,000,000.
    /// Cost: constant time.
    pub fn with_events(events: u64) -> Option<Limits>
        ensures found { IsSome result ↔ (events ≤ largest_bounds.events) }
        ensures value { IfSome result
            (λ limits. limits ≡ record largest_bounds { events = events }) }
    {
        if events > LimitNumbers::LARGEST.events {
            return None;
        }
        Some(Limits {
            numbers: LimitNumbers {
                events,
                ..LimitNumbers::LARGEST
            },
        })
    }

    /// Brings a proof the fact that no limit is above its largest.
    pub fn lemma_within(&self)
        ensures { AreBounds self.now }
    {
        let _numbers = self.numbers;
    }

    /// Returns how many replies may ever be given.
    /// Cost: constant time.
    pub fn events(&self) -> u64
        ensures value { result ≡ self.now.events }
        ensures valid { AreBounds self.now }
    {
        self.numbers.events
    }

    /// Returns how many of that kind may ever be made.
    /// Cost: constant time.
    pub fn limit(&self, which: Which) -> u64
        ensures value { result ≡ limit_of self.now which }
        ensures valid { AreBounds self.now }
    {
        let numbers = &self.numbers;
        match which {
            Which::Files => numbers.files,
            Which::Directories => numbers.directories,
            Which::Names => numbers.names,
            Which::Versions => numbers.versions,
            Which::Handles => numbers.handles,
            Which::Groups => numbers.groups,
            Which::Members => numbers.members,
            Which::Marks => numbers.marks,
        }
    }
}
