//! The limits that a C program gives, and what they count.
ghost use Rattle.std.specs.Prelude.{◌≡◌};
ghost use Rattle.ele_c_values.specs.Kept.{counts_made};
ghost use Rattle.ele_c_values.specs.Limits.{IsLimits};

use crate::numbers::{NONE, Numbers};
use ele_embed::Store;
use ele_model::{LimitNumbers, Limits};

/// `elephant_limits`.
#[repr(C)]
#[derive(Clone, Copy)]
pub struct LimitFields {
    pub events: u64,
    pub files: u64,
    pub directories: u64,
    pub names: u64,
    pub versions: u64,
    pub handles: u64,
    pub groups: u64,
    pub members: u64,
    pub marks: u64,
}

/// Returns the limits, if none is above its largest.
pub fn limits_of(limits: &LimitFields) -> Option<Limits>
    ensures { IsLimits limits.now result }
{
    Limits::of(LimitNumbers {
        events: limits.events,
        files: limits.files,
        directories: limits.directories,
        names: limits.names,
        versions: limits.versions,
        handles: limits.handles,
        groups: limits.groups,
        members: limits.members,
        marks: limits.marks,
    })
}

// `elephant_counts_row`: events, files, directories, names, versions, handles, groups, members, marks.
pub(crate) fn counts_made(store: &Store) -> Numbers
    ensures { result ≡ counts_made store.now }
{
    let made = store.counts();
    Numbers {
        first: store.events(),
        second: made.files,
        third: made.directories,
        fourth: made.names,
        fifth: made.versions,
        sixth: made.handles,
        seventh: made.groups,
        eighth: made.members,
        ninth: made.marks,
        ..NONE
    }
}
