//! Why groups refuse a change. A contract sees plain data.
ghost use Rattle.std.specs.Prelude.{◌≡◌};
ghost use Rattle.ele_groups.specs.declared.fault.GroupFault.TheVariants as fault;

use ele_moment::NoMemory;
use thiserror::Error;

/// Why a change of groups fails. All groups are as they were.
#[derive(Clone, Copy, Debug, PartialEq, Eq, Error)]
pub enum GroupFault {
    /// No group has the name.
    #[error("no such group")]
    NoGroup,
    /// A group has the name already.
    #[error("the group exists")]
    GroupExists,
    /// The group has the file already.
    #[error("the file is in the group")]
    AlreadyMember,
    /// The group doesn't have the file.
    #[error("the file is not in the group")]
    NotMember,
    /// The group was marked at that moment already.
    #[error("the mark exists")]
    MarkExists,
    /// The group has no mark at that moment.
    #[error("no such mark")]
    NoMark,
    /// Memory for the change was refused.
    #[error("out of memory")]
    NoMemory,
}

impl From<NoMemory> for GroupFault {
    ghost from_gives = { λ _ made. made ≡ fault.NoMemory };

    fn from(_refused: NoMemory) -> GroupFault {
        GroupFault::NoMemory
    }
}
