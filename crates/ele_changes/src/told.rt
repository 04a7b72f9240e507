//! What the row of a name tells of two moments. A contract sees plain data.
ghost use Rattle.std.specs.Prelude.{◌≡◌};
ghost use Rattle.ele_changes.specs.Names.{first_name, gained_name, lost_name, second_name, target_of};

use ele_model::{NameRow, Target};

/// What the row of a name tells.
#[derive(Clone, Copy)]
pub(crate) enum NameChange {
    /// The name is there at the second moment alone.
    Gained(NameRow),
    /// The name is there at the first moment alone.
    Lost(NameRow),
    /// The second name has taken the place of the first.
    Moved(NameRow, NameRow),
    /// The name is there at both moments.
    Kept(NameRow),
}

impl NameChange {
    /// The name at the first moment.
    pub fn first_name(&self) -> Option<NameRow>
        ensures { result ≡ first_name self.now }
    {
        match self {
            NameChange::Gained(_) => None,
            NameChange::Lost(row) => Some(*row),
            NameChange::Moved(old, _) => Some(*old),
            NameChange::Kept(row) => Some(*row),
        }
    }

    /// The name at the second moment.
    pub fn second_name(&self) -> Option<NameRow>
        ensures { result ≡ second_name self.now }
    {
        match self {
            NameChange::Gained(row) => Some(*row),
            NameChange::Lost(_) => None,
            NameChange::Moved(_, row) => Some(*row),
            NameChange::Kept(row) => Some(*row),
        }
    }

    /// The file or directory whose name it is.
    pub fn target(&self) -> Target
        ensures { result ≡ target_of self.now }
    {
        match self {
            NameChange::Gained(row) => row.target,
            NameChange::Lost(row) => row.target,
            NameChange::Moved(_, row) => row.target,
            NameChange::Kept(row) => row.target,
        }
    }
}

/// What a name that is lost tells, beside the one in its place.
pub(crate) fn lost_name(row: &NameRow, other: Option<NameRow>) -> Option<NameChange>
    ensures { result ≡ lost_name row.now other }
{
    match other {
        Some(_) => None,
        None => Some(NameChange::Lost(*row)),
    }
}

/// What a name that is gained tells, beside the one whose place it has.
pub(crate) fn gained_name(row: &NameRow, other: Option<NameRow>) -> Option<NameChange>
    ensures { result ≡ gained_name row.now other }
{
    match other {
        Some(old) => Some(NameChange::Moved(old, *row)),
        None => Some(NameChange::Gained(*row)),
    }
}
