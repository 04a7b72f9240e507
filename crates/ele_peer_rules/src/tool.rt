//! The tools that have rules. A contract sees a tool as plain data.
ghost use Rattle.std.specs.Prelude.{◌≡◌, true};
ghost use Rattle.ele_peer_rules.specs.declared.ways.Back.TheVariants.{FromNewest, FromNow};
ghost use Rattle.ele_peer_rules.specs.declared.ways.OldestKept.TheVariants.{Never};
ghost use Rattle.ele_peer_rules.specs.declared.ways.Take.TheVariants.{Newest};
ghost use Rattle.ele_peer_rules.specs.Ways.{ways_of};

use crate::ways::{Back, OldestKept, Take, Ways};

/// The tool as which a rule counts.
#[derive(Clone, Copy)]
pub enum Tool {
    /// restic from 0.16 on.
    Restic,
    /// restic up to 0.15, which keeps no row for being the oldest.
    OldRestic,
    /// borg 1.
    Borg,
    /// The timeline of snapper.
    Snapper,
    /// sanoid, which tells the kind of a snapshot by its name.
    Sanoid,
    /// btrbk, which keeps the first row of each span, up to so many spans ago.
    Btrbk,
}

impl Tool {
    /// As what the tool counts. None for btrbk, which has a schedule.
    pub(crate) fn ways(self) -> Option<Ways>
        ensures { result ≡ ways_of self }
    {
        match self {
            Tool::Restic => Some(of_newest(OldestKept::Always)),
            Tool::OldRestic => Some(of_newest(OldestKept::Never)),
            Tool::Borg => Some(Ways {
                take: Take::Newest,
                counts_kept: false,
                oldest: OldestKept::ByNumber,
                back: Back::FromNow,
            }),
            Tool::Snapper => Some(of_now(Take::First)),
            Tool::Sanoid => Some(of_now(Take::Named)),
            Tool::Btrbk => None,
        }
    }
}

// The ways of restic.
fn of_newest(oldest: OldestKept) -> Ways
    ensures { result ≡ record { take = Newest; counts_kept = true; oldest = oldest; back = FromNewest } }
{
    Ways {
        take: Take::Newest,
        counts_kept: true,
        oldest,
        back: Back::FromNewest,
    }
}

// The ways of tools for snapshots.
fn of_now(take: Take) -> Ways
    ensures { result ≡ record { take = take; counts_kept = true; oldest = Never; back = FromNow } }
{
    Ways {
        take,
        counts_kept: true,
        oldest: OldestKept::Never,
        back: Back::FromNow,
    }
}
