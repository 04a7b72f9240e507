//! The row of a held version, the cut of a search by closing, and the end of a version.
//! A contract sees its fields, the cells as the layout of their block map.
use ele_blocks::BlockMap;
use ele_moment::{Moment, VersionNo};
use ele_rows::{Change, Cut, Head, Headed};

/// A version of a file: its number, the moments at which it was opened, closed and ended, if it has
/// ended, and its content. A store holds the content's blocks, and the row owns a share of them.
/// Who takes the row out of a log has to give up its cells there.
#[derive(Drop)]
pub struct VersionRow {
    pub number: VersionNo,
    pub opened: Moment,
    pub closed: Moment,
    pub ended: Option<Moment>,
    pub cells: BlockMap,
}

impl Headed for VersionRow {
    ghost head = { λ row. record { key = row.number; rank = row.closed } };

    fn head(&self) -> Head {
        Head {
            key: self.number.0,
            rank: self.closed.seconds(),
        }
    }
}

/// The cut after a moment: rows of versions that had closed by then are before it.
#[derive(Clone, Copy)]
pub struct ClosedBy(pub Moment);

impl Cut for ClosedBy {
    ghost use Rattle.std.specs.Prelude.{nat_le};

    ghost before = { λ cut head. nat_le head.rank cut.0 };

    fn is_behind(&self, head: Head) -> bool {
        head.rank <= self.0.seconds()
    }
}

/// The end of a version, at the moment.
#[derive(Clone, Copy)]
pub struct EndsAt(pub Moment);

impl Change<VersionRow> for EndsAt {
    ghost use Rattle.std.specs.Prelude.{Some, refl};

    ghost changed = { λ end row. record row { ended = Some end.0 } };

    ghost keeps = { λ end row. refl };

    fn apply(&self, row: &mut VersionRow) {
        row.ended = Some(self.0);
    }
}
