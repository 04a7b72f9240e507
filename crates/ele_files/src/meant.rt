//! The version of one file that a tag means.
//! A contract sees a look-up in the rows of its log.
ghost use Rattle.std.specs.Prelude.{◌≡◌, ◌<◌, ◌≤◌, ◌+◌, ◌^◌};
ghost use Rattle.ele_inode_log.specs.Rows.{ends_after};
ghost use Rattle.ele_files.specs.Meant.{stamps_in, row_numbered, row_living, row_meant};

use crate::file::File;
use ele_inode_log::{Meter, VersionRow};
use ele_model::{Refusal, Tag, VersionInfo};
use ele_moment::{Moment, VersionNo};

/// Returns the row's number, its moments, and its length in bytes.
pub fn info_of(row: &VersionRow) -> VersionInfo
    ensures { result ≡ stamps_in row.now }
{
    VersionInfo {
        number: row.number,
        opened: row.opened,
        closed: row.closed,
        ended: row.ended,
        length: row.cells.length(),
    }
}

// Whether the row ended after the moment, or has no end.
fn ends_after(row: &VersionRow, moment: Moment) -> bool
    ensures { result ≡ ends_after moment row.now }
{
    match row.ended {
        Some(ended) => moment < ended,
        None => true,
    }
}

impl File {
    // The version of that number. Refused: `Forgotten`, with the last held number before it.
    fn numbered(&self, number: VersionNo) -> Result<VersionInfo, Refusal>
        ensures { result ≡ row_numbered self.now number }
    {
        if let Some(row) = self.log.get(number, &mut Meter::new()) {
            return Ok(info_of(row));
        }
        let before = self.log.prev_held(number, &mut Meter::new());
        Err(Refusal::Forgotten(before.map(|row| row.number)))
    }

    /// Returns the version that lived at the moment. Refused: `Forgotten`, with the number of the
    /// last held version that had closed by then.
    pub fn living(&self, moment: Moment) -> Result<VersionInfo, Refusal>
        ensures { result ≡ row_living self.now moment }
    {
        let Some(row) = self.log.closed_by(moment, &mut Meter::new()) else {
            return Err(Refusal::Forgotten(None));
        };
        if ends_after(row, moment) {
            Ok(info_of(row))
        } else {
            Err(Refusal::Forgotten(Some(row.number)))
        }
    }

    /// Returns the version that the tag means; without one that is the version before the next.
    /// Refused: `NoVersion` for a number that no version got, `Forgotten`.
    pub fn meant(&self, tag: Tag) -> Result<VersionInfo, Refusal>
        ensures { result ≡ row_meant self.now tag }
    {
        match tag {
            Tag::Now => self.numbered(self.next.before()),
            Tag::At(moment) => self.living(moment),
            Tag::Number(number) => {
                if number.0 == 0 || number.0 >= self.next.0 {
                    return Err(Refusal::NoVersion);
                }
                self.numbered(number)
            }
        }
    }
}
