//! Keys: a version, and the moment from which it is due.
//! A contract sees a key as the three numbers, and its order as `key_cmp`.
ghost use Rattle.std.specs.Prelude.{Some};
ghost use Rattle.ele_due.specs.KeyText.{key_word};

use ele_moment::{FileId, Moment, VersionNo};
use std::fmt;

/// A version and the first moment at which it is due. Keys are ordered by that moment, then by
/// file, then by number, which is the order of removal. A key is displayed as the three numbers.
#[derive(Clone, Copy, PartialEq, Eq, PartialOrd, Ord)]
pub struct Key {
    /// The first moment at which the version is due.
    pub ripe: Moment,
    /// The file of the version.
    pub file: FileId,
    /// The number of the version within its file.
    pub number: VersionNo,
}

impl fmt::Display for Key {
    ghost output = { λ key. Some (key_word key) };

    fn fmt<W: fmt::Write>(&self, f: &mut fmt::Formatter<W>) -> fmt::Result {
        let (ripe, file, number) = (self.ripe, self.file.0, self.number.0);
        write!(f, "{ripe} {file} {number}")
    }
}
