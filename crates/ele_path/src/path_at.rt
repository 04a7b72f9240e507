//! Paths at a moment. A contract sees one as the record of its path, a list of names, and its
//! moment.
ghost use Rattle.std.specs.Prelude.{◌≡◌, ◌⊎◌, ℕ, IsTrue, Option, Some, Ok, Err, IfOk, IfErr};
ghost use Rattle.ele_path.specs.Begins.{is_tag_text};
ghost use Rattle.ele_path.specs.PathText.{path_at_word};
ghost use Rattle.ele_path.specs.Tagged.{SpellsTag};
ghost use Rattle.ele_path.specs.PathAt.{tag_at, SpellsPathAt, IsMomentFault, IsPathAtFault};
ghost use Rattle.ele_path.specs.declared.path_at.PathAt.{PathAt};

use crate::fault::{PathAtFault, PathFault};
use crate::path::Path;
use crate::tagged::path_length;
use ele_moment::{BadMoment, Moment};
use std::alloc::Global;
use std::fmt;

/// A path, and the moment at which it is meant, or none for now. It displays as its word,
/// `/f` or `/f@12`.
#[derive(Drop)]
pub struct PathAt {
    pub path: Path,
    pub moment: Option<Moment>,
}

impl PathAt {
    /// Makes the path at the moment, or now if there is none.
    /// Cost: constant time.
    pub fn new(path: Path, moment: Option<Moment>) -> PathAt
        ensures path { result.path ≡ path }
        ensures moment { result.moment ≡ moment }
    {
        PathAt { path, moment }
    }

    /// Reads the path and the moment that a word spells: a path, then nothing for now, or `@` and a
    /// moment.
    ///
    /// It cuts the word at its first `@` or `#`. It reports a fault of the path first, as
    /// `Path::read` does. After a path, `BadMoment` if no moment follows `@`, and `Numbered` if `#`
    /// follows, whatever is after that. `NoMemory` is possible in place of any other answer.
    /// Cost: grows with the bytes of the word; takes memory for those of the path if they
    /// are more than 22.
    pub fn read(alloc: Global, word: &[u8]) -> Result<PathAt, PathAtFault>
        ensures found { IfOk result (SpellsPathAt word.now) }
        ensures only { (value : PathAt) → SpellsPathAt word.now value
            → (result ≡ Ok value) ⊎ (result ≡ Err (PathAtFault.Path PathFault.NoMemory)) }
        ensures fault { IfErr result (λ fault. (fault ≡ PathAtFault.Path PathFault.NoMemory)
            ⊎ IsPathAtFault word.now fault) }
    {
        let (path, tag) = word.split_at(path_length(word));
        let path = Path::read(alloc, path)?;
        let moment = read_moment(tag)?;
        Ok(PathAt { path, moment })
    }
}

impl fmt::Display for PathAt {
    ghost output = { λ value. Some (path_at_word value.path value.moment) };

    fn fmt<W: fmt::Write>(&self, f: &mut fmt::Formatter<W>) -> fmt::Result {
        let path = &self.path;
        match self.moment {
            Some(moment) => write!(f, "{path}@{moment}"),
            None => write!(f, "{path}"),
        }
    }
}

// The moment of a text that is empty or begins with a mark.
fn read_moment(text: &[u8]) -> Result<Option<Moment>, PathAtFault>
    requires { IsTrue (is_tag_text text.now) }
    ensures found { IfOk result (λ moment. SpellsTag text.now (tag_at moment)) }
    ensures only { (moment : Option ℕ) → SpellsTag text.now (tag_at moment) → result ≡ Ok moment }
    ensures fault { IfErr result (IsMomentFault text.now) }
{
    match text.split_first() {
        None => Ok(None),
        Some((b'@', moment)) => match Moment::read(moment) {
            Ok(moment) => Ok(Some(moment)),
            Err(BadMoment) => Err(PathAtFault::Path(PathFault::BadMoment)),
        },
        Some(_) => Err(PathAtFault::Numbered),
    }
}
