//! Paths that lend their names as a list. A contract sees a path as that list.
ghost use Rattle.std.specs.Prelude.{◌≡◌, ◌⊎◌, ℕ, List, Some, Ok, Err, IfOk, IfErr};
ghost use Rattle.ele_path.specs.FirstFault.{path_fault};
ghost use Rattle.ele_path.specs.Path.{SpellsPath};
ghost use Rattle.ele_path.specs.Tagged.{SpellsTaggedPath};
ghost use Rattle.ele_path.specs.TaggedFault.{IsTaggedFault};
ghost use Rattle.ele_path.specs.declared.tagged.TaggedPath.{TaggedPath};

use ele_moment::Name;
use ele_path::{PathFault, Tag};
use std::alloc::{AllocError, Global};
use std::marker::Model;

/// A path from the root, with the list of its names. `ele_path` keeps a path as its text instead, and
/// gives the names one by one.
#[derive(Drop)]
pub struct Path {
    path: ele_path::Path,
    names: Vec<Name>,
}

impl Model for Path {
    ghost use Rattle.std.specs.Prelude.{◌≡◌, List, ℕ};

    ghost Value = { List (List ℕ) };

    ghost view = { λ listed. listed.path };

    ghost invariant = { λ listed. listed.names.items ≡ listed.path };
}

impl Path {
    /// Reads the path that a word spells: `/`, or names with a slash before each.
    ///
    /// The errors are those of `Path::read` of `ele_path`: `BadPath`, `BadName`, and `NoMemory`, which
    /// is possible in place of any other answer.
    /// Cost: grows with the bytes of the word; takes memory for them and 72 bytes for each name.
    pub fn read(alloc: Global, word: &[u8]) -> Result<Path, PathFault>
        ensures found { IfOk result (SpellsPath word.now) }
        ensures only { (names : List (List ℕ)) → SpellsPath word.now names
            → (result ≡ Ok names) ⊎ (result ≡ Err PathFault.NoMemory) }
        ensures fault { IfErr result
            (λ fault. (fault ≡ PathFault.NoMemory) ⊎ (path_fault word.now ≡ Some fault)) }
    {
        let path = ele_path::Path::read(alloc, word)?;
        Ok(listed(alloc, path)?)
    }

    /// Returns the names, from the root on.
    /// Cost: constant time.
    pub fn names(&self) -> &[Name]
        ensures { result.now ≡ self.now }
    {
        self.names.as_slice()
    }

    /// Returns the path as `ele_path` keeps it.
    /// Cost: constant time.
    pub fn kept(&self) -> &ele_path::Path
        ensures { result.now ≡ self.now }
    {
        &self.path
    }
}

// The path with the list of its names.
fn listed(alloc: Global, path: ele_path::Path) -> Result<Path, AllocError>
    ensures { IfOk result (λ listed. listed ≡ path) }
{
    let names = names_of(alloc, &path)?;
    Ok(Path { path, names })
}

// The names of a path.
fn names_of(alloc: Global, path: &ele_path::Path) -> Result<Vec<Name>, AllocError>
    ensures { IfOk result (λ names. names.items ≡ path.now) }
{
    let mut names = Vec::new(alloc);
    for name in path.names() {
        names.push(name)?;
    }
    Ok(names)
}

/// A path, and which version of its target is meant.
#[derive(Drop)]
pub struct TaggedPath {
    path: Path,
    tag: Tag,
}

impl Model for TaggedPath {
    ghost use Rattle.ele_path.specs.declared.tagged.TaggedPath.{TaggedPath};

    ghost Value = { TaggedPath };

    ghost view = { λ tagged. record { path = tagged.path; tag = tagged.tag } };
}

impl TaggedPath {
    /// Reads the path and the tag that a word spells: a path, then nothing for now, `@` and a
    /// moment, or `#` and the number of a version.
    ///
    /// The errors are those of `TaggedPath::read` of `ele_path`. `NoMemory` is possible in place of
    /// any other answer.
    /// Cost: that of `Path::read`.
    pub fn read(alloc: Global, word: &[u8]) -> Result<TaggedPath, PathFault>
        ensures found { IfOk result (SpellsTaggedPath word.now) }
        ensures only { (value : TaggedPath) → SpellsTaggedPath word.now value
            → (result ≡ Ok value) ⊎ (result ≡ Err PathFault.NoMemory) }
        ensures fault { IfErr result
            (λ fault. (fault ≡ PathFault.NoMemory) ⊎ IsTaggedFault word.now fault) }
    {
        let tagged = ele_path::TaggedPath::read(alloc, word)?;
        let path = tagged.path().clone()?;
        let path = listed(alloc, path)?;
        Ok(TaggedPath {
            path,
            tag: tagged.tag(),
        })
    }

    /// Returns the path.
    /// Cost: constant time.
    pub fn path(&self) -> &Path
        ensures { result.now ≡ self.now.path }
    {
        &self.path
    }

    /// Returns the tag.
    /// Cost: constant time.
    pub fn tag(&self) -> Tag
        ensures { result ≡ self.now.tag }
    {
        self.tag
    }
}
