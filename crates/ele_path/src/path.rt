//! Paths: names from the root on. A contract sees a path as the list of its names.
ghost use Rattle.std.specs.Prelude.{◌≡◌, ◌+◌, ◌-◌, ◌≤◌, ◌⊎◌, ◌↔◌, ◌++◌, ◌∷◌, [], ℕ, List, All, length, take, nat_eq, slice_get, Some, Ok, Err, IfOk, IfErr, OnOk, IsOk, IsErrOf, ◌<◌};
ghost use Rattle.std.specs.Cmp.{on_per, on_equiv, partial_equiv_from_equiv};
ghost use Rattle.std.specs.Cmp.Lexicographic.{pointwise, lists_per, lists_equiv, nat_list_eq_equiv};
ghost use Rattle.ele_moment.specs.Name.{IsName};
ghost use Rattle.ele_path.specs.Path.{IsPath, SpellsPath, path_text, pieces_of};
ghost use Rattle.ele_path.specs.Text.{bytes_of};
ghost use Rattle.ele_path.specs.PathText.{path_word};
ghost use Rattle.ele_path.specs.FirstFault.{piece_fault, piece_faults, path_fault};

use crate::fault::PathFault;
use crate::names::{Names, name_start, names_in};
use crate::text::Text;
use ele_moment::Name;
use std::alloc::{AllocError, Global};
use std::fmt;
use std::marker::Model;

/// A path from the root: at most 32 names; the root itself has none. It is displayed as `/`, or as
/// its names with a slash before each. It is kept as this text, and takes memory of its own for one
/// of more than 22 bytes.
#[derive(Drop)]
pub struct Path {
    /// The names, each with a slash before it.
    text: Text,
    alloc: Global,
}

impl Model for Path {
    ghost use Rattle.std.specs.Prelude.{List, ℕ};

    ghost Value = { List (List ℕ) };

    ghost use Rattle.ele_path.specs.Path.{names_of, IsPathText};
    ghost use Rattle.ele_path.specs.Text.{bytes_of};

    ghost view = { λ path. names_of (bytes_of path.text) };

    ghost invariant = { λ path. IsPathText (bytes_of path.text) };
}

impl Path {
    /// The most names of a path.
    const MOST_NAMES: usize = 32;

    /// Makes the path of these names, from the root on. `BadPath` for more than 32, whatever memory
    /// there is; else `NoMemory` is possible.
    /// Cost: grows with the names, at most 32, and with their letters; takes memory for the text if
    /// that has more than 22 bytes.
    pub fn new(alloc: Global, names: &[Name]) -> Result<Path, PathFault>
        ensures value { IfOk result (λ path. path ≡ names.now) }
        ensures full { IsErrOf result PathFault.BadPath ↔ (32 < length names.now) }
        ensures fault { IfErr result
            (λ fault. (fault ≡ PathFault.BadPath) ⊎ (fault ≡ PathFault.NoMemory)) }
    {
        if names.len() > Path::MOST_NAMES {
            return Err(PathFault::BadPath);
        }
        let text = text_of_names(alloc, names)?;
        Ok(Path { text, alloc })
    }

    /// Reads the path that a word spells: `/`, or names with a slash before each.
    ///
    /// It checks the word from the left. `BadPath` if the word does not begin with a slash, if a
    /// piece between slashes is empty, or at the 33rd piece, whatever that is. `BadName` if a piece
    /// is no name. `NoMemory` is possible in place of any other answer.
    /// Cost: grows with the bytes of the word; takes memory for them if they are more than 22.
    pub fn read(alloc: Global, word: &[u8]) -> Result<Path, PathFault>
        ensures found { IfOk result (SpellsPath word.now) }
        ensures only { (names : List (List ℕ)) → SpellsPath word.now names
            → (result ≡ Ok names) ⊎ (result ≡ Err PathFault.NoMemory) }
        ensures fault { IfErr result
            (λ fault. (fault ≡ PathFault.NoMemory) ⊎ (path_fault word.now ≡ Some fault)) }
    {
        match word {
            [b'/'] => Ok(Path::root(alloc)),
            [b'/', text @ ..] => {
                check_pieces(text)?;
                let text = Text::new(alloc, word)?;
                Ok(Path { text, alloc })
            }
            _ => Err(PathFault::BadPath),
        }
    }

    /// Returns the path of the root. It takes no memory.
    /// Cost: constant time.
    pub fn root(alloc: Global) -> Path
        ensures { result ≡ [] }
    {
        let text = Text::empty();
        Path { text, alloc }
    }

    /// Returns the path of that name in the directory at this path. `BadPath` if this path has 32
    /// names.
    /// Cost: grows with the bytes of the text, which it copies; takes memory for these if they are
    /// more than 22.
    pub fn join(&self, name: Name) -> Result<Path, PathFault>
        ensures found { IfOk result (λ path. path ≡ self.now ++ name ∷ []) }
        ensures full { IsErrOf result PathFault.BadPath ↔ (32 ≤ length self.now) }
        ensures fault { IfErr result
            (λ fault. (fault ≡ PathFault.BadPath) ⊎ (fault ≡ PathFault.NoMemory)) }
    {
        let before = self.text.as_slice();
        if names_in(before) >= Path::MOST_NAMES {
            return Err(PathFault::BadPath);
        }
        let text = text_with(self.alloc, before, name.bytes())?;
        Ok(Path {
            text,
            alloc: self.alloc,
        })
    }

    /// Returns the names, from the root on.
    /// Cost: constant time; each name of the iterator then grows with its bytes.
    pub fn names(&self) -> Names<'_>
        ensures names { result ≡ self.now }
        ensures short { length self.now ≤ 32 }
        ensures named { All IsName self.now }
    {
        Names {
            text: self.text.as_slice(),
        }
    }

    /// Returns the names, each with a slash before it: no bytes for the root.
    /// Cost: constant time.
    pub fn text(&self) -> &[u8]
        ensures { result.now ≡ path_text self.now }
    {
        self.text.as_slice()
    }

    /// Returns the last name; the root has none.
    /// Cost: grows with the bytes of that name.
    pub fn last(&self) -> Option<Name>
        ensures { result ≡ slice_get self.now (length self.now - 1) }
    {
        let text = self.text.as_slice();
        if text.is_empty() {
            return None;
        }
        let (_, name) = text.split_at(name_start(text));
        Some(Name::of(name))
    }

    /// Returns the names before the last.
    /// Cost: grows with the bytes of the last name.
    pub fn parents(&self) -> Names<'_>
        ensures { result ≡ take (length self.now - 1) self.now }
    {
        let text = self.text.as_slice();
        let (text, _) = text.split_at(name_start(text).saturating_sub(1));
        Names { text }
    }
}

// The names of which each has a slash before it.
fn text_of_names(alloc: Global, names: &[Name]) -> Result<Text, AllocError>
    requires { length names.now ≤ 32 }
    ensures text { IfOk result (λ text. bytes_of text ≡ path_text names.now) }
    ensures named { All IsName names.now }
{
    let mut text = Text::with_room(alloc, text_length(names))?;
    for name in names {
        text.push_name(name.bytes())?;
    }
    Ok(text)
}

// How many bytes names have, with a slash before each.
fn text_length(names: &[Name]) -> usize
    requires { length names.now ≤ 32 }
    ensures length { result ≡ length (path_text names.now) }
    ensures named { All IsName names.now }
{
    let mut length = 0;
    for name in names {
        length += 1 + name.bytes().len();
    }
    length
}

// A text, and a name with a slash before it.
fn text_with(alloc: Global, before: &[u8], name: &[u8]) -> Result<Text, AllocError>
    ensures { IfOk result (λ text. bytes_of text ≡ before.now ++ 47 ∷ name.now) }
{
    let length = before.len().saturating_add(1).saturating_add(name.len());
    let mut text = Text::with_room(alloc, length)?;
    text.push(before)?;
    text.push_name(name)?;
    Ok(text)
}

// Checks the pieces between the slashes of a text.
fn check_pieces(text: &[u8]) -> Result<(), PathFault>
    ensures are { OnOk result (IsPath (pieces_of text.now)) }
    ensures fault { IfErr result (λ fault. slice_get (piece_faults (pieces_of text.now)) 0 ≡ Some fault) }
{
    let mut before = 0;
    for piece in text.split(|byte| *byte == b'/') {
        check_piece(before, piece)?;
        before += 1;
    }
    Ok(())
}

// Checks a piece, with so many before it.
fn check_piece(before: usize, piece: &[u8]) -> Result<(), PathFault>
    ensures is { OnOk result (IsName piece.now) }
    ensures few { OnOk result (before < 32) }
    ensures fault { IfErr result (λ fault. piece_fault before piece.now ≡ Some fault) }
{
    if piece.is_empty() || before >= Path::MOST_NAMES {
        return Err(PathFault::BadPath);
    }
    if Name::is(piece) {
        Ok(())
    } else {
        Err(PathFault::BadName)
    }
}

impl Clone for Path {
    ghost is_clone = { λ path clone. clone ≡ path };

    fn clone(&self) -> Result<Path, AllocError> {
        let text = Text::new(self.alloc, self.text())?;
        Ok(Path {
            text,
            alloc: self.alloc,
        })
    }
}

impl fmt::Display for Path {
    ghost output = { λ path. Some (path_word path) };

    #[tactic(auto, using(crate::proofs::Basics::nat_tests, crate::proofs::Texts::word_of_root, crate::proofs::Texts::word_of_names))]
    fn fmt<W: fmt::Write>(&self, f: &mut fmt::Formatter<W>) -> fmt::Result {
        let text = self.text();
        if text.is_empty() {
            return f.write_str("/");
        }
        match str::from_utf8(text) {
            Ok(text) => f.write_str(text),
            Err(_) => Err(fmt::Error),
        }
    }
}

impl PartialEq for Path {
    ghost eq = { pointwise (pointwise nat_eq) };

    ghost laws = { on_per (λ path. path) (lists_per (partial_equiv_from_equiv nat_list_eq_equiv)) };

    fn eq(&self, other: &Self) -> bool {
        self.names() == other.names()
    }
}

impl Eq for Path {
    ghost laws = { on_equiv (λ path. path) (lists_equiv nat_list_eq_equiv) };
}
