//! The iterator over the names of a path. A contract sees the names that are still to come.
ghost use Rattle.std.specs.Prelude.{◌≡◌, ◌+◌, ◌==◌, length, nat_eq};
ghost use Rattle.std.specs.List.{position, position_or_len};
ghost use Rattle.std.specs.Cmp.{on_per, on_equiv, partial_equiv_from_equiv};
ghost use Rattle.std.specs.Cmp.Lexicographic.{pointwise, lists_per, lists_equiv, nat_list_eq_equiv};
ghost use Rattle.ele_path.specs.NameStart.{IsNameStart};
ghost use Rattle.ele_path.specs.Path.{pieces_of};
ghost use Rattle.std.specs.Iterator.{YieldsFirst, item_count};

use ele_moment::Name;
use std::iter::FusedIterator;
use std::marker::Model;

/// Iterates over the names of a path, from the root on. It takes no memory.
#[derive(Drop)]
pub struct Names<'a> {
    /// The names that are still to come, each with a slash before it.
    pub(crate) text: &'a [u8],
}

impl<'a> Model for Names<'a> {
    ghost use Rattle.std.specs.Prelude.{List, ℕ};

    ghost Value = { List (List ℕ) };

    ghost use Rattle.ele_path.specs.Path.{names_of, IsNamesText};

    ghost view = { λ left. names_of left.text.now };

    ghost invariant = { λ left. IsNamesText left.text.now };
}

impl<'a> Iterator for Names<'a> {
    type Item = Name;

    ghost next_gives = { YieldsFirst (λ names. names) };

    ghost remaining = { item_count (λ names. names) };

    fn next(&mut self) -> Option<Name> {
        let (_slash, text) = self.text.split_first()?;
        let (name, text) = text.split_at(name_length(text));
        self.text = text;
        Some(Name::of(name))
    }
}

impl FusedIterator for Names<'_> {}

// Compares the texts, since names and their text say the same.
impl PartialEq for Names<'_> {
    ghost eq = { pointwise (pointwise nat_eq) };

    ghost laws = { on_per (λ names. names) (lists_per (partial_equiv_from_equiv nat_list_eq_equiv)) };

    fn eq(&self, other: &Self) -> bool {
        self.text == other.text
    }
}

impl Eq for Names<'_> {
    ghost laws = { on_equiv (λ names. names) (lists_equiv nat_list_eq_equiv) };
}

// Returns how many bytes are before the first slash, or in all.
fn name_length(text: &[u8]) -> usize
    ensures { result ≡ position_or_len (λ byte. byte == 47) text.now }
{
    match slash_in(text) {
        Some(place) => place,
        None => text.len(),
    }
}

// The place of the first slash.
fn slash_in(text: &[u8]) -> Option<usize>
    ensures { result ≡ position (λ byte. byte == 47) text.now }
{
    text.iter().position(|byte| *byte == b'/')
}

// Returns where the last name begins, behind the last slash.
pub(crate) fn name_start(text: &[u8]) -> usize
    ensures { IsNameStart text.now result }
{
    let mut start = text.len();
    while start > 0 && text[start - 1] != b'/' {
        start -= 1;
    }
    start
}

// Returns how many names there are, which is how many slashes.
pub(crate) fn names_in(text: &[u8]) -> usize
    ensures { result + 1 ≡ length (pieces_of text.now) }
{
    let mut slashes = 0;
    for byte in text {
        if *byte == b'/' {
            slashes += 1;
        }
    }
    slashes
}
