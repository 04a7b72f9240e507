//! Names as lists and events keep them. A contract sees a name as its bytes.
ghost use Rattle.std.specs.Prelude.{◌≡◌, IfOk, nat_eq};
ghost use Rattle.std.specs.Cmp.{on_per, on_equiv, partial_equiv_from_equiv};
ghost use Rattle.std.specs.Cmp.Lexicographic.{pointwise, nat_list_eq_equiv};
ghost use Rattle.ele_moment.specs.Name.{IsName};
ghost use Rattle.ele_path.specs.KeptName.{letters_of};

use crate::text::Short;
use ele_moment::{Name, NoMemory};
use std::alloc::Global;
use std::boxed::Box;
use std::marker::Model;

/// A name that takes 24 bytes where it stands, and memory of its own if it has more than 22 bytes.
#[derive(Drop)]
pub struct KeptName {
    letters: Letters,
}

// The bytes of a name: in place if they are at most 22.
pub(crate) enum Letters {
    Short(Short),
    Long(Box<Name>),
}

// By hand, so that a drop of a name is one call where names are dropped, and no choice of two.
impl Drop for Letters {
    fn drop(self) {
        match self {
            Letters::Short(_short) => {}
            Letters::Long(_long) => {}
        }
    }
}

impl Model for KeptName {
    ghost use Rattle.std.specs.Prelude.{List, ℕ};

    ghost Value = { List ℕ };

    ghost use Rattle.ele_moment.specs.Name.{IsName};
    ghost use Rattle.ele_path.specs.KeptName.{letters_of};

    ghost view = { λ kept. letters_of kept.letters };

    ghost invariant = { λ kept. IsName (letters_of kept.letters) };
}

impl KeptName {
    /// Keeps the name.
    ///
    /// `NoMemory` if memory for a name of more than 22 bytes is refused.
    /// Cost: constant time; takes memory for such a name.
    pub fn new(alloc: Global, name: Name) -> Result<KeptName, NoMemory>
        ensures { IfOk result (λ kept. kept ≡ name) }
    {
        let mut short = Short::new();
        let letters = match short.push(name.bytes()) {
            Ok(()) => Letters::Short(short),
            Err(_) => Letters::Long(Box::new(alloc, name)?),
        };
        Ok(KeptName { letters })
    }

    /// Returns the name.
    /// Cost: constant time; it copies the bytes.
    pub fn get(&self) -> Name
        ensures { result ≡ self.now }
    {
        match &self.letters {
            Letters::Short(short) => Name::of(short.as_slice()),
            Letters::Long(name) => **name,
        }
    }

    /// Returns the bytes of the name.
    /// Cost: constant time.
    pub fn bytes(&self) -> &[u8]
        ensures value { result.now ≡ self.now }
        ensures name { IsName self.now }
    {
        match &self.letters {
            Letters::Short(short) => short.as_slice(),
            Letters::Long(name) => name.bytes(),
        }
    }

    /// Returns a copy.
    ///
    /// `NoMemory` if memory for a name of more than 22 bytes is refused.
    /// Cost: that of `new`.
    pub fn copy(&self, alloc: Global) -> Result<KeptName, NoMemory>
        ensures { IfOk result (λ kept. kept ≡ self.now) }
    {
        KeptName::new(alloc, self.get())
    }
}

impl PartialEq for KeptName {
    ghost eq = { pointwise nat_eq };

    ghost laws = { on_per (λ kept. kept) (partial_equiv_from_equiv nat_list_eq_equiv) };

    fn eq(&self, other: &Self) -> bool {
        self.bytes() == other.bytes()
    }
}

impl Eq for KeptName {
    ghost laws = { on_equiv (λ kept. kept) nat_list_eq_equiv };
}
