//! Names to look up. A contract sees whether a name is there.
ghost use Rattle.std.specs.Prelude.{◌≡◌, ℕ, ◌||◌, false, List, OnOk, bytes_eq};
ghost use Rattle.ele_against.specs.Names.{has};

use ele_moment::NoMemory;
use std::alloc::Global;
use std::collections::HashSet;

/// Names, of which each takes about the same time to find.
#[derive(Drop)]
pub(crate) struct Names<'n> {
    names: HashSet<&'n [u8]>,
}

impl<'n> Names<'n> {
    /// Makes an empty set. It takes no memory.
    pub(crate) fn new(alloc: Global) -> Names<'n>
        ensures { (text : List ℕ) → has result text ≡ false }
    {
        Names {
            names: HashSet::new(alloc),
        }
    }

    /// Adds a name. `NoMemory` if memory is refused.
    pub(crate) fn add(&mut self, name: &'n [u8]) -> Result<(), NoMemory>
        ensures { OnOk result ((text : List ℕ) → has self.new text
            ≡ (bytes_eq text name.now || has self.old text)) }
    {
        let _new = self.names.insert(name)?;
        Ok(())
    }

    /// Whether the name is there.
    pub(crate) fn has(&self, name: &[u8]) -> bool
        ensures { result ≡ has self.now name.now }
    {
        self.names.contains(&name)
    }
}
