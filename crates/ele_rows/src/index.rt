//! Serial numbers by group, and within a group by rank.
//! A contract sees an index as a test: whether it has a serial number at a group and a rank.
ghost use Rattle.std.specs.Prelude.{◌≡◌, ◌==◌, ℕ, ◌≤◌, ◌<◌, ◌^◌, cond, true, false, OnOk, OnErr, IfSome, IfNone};
ghost use Rattle.std.specs.List.{list_any, AllByRecursion};
ghost use Rattle.ele_rows.specs.Index.{has, is_entry, IsLastOf};

use std::alloc::{AllocError, Global};
use std::collections::BTreeSet;
use std::collections::btree_set::Range;

/// Serial numbers of rows that another list holds, each under the group and the rank of its row.
/// Each call takes time that grows with their logarithm.
#[derive(Drop)]
pub struct Index<G: Ord> {
    entries: BTreeSet<(G, u64, u64)>,
}

impl<G: Ord + Copy> Index<G> {
    /// Makes an empty index. It takes no memory.
    pub fn new(alloc: Global) -> Index<G>
        ensures { (q : G) (r : ℕ) (s : ℕ) → has G.cmp result q r s ≡ false }
    {
        Index {
            entries: BTreeSet::new(alloc),
        }
    }

    /// Adds a serial number under the group and the rank. `AllocError` if memory is refused; the
    /// index is then as it was.
    pub fn insert(&mut self, group: G, rank: u64, serial: u64) -> Result<(), AllocError>
        ensures ok { OnOk result ((q : G) (r : ℕ) (s : ℕ) → has G.cmp self.new q r s
            ≡ cond (is_entry G.cmp group rank serial q r s) true (has G.cmp self.old q r s)) }
        ensures err { OnErr result ((q : G) (r : ℕ) (s : ℕ) → has G.cmp self.new q r s
            ≡ has G.cmp self.old q r s) }
    {
        let _new = self.entries.insert((group, rank, serial))?;
        Ok(())
    }

    /// Removes a serial number from the group and the rank, if it is there.
    pub fn remove(&mut self, group: G, rank: u64, serial: u64)
        ensures { (q : G) (r : ℕ) (s : ℕ) → has G.cmp self.new q r s
            ≡ cond (is_entry G.cmp group rank serial q r s) false (has G.cmp self.old q r s) }
    {
        let _was = self.entries.remove(&(group, rank, serial));
    }

    /// Returns the group's last entry up to the rank: its rank and its serial number.
    pub fn last(&self, group: G, rank: u64) -> Option<(u64, u64)>
        ensures some { IfSome result (λ e. IsLastOf (has G.cmp self.now group) rank e.0 e.1) }
        ensures none { IfNone result ((r : ℕ) (s : ℕ) → r ≤ rank → s < 2 ^ 64
            → has G.cmp self.now group r s ≡ false) }
    {
        let (_, rank, serial) = self
            .entries
            .range((group, 0, 0)..=(group, rank, u64::MAX))
            .next_back()?;
        Some((*rank, *serial))
    }

    /// Returns the group's entries, by rank and then by serial number.
    #[tactic(auto, using(crate::proofs::Steps::of_steps))]
    pub fn of(&self, group: G) -> Range<'_, (G, u64, u64)>
        ensures each { AllByRecursion (λ e. has G.cmp self.now group e.1 e.2 ≡ true) result }
        ensures all { (r s : ℕ) → r < 2 ^ 64 → s < 2 ^ 64 → has G.cmp self.now group r s ≡ true
            → list_any (λ e. e.2 == s) result ≡ true }
    {
        self.entries
            .range((group, 0, 0)..=(group, u64::MAX, u64::MAX))
    }
}
