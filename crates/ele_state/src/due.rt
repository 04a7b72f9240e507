//! The versions that are due, and what the files use.
ghost use Rattle.std.specs.Prelude.{◌≡◌, IfOk};
ghost use Rattle.ele_due.specs.Queue.{is_ripe_by};
ghost use Rattle.ele_model.specs.Change.{Time, after_change};
ghost use Rattle.ele_model.specs.Due.{is_due};
ghost use Rattle.ele_model.specs.Scan.{scan, first_due};
ghost use Rattle.ele_model.specs.Usage.{usages};

use crate::State;
use crate::moments::ripe_moment;
use ele_model::{FileId, Key, KeyList, ListOf, Moment, NoMemory, VersionNo};
use ele_usage::Usage;

// Whether the key's version is due at the moment.
fn is_ripe(key: &Key, now: Moment) -> bool
    ensures { result ≡ is_ripe_by now key.now }
{
    key.ripe <= now
}

impl State {
    /// Returns whether the version is held and due now.
    #[tactic(auto, using(crate::proofs::Words::nat_tests, crate::proofs::Questions::due_by_key))]
    pub fn is_due(&self, file: FileId, number: VersionNo) -> bool
        ensures { result ≡ is_due self.now.world file number }
    {
        let rows = &self.rows;
        match ripe_moment(rows, file, number) {
            Some(ripe) => {
                let key = Key { ripe, file, number };
                is_ripe(&key, rows.moment) && rows.queue.holds(&key)
            }
            None => false,
        }
    }

    /// Returns the keys of the versions that are due now, in order of removal.
    ///
    /// `NoMemory` if memory is refused.
    pub fn due(&self) -> Result<KeyList, NoMemory>
        ensures { IfOk result (λ keys. keys ≡ scan self.now.world) }
    {
        // Usually no version is due.
        if self.due_first().is_none() {
            return Ok(ListOf::new(self.rows.alloc));
        }
        Ok(ListOf::from_vec(self.rows.queue.until(self.rows.moment)?))
    }

    /// Returns the key of the version that is removed next, if one is due now.
    pub fn due_first(&self) -> Option<Key>
        ensures { result ≡ first_due self.now.world }
    {
        let Some(key) = self.rows.queue.first() else {
            return None;
        };
        if is_ripe(&key, self.rows.moment) {
            Some(key)
        } else {
            None
        }
    }

    // Returns the key that `due_first` returns once the clock is moved to the moment.
    pub(crate) fn first_by(&self, moment: Moment) -> Option<Key>
        ensures { result ≡ first_due (after_change self.now.world (Time moment)) }
    {
        moment.lemma_in_range();
        let Some(key) = self.rows.queue.first() else {
            return None;
        };
        if is_ripe(&key, moment) {
            Some(key)
        } else {
            None
        }
    }

    /// Returns what the files of each kind of policy use, in the order of `Kind`.
    pub fn usage(&self) -> [Usage; 4]
        ensures { result ≡ usages self.now.world }
    {
        self.rows.book.all()
    }
}
