//! Worlds that an audit can check: they return what is due, restorable and used, perhaps without a
//! look at all rows.
ghost use Rattle.std.specs.Prelude.{◌≡◌, IfOk};

use crate::list::{DeletedNameList, KeyList};
use crate::step::Step;
use ele_moment::NoMemory;
use ele_usage::Usage;

/// A world that events change, and whose answers an audit compares with the scans of its rows.
pub trait Audit: Step {
    ghost use Rattle.ele_model.specs.Restorable.{restorable};
    ghost use Rattle.ele_model.specs.Scan.{scan};
    ghost use Rattle.ele_model.specs.Usage.{usages};

    /// Returns the keys of the versions that are due now, in order of removal.
    ///
    /// `NoMemory` if memory is refused.
    fn due_keys(&self) -> Result<KeyList, NoMemory>
        ensures { IfOk result (λ keys. keys ≡ scan (Self.world self.now)) };

    /// Returns the restorable names, by directory and then by the bytes of the name.
    ///
    /// `NoMemory` if memory is refused.
    fn deleted_names(&self) -> Result<DeletedNameList, NoMemory>
        ensures { IfOk result (λ names. names ≡ restorable (Self.world self.now)) };

    /// Returns what the files of each kind of policy use, in the order of `Kind`.
    fn usage(&self) -> [Usage; 4]
        ensures { result ≡ usages (Self.world self.now) };
}
