//! The counts of what was made, beside the limits and the rows.
//! A contract sees the part of a world that says so.
ghost use Rattle.std.specs.Prelude.{◌↔◌, IsTrue};
ghost use Rattle.ele_well_formed.specs.Fault.{CountsHold};

use ele_model::{Flat, Which};

/// Whether no count is above its limit, and the counts include all rows and drafts.
pub fn counts_hold(flat: &Flat) -> bool
    ensures { IsTrue result ↔ CountsHold flat.entry.now }
{
    let made = &flat.made;
    let limits = &flat.limits;
    let files = flat.files.as_slice().len() as u64;
    let names = flat.names.as_slice().len() as u64;
    let versions = flat.versions.as_slice().len() as u64;
    let drafts = flat.drafts.as_slice().len() as u64;
    let most_versions = limits.limit(Which::Versions);
    made.files <= limits.limit(Which::Files)
        && made.names <= limits.limit(Which::Names)
        && made.versions <= most_versions
        && drafts <= most_versions - made.versions
        && made.handles <= limits.limit(Which::Handles)
        && made.groups <= limits.limit(Which::Groups)
        && made.members <= limits.limit(Which::Members)
        && made.marks <= limits.limit(Which::Marks)
        && files <= made.files
        && names <= made.names
        && versions <= made.versions
}
