//! The counts of fresh rows.
//! A contract sees them beside the rows and the counts before.
ghost use Rattle.std.specs.Prelude.{◌≡◌, ◌≤◌, ◌<◌, ◌^◌, filter, length, min};
ghost use Rattle.std.specs.List.{AllByRecursion, sum_by};
ghost use Rattle.ele_model.specs.WellFormed.{IsWellFormed};
ghost use Rattle.ele_renewal.specs.Renewed.{has_lost_last, renewed_counts};
ghost use Rattle.ele_renewal.specs.Writers.{IsInOrder};

use crate::numbers::has_lost_last;
use ele_model::{Counts, Flat, GroupRow};

// How many files have a last version that isn't held.
fn lost_versions(flat: &Flat) -> u64
    requires order { IsInOrder flat.now }
    requires made { AllByRecursion (λ row. 1 ≤ row.next) flat.now.files }
    ensures { result ≡ length (filter (has_lost_last flat.entry.now) flat.entry.now.files) }
{
    let versions = flat.versions.as_slice();
    let files = flat.files.as_slice();
    let mut lost = 0;
    for file in files {
        if has_lost_last(versions, file) {
            lost += 1;
        }
    }
    lost
}

// How many files the groups have, counted in each, up to a number.
fn members_held(groups: &[GroupRow], most: u64) -> u64
    requires { most < 2 ^ 32 }
    ensures { result ≡ min (sum_by (λ row. length row.members) groups.now) most }
{
    let mut held = 0;
    for group in groups {
        let members = group.members.as_slice();
        held = most.min(held + members.len() as u64);
    }
    held
}

// How many marks the groups have, up to a number.
fn marks_held(groups: &[GroupRow], most: u64) -> u64
    requires { most < 2 ^ 32 }
    ensures { result ≡ min (sum_by (λ row. length row.marks) groups.now) most }
{
    let mut held = 0;
    for group in groups {
        let marks = group.marks.as_slice();
        held = most.min(held + marks.len() as u64);
    }
    held
}

/// Returns the counts of the fresh rows.
pub(crate) fn renewed_counts(flat: &Flat) -> Counts
    requires order { IsInOrder flat.now }
    requires formed { IsWellFormed flat.now }
    ensures { result ≡ renewed_counts flat.entry.now }
{
    flat.limits.lemma_within();
    let versions = flat.versions.as_slice().len() as u64 + lost_versions(flat);
    Counts {
        files: flat.files.as_slice().len() as u64,
        directories: (flat.directories.as_slice().len() as u64).saturating_sub(1),
        names: flat.names.as_slice().len() as u64,
        versions: versions.min(flat.made.versions),
        handles: 0,
        groups: flat.groups.as_slice().len() as u64,
        members: members_held(flat.groups.as_slice(), flat.made.members),
        marks: marks_held(flat.groups.as_slice(), flat.made.marks),
    }
}
