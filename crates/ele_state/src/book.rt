//! The updates of the book of usage.
ghost use Rattle.std.specs.Prelude.{◌≡◌, ◌<◌, ◌^◌};
ghost use Rattle.ele_policy.specs.declared.policy.Kind.{Kind};
ghost use Rattle.ele_usage.specs.Book.{sums_of};
ghost use Rattle.ele_usage.specs.Sums.{Fits};
ghost use Rattle.ele_state.specs.Tracked.{blocks_of, only_blocks, one_version, IsOwed, IsOwedBy, IsBooked};

use ele_files::Files;
use ele_model::FileId;
use ele_policy::Kind;
use ele_usage::{Usage, UsageBook};

// The usage of so many blocks.
fn only_blocks(blocks: u64) -> Usage
    ensures { result ≡ only_blocks blocks }
{
    Usage {
        blocks,
        ..Usage::default()
    }
}

// How many different blocks there are.
pub fn blocks(files: &Files) -> u64
    ensures value { result ≡ blocks_of files.now }
    ensures bound { result < 2 ^ 64 }
{
    files.blocks()
}

// Brings a proof the fact that there are fewer than 2^64 blocks.
pub fn blocks_fit(files: &Files)
    ensures { blocks_of files.now < 2 ^ 64 }
{
    let _fits = blocks(files);
}

// Updates the book after a change of a file with a policy of that kind. `before` counts the blocks
// of all files before the change. One event changes the blocks of one file only, so the difference
// is that file's.
#[tactic(auto, using(crate::proofs::Booked::shift_fits, crate::proofs::Booked::shift_there))]
pub fn charge_blocks(book: &mut UsageBook, files: &Files, kind: Kind, before: u64)
    requires owed { IsOwedBy files.now book.old kind before }
    requires fits { (k : Kind) → Fits (record (sums_of book.old k) { blocks = 0 }) }
    ensures { IsBooked files.now book.new }
{
    let after = blocks(files);
    if after >= before {
        book.add(kind, only_blocks(after - before));
    } else {
        book.sub(kind, only_blocks(before - after));
    }
}

// Does the same for a file by its number; if there is none, nothing changes.
#[tactic(auto, using(crate::proofs::Words::nat_tests, crate::proofs::Booked::owed_by))]
pub fn follow_blocks(book: &mut UsageBook, files: &Files, file: FileId, before: u64)
    requires owed { IsOwed files.now book.old file before }
    requires fits { (k : Kind) → Fits (record (sums_of book.old k) { blocks = 0 }) }
    ensures { IsBooked files.now book.new }
{
    if let Some(policy) = files.policy_of(file) {
        charge_blocks(book, files, policy.kind(), before);
    }
}

// The usage of one version of so many bytes, without its blocks.
pub fn one_version(bytes: u64) -> Usage
    ensures { result ≡ one_version bytes }
{
    Usage {
        versions: 1,
        bytes,
        ..Usage::default()
    }
}
