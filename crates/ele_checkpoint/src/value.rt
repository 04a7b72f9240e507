//! Single values as bytes: texts, moments, names, policies, and what rows refer to.
//! A contract sees the value, and its bytes.
ghost use Rattle.std.specs.Prelude.{◌≡◌, ◌++◌, OnOk};
ghost use Rattle.ele_checkpoint.specs.Lists.{list_text};
ghost use Rattle.ele_checkpoint.specs.Number.{number_text};
ghost use Rattle.ele_checkpoint.specs.Reading.{Gives};
ghost use Rattle.ele_checkpoint.specs.Values.{maybe_text, policy_text, reads_text, rung_text, string_text, target_text, truth_text};
ghost use Rattle.ele_checkpoint.specs.PartsRead.{ladder_at, maybe_at, moment_at, name_at, policy_at, reads_at, rung_at, safe_at, string_at, target_at, truth_at};

use crate::coded::{Coded, list_of, put_list};
use crate::fault::{Flaw, Stop, wrong};
use crate::number::{number_of, put_number};
use ele_model::{Reads, Target};
use ele_moment::{DirId, FileId, Moment, Name, NoMemory, VersionNo};
use ele_policy::{Floor, Interval, Ladder, Policy};
use std::alloc::Global;

/// Adds bytes, with their number first.
pub fn put_string(out: &mut Vec<u8>, bytes: &[u8]) -> Result<(), NoMemory>
    ensures { OnOk result (out.new.items ≡ out.old.items ++ string_text bytes.now) }
{
    put_number(out, bytes.len() as u64)?;
    out.extend_from_slice(bytes)?;
    Ok(())
}

/// Reads bytes that have their number first.
#[tactic(auto, unfolding(crate::specs::PartsRead::string_at))]
pub fn string_of(bytes: &[u8]) -> Result<(&[u8], &[u8]), Stop>
    ensures { Gives (λ x. (x.0.now, x.1.now)) result (string_at bytes.now) }
{
    let (count, rest) = number_of(bytes)?;
    if (rest.len() as u64) < count {
        return Err(wrong(rest, Flaw::Short));
    }
    Ok(rest.split_at(count as usize))
}

/// Adds the byte of a truth value.
pub(crate) fn put_truth(out: &mut Vec<u8>, value: bool) -> Result<(), NoMemory>
    ensures { OnOk result (out.new.items ≡ out.old.items ++ truth_text value) }
{
    out.push(if value { 1 } else { 0 })?;
    Ok(())
}

/// Reads a truth value.
#[tactic(auto, unfolding(crate::specs::PartsRead::truth_at))]
pub(crate) fn truth_of(bytes: &[u8]) -> Result<(bool, &[u8]), Stop>
    ensures { Gives (λ x. (x.0, x.1.now)) result (truth_at bytes.now) }
{
    match bytes {
        [] => Err(wrong(bytes, Flaw::Short)),
        [0, rest @ ..] => Ok((false, rest)),
        [1, rest @ ..] => Ok((true, rest)),
        [_, ..] => Err(wrong(bytes, Flaw::Choice)),
    }
}

/// Adds the seconds of a moment.
pub fn put_moment(out: &mut Vec<u8>, moment: Moment) -> Result<(), NoMemory>
    ensures { OnOk result (out.new.items ≡ out.old.items ++ number_text moment) }
{
    put_number(out, moment.seconds())
}

/// Reads a moment.
#[tactic(auto, unfolding(crate::specs::PartsRead::moment_at))]
pub fn moment_of(bytes: &[u8]) -> Result<(Moment, &[u8]), Stop>
    ensures { Gives (λ x. (x.0, x.1.now)) result (moment_at bytes.now) }
{
    let (seconds, rest) = number_of(bytes)?;
    match Moment::new(seconds) {
        Some(moment) => Ok((moment, rest)),
        None => Err(wrong(bytes, Flaw::Moment)),
    }
}

/// Adds a moment, or that there is none.
pub fn put_maybe(out: &mut Vec<u8>, moment: Option<Moment>) -> Result<(), NoMemory>
    ensures { OnOk result (out.new.items ≡ out.old.items ++ maybe_text moment) }
{
    match moment {
        None => {
            out.push(0)?;
            Ok(())
        }
        Some(moment) => {
            out.push(1)?;
            put_moment(out, moment)
        }
    }
}

/// Reads a moment, or that there is none.
#[tactic(auto, unfolding(crate::specs::PartsRead::maybe_at))]
pub fn maybe_of(bytes: &[u8]) -> Result<(Option<Moment>, &[u8]), Stop>
    ensures { Gives (λ x. (x.0, x.1.now)) result (maybe_at bytes.now) }
{
    match bytes {
        [] => Err(wrong(bytes, Flaw::Short)),
        [0, rest @ ..] => Ok((None, rest)),
        [1, rest @ ..] => {
            let (moment, rest) = taken!(moment_of(rest));
            Ok((Some(moment), rest))
        }
        [_, ..] => Err(wrong(bytes, Flaw::Choice)),
    }
}

/// Reads a name.
#[tactic(auto, unfolding(crate::specs::PartsRead::name_at))]
pub fn name_of(bytes: &[u8]) -> Result<(Name, &[u8]), Stop>
    ensures { Gives (λ x. (x.0, x.1.now)) result (name_at bytes.now) }
{
    let (text, rest) = string_of(bytes)?;
    match Name::new(text) {
        Ok(name) => Ok((name, rest)),
        Err(_) => Err(wrong(bytes, Flaw::Name)),
    }
}

impl Coded for (u64, u64) {
    ghost spelling = { rung_text };

    ghost reading = { rung_at };

    fn put(&self, out: &mut Vec<u8>) -> Result<(), NoMemory> {
        put_number(out, self.0)?;
        put_number(out, self.1)
    }

    #[tactic(auto, unfolding(crate::specs::PartsRead::rung_at))]
    fn get(_alloc: Global, bytes: &[u8]) -> Result<((u64, u64), &[u8]), Stop> {
        let (age, rest) = number_of(bytes)?;
        let (width, rest) = number_of(rest)?;
        Ok(((age, width), rest))
    }
}

/// Adds a policy.
pub fn put_policy(out: &mut Vec<u8>, value: &Policy) -> Result<(), NoMemory>
    ensures { OnOk result (out.new.items ≡ out.old.items ++ policy_text value.now) }
{
    match value {
        Policy::One => {
            out.push(0)?;
            Ok(())
        }
        Policy::All => {
            out.push(1)?;
            Ok(())
        }
        Policy::Safe(interval, floor) => {
            out.push(2)?;
            put_number(out, interval.seconds())?;
            put_number(out, floor.number())
        }
        Policy::Landmarks(ladder) => {
            out.push(3)?;
            put_list(out, ladder.pairs())
        }
    }
}

/// Reads a policy.
#[tactic(auto, unfolding(crate::specs::PartsRead::policy_at))]
pub fn policy_of(alloc: Global, bytes: &[u8]) -> Result<(Policy, &[u8]), Stop>
    ensures { Gives (λ x. (x.0, x.1.now)) result (policy_at bytes.now) }
{
    match bytes {
        [] => Err(wrong(bytes, Flaw::Short)),
        [0, rest @ ..] => Ok((Policy::One, rest)),
        [1, rest @ ..] => Ok((Policy::All, rest)),
        [2, rest @ ..] => safe_of(rest),
        [3, rest @ ..] => ladder_of(alloc, rest),
        [_, ..] => Err(wrong(bytes, Flaw::Choice)),
    }
}

// Reads the numbers of Keep Safe.
#[tactic(auto, unfolding(crate::specs::PartsRead::safe_at))]
fn safe_of(bytes: &[u8]) -> Result<(Policy, &[u8]), Stop>
    ensures { Gives (λ x. (x.0, x.1.now)) result (safe_at bytes.now) }
{
    let (seconds, rest) = number_of(bytes)?;
    let (versions, rest) = number_of(rest)?;
    match (Interval::new(seconds), Floor::new(versions)) {
        (Ok(interval), Ok(floor)) => Ok((Policy::Safe(interval, floor), rest)),
        _ => Err(wrong(bytes, Flaw::Policy)),
    }
}

// Reads a ladder.
#[tactic(auto, unfolding(crate::specs::PartsRead::ladder_at))]
fn ladder_of(alloc: Global, bytes: &[u8]) -> Result<(Policy, &[u8]), Stop>
    ensures { Gives (λ x. (x.0, x.1.now)) result (ladder_at bytes.now) }
{
    let (pairs, rest) = taken!(list_of::<(u64, u64)>(alloc, bytes));
    match Ladder::new(&pairs) {
        Ok(ladder) => Ok((Policy::Landmarks(ladder), rest)),
        Err(_) => Err(wrong(bytes, Flaw::Policy)),
    }
}

/// Adds what a name means.
pub(crate) fn put_target(out: &mut Vec<u8>, value: Target) -> Result<(), NoMemory>
    ensures { OnOk result (out.new.items ≡ out.old.items ++ target_text value) }
{
    match value {
        Target::File(id) => {
            out.push(0)?;
            put_number(out, id.0)
        }
        Target::Directory(id) => {
            out.push(1)?;
            put_number(out, id.0)
        }
    }
}

/// Reads what a name means.
#[tactic(auto, unfolding(crate::specs::PartsRead::target_at))]
pub(crate) fn target_of(bytes: &[u8]) -> Result<(Target, &[u8]), Stop>
    ensures { Gives (λ x. (x.0, x.1.now)) result (target_at bytes.now) }
{
    match bytes {
        [] => Err(wrong(bytes, Flaw::Short)),
        [0, rest @ ..] => {
            let (id, rest) = number_of(rest)?;
            Ok((Target::File(FileId(id)), rest))
        }
        [1, rest @ ..] => {
            let (id, rest) = number_of(rest)?;
            Ok((Target::Directory(DirId(id)), rest))
        }
        [_, ..] => Err(wrong(bytes, Flaw::Choice)),
    }
}

/// Adds what a handle reads.
pub(crate) fn put_reads(out: &mut Vec<u8>, value: Reads) -> Result<(), NoMemory>
    ensures { OnOk result (out.new.items ≡ out.old.items ++ reads_text value) }
{
    match value {
        Reads::Draft(file) => {
            out.push(0)?;
            put_number(out, file.0)
        }
        Reads::Version(file, version) => {
            out.push(1)?;
            put_number(out, file.0)?;
            put_number(out, version.0)
        }
    }
}

/// Reads what a handle reads.
#[tactic(auto, unfolding(crate::specs::PartsRead::reads_at))]
pub(crate) fn reads_of(bytes: &[u8]) -> Result<(Reads, &[u8]), Stop>
    ensures { Gives (λ x. (x.0, x.1.now)) result (reads_at bytes.now) }
{
    match bytes {
        [] => Err(wrong(bytes, Flaw::Short)),
        [0, rest @ ..] => {
            let (file, rest) = number_of(rest)?;
            Ok((Reads::Draft(FileId(file)), rest))
        }
        [1, rest @ ..] => {
            let (file, rest) = number_of(rest)?;
            let (version, rest) = number_of(rest)?;
            Ok((Reads::Version(FileId(file), VersionNo(version)), rest))
        }
        [_, ..] => Err(wrong(bytes, Flaw::Choice)),
    }
}
