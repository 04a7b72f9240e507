//! What the arguments of a call ask for. A contract sees them as the bytes and numbers that C gives.
ghost use Rattle.std.specs.Prelude.{◌≡◌, Ok, OnOk};
ghost use Rattle.ele_c_values.specs.Asks.{AsksSource, CopiesBytes, Finds, IsEnd, IsEndFault, IsMarkFault, IsMemberFault, IsMoment, IsNameFault, IsPathFault, IsPathsFault, IsPolicyFault, IsTagged, IsTaggedFault, IsThenFault, IsTimedFault, TakesPath, end_of, moment_of, tag_of, time_of};
ghost use Rattle.ele_moment.specs.Name.{IsName};
ghost use Rattle.ele_path.specs.Path.{SpellsPath};
ghost use Rattle.ele_script.specs.PolicyWord.{ReadsPolicy};

use crate::codes::NEVER;
use ele_model::{
    Boxed, ByteList, Handle, KeptName, Moment, Name, Path, PathAt, Policy, Source, Tag, TaggedPath,
    VersionNo,
};
use ele_script::{LineFault, begins_path, read_policy};
use std::alloc::Global;

/// A moment.
pub fn moment(seconds: u64) -> Result<Moment, LineFault>
    ensures { result ≡ moment_of seconds }
{
    Moment::new(seconds).ok_or(LineFault::BadMoment)
}

/// The end of a mark, which may be none.
fn end(seconds: u64) -> Result<Option<Moment>, LineFault>
    ensures { result ≡ end_of seconds }
{
    if seconds == NEVER {
        return Ok(None);
    }
    moment(seconds).map(Some)
}

/// A tag, by its kind.
fn tag(kind: u32, number: u64) -> Result<Tag, LineFault>
    ensures { result ≡ tag_of kind number }
{
    match kind {
        0 => Ok(Tag::Now),
        1 => moment(number).map(Tag::At),
        2 => Ok(Tag::Number(VersionNo(number))),
        _ => Err(LineFault::Syntax),
    }
}

/// A moment, or now, by the kind of a tag.
fn time(kind: u32, number: u64) -> Result<Option<Moment>, LineFault>
    ensures { result ≡ time_of kind number }
{
    match kind {
        0 => Ok(None),
        1 => moment(number).map(Some),
        _ => Err(LineFault::Syntax),
    }
}

/// A path. It takes no memory unless it begins with a slash.
#[tactic(auto, using(crate::proofs::Paths::no_slash))]
pub(crate) fn path(alloc: Global, bytes: &[u8]) -> Result<Path, LineFault>
    ensures found { Finds (SpellsPath bytes.now) (IsPathFault bytes.now) (TakesPath bytes.now)
        result }
    ensures takes { OnOk result (TakesPath bytes.now) }
{
    if !begins_path(bytes) {
        return Err(LineFault::BadPath);
    }
    Ok(Path::read(alloc, bytes)?)
}

/// Two paths.
pub(crate) fn paths(alloc: Global, from: &[u8], to: &[u8]) -> Result<(Path, Path), LineFault>
    ensures { Finds (λ both. SpellsPath from.now both.0 × SpellsPath to.now both.1)
        (IsPathsFault from.now to.now) (TakesPath from.now) result }
{
    let from = path(alloc, from)?;
    let to = path(alloc, to)?;
    Ok((from, to))
}

/// A path with a tag.
pub fn tagged(alloc: Global, bytes: &[u8], kind: u32, number: u64) -> Result<TaggedPath, LineFault>
    ensures { Finds (IsTagged bytes.now kind number) (IsTaggedFault bytes.now kind number)
        (TakesPath bytes.now) result }
{
    let path = path(alloc, bytes)?;
    let tag = tag(kind, number)?;
    Ok(TaggedPath::new(path, tag))
}

/// A path at a moment.
pub(crate) fn path_at(
    alloc: Global,
    bytes: &[u8],
    kind: u32,
    number: u64,
) -> Result<PathAt, LineFault>
    ensures { Finds (λ at. SpellsPath bytes.now at.path × (time_of kind number ≡ Ok at.moment))
        (IsTimedFault bytes.now kind number) (TakesPath bytes.now) result }
{
    let path = path(alloc, bytes)?;
    let moment = time(kind, number)?;
    Ok(PathAt { path, moment })
}

/// The name of a group. It takes memory only if it is one.
pub(crate) fn name(alloc: Global, bytes: &[u8]) -> Result<KeptName, LineFault>
    ensures { Finds (λ name. IsName bytes.now × (name ≡ bytes.now)) (IsNameFault bytes.now)
        (IsName bytes.now) result }
{
    let name = Name::new(bytes)?;
    Ok(KeptName::new(alloc, name)?)
}

/// The name of a group, and a path.
pub(crate) fn member(
    alloc: Global,
    group: &[u8],
    bytes: &[u8],
) -> Result<(KeptName, Path), LineFault>
    ensures { Finds (λ both. IsName group.now × (both.0 ≡ group.now) × SpellsPath bytes.now both.1)
        (IsMemberFault group.now bytes.now) (IsName group.now × TakesPath bytes.now) result }
{
    let name = Name::new(group)?;
    let path = path(alloc, bytes)?;
    Ok((KeptName::new(alloc, name)?, path))
}

/// The name of a group, and the moment of a mark.
pub(crate) fn name_at(
    alloc: Global,
    group: &[u8],
    seconds: u64,
) -> Result<(KeptName, Moment), LineFault>
    ensures { Finds (λ both. IsName group.now × (both.0 ≡ group.now)
        × (moment_of seconds ≡ Ok both.1))
        (IsMarkFault group.now seconds) (IsName group.now × IsMoment seconds) result }
{
    let name = Name::new(group)?;
    let at = moment(seconds)?;
    Ok((KeptName::new(alloc, name)?, at))
}

/// The name of a group, the moment of a mark, and its end.
pub(crate) fn mark(
    alloc: Global,
    group: &[u8],
    seconds: u64,
    until: u64,
) -> Result<(KeptName, Moment, Option<Moment>), LineFault>
    ensures { Finds (λ all. IsName group.now × (all.0 ≡ group.now)
        × (moment_of seconds ≡ Ok all.1) × (end_of until ≡ Ok all.2))
        (IsEndFault group.now seconds until)
        (IsName group.now × IsMoment seconds × IsEnd until) result }
{
    let name = Name::new(group)?;
    let at = moment(seconds)?;
    let end = end(until)?;
    Ok((KeptName::new(alloc, name)?, at, end))
}

/// A path, and the policy that a word is.
pub(crate) fn policy(
    alloc: Global,
    bytes: &[u8],
    word: &[u8],
) -> Result<(Path, Boxed<Policy>), LineFault>
    ensures { Finds (λ both. SpellsPath bytes.now both.0 × ReadsPolicy word.now (Ok both.1))
        (IsPolicyFault bytes.now word.now) (TakesPath bytes.now) result }
{
    let path = path(alloc, bytes)?;
    let policy = read_policy(word)?;
    Ok((path, Boxed::new(alloc, policy)?))
}

/// A copy of bytes.
pub(crate) fn content(alloc: Global, bytes: &[u8]) -> Result<ByteList, LineFault>
    ensures { CopiesBytes bytes.now result }
{
    if bytes.is_empty() {
        return Ok(ByteList::new(alloc));
    }
    Ok(ByteList::from_vec(Vec::from_slice(alloc, bytes)?))
}

/// A path, and a copy of the bytes to save there.
pub(crate) fn saved(
    alloc: Global,
    bytes: &[u8],
    copied: &[u8],
) -> Result<(Path, ByteList), LineFault>
    ensures { Finds (λ both. SpellsPath bytes.now both.0 × (both.1 ≡ copied.now))
        (IsPathFault bytes.now) (TakesPath bytes.now) result }
{
    let path = path(alloc, bytes)?;
    let content = content(alloc, copied)?;
    Ok((path, content))
}

/// A path, and a moment.
pub(crate) fn path_then(
    alloc: Global,
    bytes: &[u8],
    seconds: u64,
) -> Result<(Path, Moment), LineFault>
    ensures { Finds (λ both. SpellsPath bytes.now both.0 × (moment_of seconds ≡ Ok both.1))
        (IsThenFault bytes.now seconds) (TakesPath bytes.now) result }
{
    let path = path(alloc, bytes)?;
    let moment = moment(seconds)?;
    Ok((path, moment))
}

/// What a read copies: what a handle reads, or a version.
pub fn source(
    alloc: Global,
    by_handle: bool,
    bytes: &[u8],
    kind: u32,
    number: u64,
) -> Result<Source, LineFault>
    ensures { AsksSource by_handle bytes.now kind number result }
{
    if by_handle {
        return Ok(Source::Of(Handle(number)));
    }
    match tagged(alloc, bytes, kind, number) {
        Ok(tagged) => Ok(Source::Tagged(tagged)),
        Err(fault) => Err(fault),
    }
}
