//! Readers of the words after a command, by their number and kinds. A contract sees a word as its
//! bytes, and what it spells as itself.
ghost use Rattle.std.specs.Prelude.{◌≡◌, ◌≢◌, ◌∷◌, [], map, length, IfOk, IfErr};
ghost use Rattle.ele_script.specs.Value.{NumberWord, HandleWord, VersionWord, MomentWord, EndWord, NameWord, PathWord, TaggedWord, TimedWord, SourceWord, BytesWord, PolicyWord};
ghost use Rattle.ele_script.specs.Value as value;
ghost use Rattle.ele_script.specs.Reads.{Reads};

use crate::word;
use ele_model::{Boxed, ByteList, Source};
use ele_moment::Moment;
use ele_path::{KeptName, Path, PathAt, TaggedPath};
use ele_policy::Policy;
use ele_printer::LineFault;
use std::alloc::Global;

// The only word; any other number of words is `Syntax`.
fn one<'l>(words: &[&'l [u8]]) -> Result<&'l [u8], LineFault>
    ensures found { IfOk result (λ word. map (λ word. word.now) words.now ≡ word.now ∷ []) }
    ensures miscounted { IfErr result
        (λ fault. (fault ≡ LineFault.Syntax) × (length words.now ≢ 1)) }
{
    let [word] = words else {
        return Err(LineFault::Syntax);
    };
    Ok(*word)
}

fn two<'l>(words: &[&'l [u8]]) -> Result<(&'l [u8], &'l [u8]), LineFault>
    ensures found { IfOk result
        (λ both. map (λ word. word.now) words.now ≡ both.0.now ∷ both.1.now ∷ []) }
    ensures miscounted { IfErr result
        (λ fault. (fault ≡ LineFault.Syntax) × (length words.now ≢ 2)) }
{
    let [first, second] = words else {
        return Err(LineFault::Syntax);
    };
    Ok((*first, *second))
}

fn three<'l>(words: &[&'l [u8]]) -> Result<(&'l [u8], &'l [u8], &'l [u8]), LineFault>
    ensures found { IfOk result
        (λ all. map (λ word. word.now) words.now ≡ all.0.now ∷ all.1.now ∷ all.2.now ∷ []) }
    ensures miscounted { IfErr result
        (λ fault. (fault ≡ LineFault.Syntax) × (length words.now ≢ 3)) }
{
    let [first, second, third] = words else {
        return Err(LineFault::Syntax);
    };
    Ok((*first, *second, *third))
}

pub(crate) fn nothing(words: &[&[u8]]) -> Result<(), LineFault>
    ensures { Reads [] (λ _. []) (map (λ word. word.now) words.now) result }
{
    if !words.is_empty() {
        return Err(LineFault::Syntax);
    }
    Ok(())
}

pub(crate) fn number(words: &[&[u8]]) -> Result<u64, LineFault>
    ensures { Reads (NumberWord ∷ []) (λ number. value.Number number ∷ [])
        (map (λ word. word.now) words.now) result }
{
    word::number(one(words)?)
}

pub(crate) fn handle(words: &[&[u8]]) -> Result<u64, LineFault>
    ensures { Reads (HandleWord ∷ []) (λ handle. value.Handle handle ∷ [])
        (map (λ word. word.now) words.now) result }
{
    word::handle(one(words)?)
}

pub(crate) fn moment(words: &[&[u8]]) -> Result<Moment, LineFault>
    ensures { Reads (MomentWord ∷ []) (λ moment. value.Moment moment ∷ [])
        (map (λ word. word.now) words.now) result }
{
    word::moment(one(words)?)
}

pub(crate) fn name(alloc: Global, words: &[&[u8]]) -> Result<KeptName, LineFault>
    ensures { Reads (NameWord ∷ []) (λ name. value.Name name ∷ [])
        (map (λ word. word.now) words.now) result }
{
    let name = word::name(one(words)?)?;
    Ok(KeptName::new(alloc, name)?)
}

pub(crate) fn path(alloc: Global, words: &[&[u8]]) -> Result<Path, LineFault>
    ensures { Reads (PathWord ∷ []) (λ path. value.Path path ∷ [])
        (map (λ word. word.now) words.now) result }
{
    word::path(alloc, one(words)?)
}

pub(crate) fn bytes(alloc: Global, words: &[&[u8]]) -> Result<ByteList, LineFault>
    ensures { Reads (BytesWord ∷ []) (λ bytes. value.Bytes bytes ∷ [])
        (map (λ word. word.now) words.now) result }
{
    word::bytes(alloc, one(words)?)
}

pub(crate) fn tagged(alloc: Global, words: &[&[u8]]) -> Result<TaggedPath, LineFault>
    ensures { Reads (TaggedWord ∷ []) (λ tagged. value.Tagged tagged ∷ [])
        (map (λ word. word.now) words.now) result }
{
    word::tagged(alloc, one(words)?)
}

pub(crate) fn path_at(alloc: Global, words: &[&[u8]]) -> Result<PathAt, LineFault>
    ensures { Reads (TimedWord ∷ []) (λ path_at. value.Timed path_at ∷ [])
        (map (λ word. word.now) words.now) result }
{
    word::path_at(alloc, one(words)?)
}

pub(crate) fn source(alloc: Global, words: &[&[u8]]) -> Result<Source, LineFault>
    ensures { Reads (SourceWord ∷ []) (λ source. value.Source source ∷ [])
        (map (λ word. word.now) words.now) result }
{
    word::source(alloc, one(words)?)
}

pub(crate) fn handle_and_number(words: &[&[u8]]) -> Result<(u64, u64), LineFault>
    ensures { Reads (HandleWord ∷ NumberWord ∷ [])
        (λ both. value.Handle both.0 ∷ value.Number both.1 ∷ [])
        (map (λ word. word.now) words.now) result }
{
    let (first, second) = two(words)?;
    let first = word::handle(first)?;
    Ok((first, word::number(second)?))
}

pub(crate) fn two_paths(alloc: Global, words: &[&[u8]]) -> Result<(Path, Path), LineFault>
    ensures { Reads (PathWord ∷ PathWord ∷ [])
        (λ both. value.Path both.0 ∷ value.Path both.1 ∷ [])
        (map (λ word. word.now) words.now) result }
{
    let (first, second) = two(words)?;
    let first = word::path(alloc, first)?;
    Ok((first, word::path(alloc, second)?))
}

pub(crate) fn path_and_version(alloc: Global, words: &[&[u8]]) -> Result<(Path, u64), LineFault>
    ensures { Reads (PathWord ∷ VersionWord ∷ [])
        (λ both. value.Path both.0 ∷ value.Version both.1 ∷ [])
        (map (λ word. word.now) words.now) result }
{
    let (first, second) = two(words)?;
    let first = word::path(alloc, first)?;
    Ok((first, word::version(second)?))
}

pub(crate) fn path_and_bytes(alloc: Global, words: &[&[u8]]) -> Result<(Path, ByteList), LineFault>
    ensures { Reads (PathWord ∷ BytesWord ∷ [])
        (λ both. value.Path both.0 ∷ value.Bytes both.1 ∷ [])
        (map (λ word. word.now) words.now) result }
{
    let (first, second) = two(words)?;
    let first = word::path(alloc, first)?;
    Ok((first, word::bytes(alloc, second)?))
}

pub(crate) fn path_and_moment(alloc: Global, words: &[&[u8]]) -> Result<(Path, Moment), LineFault>
    ensures { Reads (PathWord ∷ MomentWord ∷ [])
        (λ both. value.Path both.0 ∷ value.Moment both.1 ∷ [])
        (map (λ word. word.now) words.now) result }
{
    let (first, second) = two(words)?;
    let first = word::path(alloc, first)?;
    Ok((first, word::moment(second)?))
}

pub(crate) fn path_and_policy(
    alloc: Global,
    words: &[&[u8]],
) -> Result<(Path, Boxed<Policy>), LineFault>
    ensures { Reads (PathWord ∷ PolicyWord ∷ [])
        (λ both. value.Path both.0 ∷ value.Policy both.1 ∷ [])
        (map (λ word. word.now) words.now) result }
{
    let (first, second) = two(words)?;
    let first = word::path(alloc, first)?;
    let second = word::policy(second)?;
    Ok((first, Boxed::new(alloc, second)?))
}

pub(crate) fn name_and_path(alloc: Global, words: &[&[u8]]) -> Result<(KeptName, Path), LineFault>
    ensures { Reads (NameWord ∷ PathWord ∷ [])
        (λ both. value.Name both.0 ∷ value.Path both.1 ∷ [])
        (map (λ word. word.now) words.now) result }
{
    let (first, second) = two(words)?;
    let first = word::name(first)?;
    let second = word::path(alloc, second)?;
    Ok((KeptName::new(alloc, first)?, second))
}

pub(crate) fn name_and_moment(
    alloc: Global,
    words: &[&[u8]],
) -> Result<(KeptName, Moment), LineFault>
    ensures { Reads (NameWord ∷ MomentWord ∷ [])
        (λ both. value.Name both.0 ∷ value.Moment both.1 ∷ [])
        (map (λ word. word.now) words.now) result }
{
    let (first, second) = two(words)?;
    let first = word::name(first)?;
    let second = word::moment(second)?;
    Ok((KeptName::new(alloc, first)?, second))
}

pub(crate) fn two_moments(words: &[&[u8]]) -> Result<(Moment, Moment), LineFault>
    ensures { Reads (MomentWord ∷ MomentWord ∷ [])
        (λ both. value.Moment both.0 ∷ value.Moment both.1 ∷ [])
        (map (λ word. word.now) words.now) result }
{
    let (first, second) = two(words)?;
    let first = word::moment(first)?;
    Ok((first, word::moment(second)?))
}

pub(crate) fn two_moments_and_path(
    alloc: Global,
    words: &[&[u8]],
) -> Result<(Moment, Moment, Path), LineFault>
    ensures { Reads (MomentWord ∷ MomentWord ∷ PathWord ∷ [])
        (λ all. value.Moment all.0 ∷ value.Moment all.1 ∷ value.Path all.2 ∷ [])
        (map (λ word. word.now) words.now) result }
{
    let (first, second, third) = three(words)?;
    let first = word::moment(first)?;
    let second = word::moment(second)?;
    Ok((first, second, word::path(alloc, third)?))
}

pub(crate) fn name_moment_and_end(
    alloc: Global,
    words: &[&[u8]],
) -> Result<(KeptName, Moment, Moment), LineFault>
    ensures { Reads (NameWord ∷ MomentWord ∷ EndWord ∷ [])
        (λ all. value.Name all.0 ∷ value.Moment all.1 ∷ value.End all.2 ∷ [])
        (map (λ word. word.now) words.now) result }
{
    let (first, second, third) = three(words)?;
    let first = word::name(first)?;
    let second = word::moment(second)?;
    let third = word::end(third)?;
    Ok((KeptName::new(alloc, first)?, second, third))
}

pub(crate) fn handle_number_and_bytes(
    alloc: Global,
    words: &[&[u8]],
) -> Result<(u64, u64, ByteList), LineFault>
    ensures { Reads (HandleWord ∷ NumberWord ∷ BytesWord ∷ [])
        (λ all. value.Handle all.0 ∷ value.Number all.1 ∷ value.Bytes all.2 ∷ [])
        (map (λ word. word.now) words.now) result }
{
    let (first, second, third) = three(words)?;
    let first = word::handle(first)?;
    let second = word::number(second)?;
    Ok((first, second, word::bytes(alloc, third)?))
}
