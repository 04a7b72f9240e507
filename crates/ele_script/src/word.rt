//! Readers of single words. A contract sees a word as its bytes, and what it spells as itself.
ghost use Rattle.std.specs.Prelude.{◌≡◌, ◌⊎◌, ℕ, true, Err, IfOk, IfErr, OnOk, IfSome, IfNone};
ghost use Rattle.ele_moment.specs.Number.{SpellsNumber};
ghost use Rattle.ele_moment.specs.Spelled.{SpellsMoment};
ghost use Rattle.ele_path.specs.Path.{SpellsPath};
ghost use Rattle.ele_path.specs.Tagged.{SpellsTaggedPath};
ghost use Rattle.ele_path.specs.PathAt.{SpellsPathAt};
ghost use Rattle.ele_script.specs.Value.{NumberWord, HandleWord, VersionWord, MomentWord, EndWord, NameWord, PathWord, TaggedWord, TimedWord, SourceWord, BytesWord, SpellsName, SpellsBytes, SpellsSource};
ghost use Rattle.ele_script.specs.PolicyWord.{ReadsPolicy, IsSafeWord, SpellsSafe};
ghost use Rattle.ele_script.specs.PathWord.{begins_path};
ghost use Rattle.ele_script.specs.FirstFault.{IsOfKind, IsWordFault};
ghost use Rattle.ele_script.specs.Memory.{word_takes};

use crate::pairs::{ladder_pairs, read_pair};
use ele_commands::WordKind;
use ele_model::{ByteList, Handle, Source};
use ele_moment::{Moment, Name, read_number};
use ele_path::{Path, PathAt, TaggedPath};
use ele_policy::{Floor, Interval, Ladder, Policy};
use ele_printer::LineFault;
use std::alloc::Global;

#[tactic(auto, using(crate::proofs::Behind::number_kind))]
pub(crate) fn number(word: &[u8]) -> Result<u64, LineFault>
    ensures found { IfOk result (SpellsNumber word.now) }
    ensures kind { OnOk result (IsOfKind NumberWord word.now) }
    ensures fault { IfErr result (IsWordFault NumberWord word.now) }
{
    read_number(word).ok_or(LineFault::Syntax)
}

#[tactic(auto, using(crate::proofs::Behind::handle_kind))]
pub(crate) fn handle(word: &[u8]) -> Result<u64, LineFault>
    ensures found { IfOk result (SpellsNumber word.now) }
    ensures kind { OnOk result (IsOfKind HandleWord word.now) }
    ensures fault { IfErr result (IsWordFault HandleWord word.now) }
{
    number(word)
}

#[tactic(auto, using(crate::proofs::Behind::version_kind))]
pub(crate) fn version(word: &[u8]) -> Result<u64, LineFault>
    ensures found { IfOk result (SpellsNumber word.now) }
    ensures kind { OnOk result (IsOfKind VersionWord word.now) }
    ensures fault { IfErr result (IsWordFault VersionWord word.now) }
{
    number(word)
}

#[tactic(auto, using(crate::proofs::Values::moment_fault, crate::proofs::Behind::moment_kind))]
pub(crate) fn moment(word: &[u8]) -> Result<Moment, LineFault>
    ensures found { IfOk result (SpellsMoment word.now) }
    ensures kind { OnOk result (IsOfKind MomentWord word.now) }
    ensures fault { IfErr result (IsWordFault MomentWord word.now) }
{
    Moment::read(word).ok().ok_or(LineFault::BadMoment)
}

// The moment at which a mark ends.
#[tactic(auto, using(crate::proofs::Behind::end_kind))]
pub(crate) fn end(word: &[u8]) -> Result<Moment, LineFault>
    ensures found { IfOk result (SpellsMoment word.now) }
    ensures kind { OnOk result (IsOfKind EndWord word.now) }
    ensures fault { IfErr result (IsWordFault EndWord word.now) }
{
    moment(word)
}

pub(crate) fn name(word: &[u8]) -> Result<Name, LineFault>
    ensures found { IfOk result (SpellsName word.now) }
    ensures kind { OnOk result (IsOfKind NameWord word.now) }
    ensures fault { IfErr result (IsWordFault NameWord word.now) }
{
    Ok(Name::new(word)?)
}

pub(crate) fn path(alloc: Global, word: &[u8]) -> Result<Path, LineFault>
    ensures found { IfOk result (SpellsPath word.now) }
    ensures kind { OnOk result (IsOfKind PathWord word.now) }
    ensures fault { IfErr result
        (λ fault. (fault ≡ LineFault.NoMemory) ⊎ IsWordFault PathWord word.now fault) }
{
    Ok(Path::read(alloc, word)?)
}

// A word that doesn't begin with a slash takes no memory.
pub(crate) fn tagged(alloc: Global, word: &[u8]) -> Result<TaggedPath, LineFault>
    ensures found { IfOk result (SpellsTaggedPath word.now) }
    ensures fault { IfErr result
        (λ fault. (fault ≡ LineFault.NoMemory) ⊎ IsWordFault TaggedWord word.now fault) }
    ensures memory { result ≡ Err LineFault.NoMemory → begins_path word.now ≡ true }
{
    if !begins_path(word) {
        return Err(LineFault::BadPath);
    }
    Ok(TaggedPath::read(alloc, word)?)
}

pub(crate) fn path_at(alloc: Global, word: &[u8]) -> Result<PathAt, LineFault>
    ensures found { IfOk result (SpellsPathAt word.now) }
    ensures fault { IfErr result
        (λ fault. (fault ≡ LineFault.NoMemory) ⊎ IsWordFault TimedWord word.now fault) }
{
    Ok(PathAt::read(alloc, word)?)
}

// A path with a tag, if the word begins with a slash, or else a handle.
#[tactic(auto, using(std::proofs::lemmas::Result::err_from_is_err_and, std::proofs::Common::inr, crate::proofs::Behind::bad_handle))]
pub(crate) fn source(alloc: Global, word: &[u8]) -> Result<Source, LineFault>
    ensures found { IfOk result (SpellsSource word.now) }
    ensures fault { IfErr result
        (λ fault. (fault ≡ LineFault.NoMemory) ⊎ IsWordFault SourceWord word.now fault) }
    ensures memory { result ≡ Err LineFault.NoMemory → begins_path word.now ≡ true }
{
    if begins_path(word) {
        return Ok(Source::Tagged(tagged(alloc, word)?));
    }
    Ok(Source::Of(Handle(number(word)?)))
}

/// Checks that a word is of the kind. The error is the fault of the word, or `NoMemory` if reading
/// the word takes memory.
pub fn check_word(alloc: Global, kind: WordKind, word: &[u8]) -> Result<(), LineFault>
    ensures kind { OnOk result (IsOfKind kind word.now) }
    ensures fault { IfErr result
        (λ fault. (fault ≡ LineFault.NoMemory) ⊎ IsWordFault kind word.now fault) }
    ensures memory { result ≡ Err LineFault.NoMemory → word_takes kind word.now ≡ true }
{
    match kind {
        WordKind::Number => {
            number(word)?;
        }
        WordKind::Handle => {
            handle(word)?;
        }
        WordKind::Version => {
            version(word)?;
        }
        WordKind::Moment => {
            moment(word)?;
        }
        WordKind::End => {
            end(word)?;
        }
        WordKind::Name => {
            name(word)?;
        }
        WordKind::Path => {
            path(alloc, word)?;
        }
        WordKind::Tagged => {
            tagged(alloc, word)?;
        }
        WordKind::Timed => {
            path_at(alloc, word)?;
        }
        WordKind::Source => {
            source(alloc, word)?;
        }
        WordKind::Bytes => {
            bytes(alloc, word)?;
        }
        WordKind::Policy => {
            policy(word)?;
        }
    }
    Ok(())
}

/// Returns whether the word begins with a slash.
pub fn begins_path(word: &[u8]) -> bool
    ensures { result ≡ begins_path word.now }
{
    match word {
        [first, ..] => *first == b'/',
        [] => false,
    }
}

// `-` for none, or hexadecimal digits.
pub(crate) fn bytes(alloc: Global, word: &[u8]) -> Result<ByteList, LineFault>
    ensures found { IfOk result (SpellsBytes word.now) }
    ensures fault { IfErr result
        (λ fault. (fault ≡ LineFault.NoMemory) ⊎ IsWordFault BytesWord word.now fault) }
{
    if word == b"-".as_slice() {
        return Ok(ByteList::new(alloc));
    }
    if word.is_empty() {
        return Err(LineFault::Syntax);
    }
    match hex::decode(alloc, word) {
        Ok(bytes) => Ok(ByteList::from_vec(bytes)),
        Err(hex::FromHexError::OutOfMemory) => Err(LineFault::NoMemory),
        Err(_) => Err(LineFault::Syntax),
    }
}

/// Reads the word of a policy. The error is `Syntax` if the word has the form of no policy, and
/// `BadLadder` if its numbers are those of none.
pub fn policy(word: &[u8]) -> Result<Policy, LineFault>
    ensures { ReadsPolicy word.now result }
{
    if word == b"one".as_slice() {
        return Ok(Policy::One);
    }
    if word == b"all".as_slice() {
        return Ok(Policy::All);
    }
    if let Some((seconds, floor)) = safe_numbers(word) {
        return Ok(Policy::Safe(Interval::new(seconds)?, Floor::new(floor)?));
    }
    let Some(pairs) = ladder_pairs(word) else {
        return Err(LineFault::Syntax);
    };
    Ok(Policy::Landmarks(Ladder::new(pairs.as_slice())?))
}

/// Returns the seconds and the floor of a word of the form `safe:SECONDS` or `safe:SECONDS/FLOOR`,
/// and `None` for any other word. They may be those of no policy. A floor that isn't given is 0.
pub fn safe_numbers(word: &[u8]) -> Option<(u64, u64)>
    ensures some { IfSome result (λ numbers. IsSafeWord word.now numbers.0 numbers.1) }
    ensures none { IfNone result ((seconds floor : ℕ) → ¬ IsSafeWord word.now seconds floor) }
{
    read_safe(word.strip_prefix(b"safe:")?)
}

// Reads seconds, or seconds, a slash and a floor.
fn read_safe(text: &[u8]) -> Option<(u64, u64)>
    ensures some { IfSome result (λ numbers. SpellsSafe text.now numbers.0 numbers.1) }
    ensures none { IfNone result ((seconds floor : ℕ) → ¬ SpellsSafe text.now seconds floor) }
{
    match read_number(text) {
        Some(seconds) => Some((seconds, Floor::NONE.number())),
        None => read_pair(text),
    }
}
