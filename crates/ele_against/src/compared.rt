//! Compares the versions that a forecast keeps at a moment with the labels that another tool keeps. A contract sees them as
//! lists of numbers.
ghost use Rattle.std.specs.Prelude.{◌≡◌, ◌++◌, ℕ, List, IfOk, OnOk};
ghost use Rattle.ele_forecast_text.specs.Labels.{name_of};
ghost use Rattle.ele_against.specs.Compared.{IsCompared, is_among, is_wanted, line_if, unknown_from};
ghost use Rattle.ele_against.specs.Names.{chosen_in, has};

use crate::names::Names;
use ele_forecast::Forecast;
use ele_forecast_text::{Label, Staying, listed_at, name_of};
use ele_moment::{Moment, NoMemory, VersionNo};
use itoa::Buffer;
use std::alloc::Global;

/// The versions of a list at a moment, by who keeps them.
#[derive(Drop)]
pub struct Compared {
    /// Those that the forecast and the other tool keep.
    pub both: Staying,
    /// Those that only the forecast keeps.
    pub here: Staying,
    /// Those that only the other tool keeps.
    pub there: Staying,
    /// The lines of the other tool's labels, counted from 1, that are no label of a version.
    pub unknown: Vec<u64>,
}

/// Returns which of the versions are kept at the moment of the staying, which of them have one of the other labels, and
/// which of those labels no version has. Each version has a label. `NoMemory` if memory is refused.
/// Cost: one pass over the versions and one over the other labels.
#[tactic(auto, using(crate::proofs::NamesMore::chosen_same))]
pub fn compare(
    alloc: Global,
    labels: &[Label],
    forecasts: &[Forecast],
    staying: &Staying,
    others: &[Label],
) -> Result<Compared, NoMemory>
    ensures { IfOk result (IsCompared labels.now forecasts.now staying.now others.now) }
{
    let names = names_in(alloc, others)?;
    let kept = listed_at(alloc, true, forecasts, staying)?;
    let removed = listed_at(alloc, false, forecasts, staying)?;
    let both = chosen(alloc, true, &names, labels, kept.as_slice())?;
    let here = chosen(alloc, false, &names, labels, kept.as_slice())?;
    let there = chosen(alloc, true, &names, labels, removed.as_slice())?;
    Ok(Compared {
        both: staying_of(staying.at, both),
        here: staying_of(staying.at, here),
        there: staying_of(staying.at, there),
        unknown: unknown_in(alloc, labels, others)?,
    })
}

fn staying_of(at: Moment, numbers: Vec<VersionNo>) -> Staying
    ensures at { result.at ≡ at }
    ensures numbers { result.numbers.items ≡ numbers.items }
{
    Staying { at, numbers }
}

// The names that labels are.
fn names_in(alloc: Global, labels: &[Label]) -> Result<Names<'_>, NoMemory>
    ensures { IfOk result (λ names. (text : List ℕ) → has names text ≡ is_among labels.now text) }
{
    let mut names = Names::new(alloc);
    for label in labels {
        names.add(label.text.as_slice())?;
    }
    Ok(names)
}

// The versions whose labels are there, or aren't if `named` is false.
fn chosen(
    alloc: Global,
    named: bool,
    names: &Names<'_>,
    labels: &[Label],
    numbers: &[VersionNo],
) -> Result<Vec<VersionNo>, NoMemory>
    ensures { IfOk result (λ chosen. chosen.items ≡ chosen_in named names.now labels.now numbers.now) }
{
    let mut chosen = Vec::new(alloc);
    for number in numbers {
        if is_wanted(named, is_named(names, labels, *number)) {
            chosen.push(*number)?;
        }
    }
    Ok(chosen)
}

fn is_wanted(named: bool, is_named: bool) -> bool
    ensures { result ≡ is_wanted named is_named }
{
    named == is_named
}

// Whether the label of a version is there.
fn is_named(names: &Names<'_>, labels: &[Label], number: VersionNo) -> bool
    ensures { result ≡ has names.now (name_of labels.now number) }
{
    let mut digits = Buffer::new();
    names.has(name_of(labels, number, &mut digits))
}

// The lines of the others that are no label of a version.
fn unknown_in(alloc: Global, labels: &[Label], others: &[Label]) -> Result<Vec<u64>, NoMemory>
    ensures { IfOk result (λ lines. lines.items ≡ unknown_from labels.now 1 others.now) }
{
    let names = names_in(alloc, labels)?;
    let mut lines = Vec::new(alloc);
    for place in 0..others.len() {
        let other = &others[place];
        let is_known = names.has(other.text.as_slice());
        add_if_unknown(&mut lines, is_known, place as u64 + 1)?;
    }
    Ok(lines)
}

// Adds a line that is no label of a version.
fn add_if_unknown(lines: &mut Vec<u64>, is_known: bool, line: u64) -> Result<(), NoMemory>
    ensures { OnOk result (lines.new.items ≡ lines.old.items ++ line_if is_known line) }
{
    if !is_known {
        lines.push(line)?;
    }
    Ok(())
}
