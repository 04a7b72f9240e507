//! Verdicts of rules: which versions a rule keeps at a moment. A contract sees rows, reasons and numbers as lists.
ghost use Rattle.std.specs.Prelude.{◌≡◌, ◌≤◌, ◌<◌, ◌-◌, ◌++◌, Some, IfOk, OnOk, length, slice_get};
ghost use Rattle.ele_rule_forecast.specs.Judged.{AreJudged, AreVerdicts, IsJudged, IsVerdict, at_newest, count_by, judged_at, number_if, numbers_of, reason_in, reasons_of, rows_by};

use ele_forecast_text::Staying;
use ele_moment::{Moment, NoMemory, VersionNo};
use ele_peer_rules::{PeerRule, Reason, Row};
use std::alloc::Global;

/// A rule of another tool, with the word by which it was given.
#[derive(Drop)]
pub struct AskedRule {
    pub word: Vec<u8>,
    pub rule: PeerRule,
}

/// What a rule keeps at a moment.
#[derive(Drop)]
pub struct Verdict {
    /// What keeps each version that has closed by then, if something does.
    pub reasons: Vec<Option<Reason>>,
    /// The versions that are kept.
    pub staying: Staying,
}

/// What a rule keeps at each of some moments.
#[derive(Drop)]
pub struct Judged {
    /// The word by which the rule was given.
    pub word: Vec<u8>,
    pub verdicts: Vec<Verdict>,
}

/// Returns what each rule keeps of the versions with these rows, which are in order of time: at each of the moments, or
/// without moments at that of the newest version. `NoMemory` if memory is refused.
/// Cost: for each rule and moment, one pass over the rows for each part of the rule.
pub fn judge(
    alloc: Global,
    rules: &[AskedRule],
    rows: &[Row],
    moments: &[Moment],
) -> Result<Vec<Judged>, NoMemory>
    ensures { IfOk result (λ judged. AreJudged rules.now rows.now moments.now judged.items) }
{
    let mut judged = Vec::new(alloc);
    for rule in rules {
        judged.push(judge_by(alloc, rule, rows, moments)?)?;
    }
    Ok(judged)
}

// What the rule keeps.
fn judge_by(
    alloc: Global,
    rule: &AskedRule,
    rows: &[Row],
    moments: &[Moment],
) -> Result<Judged, NoMemory>
    ensures { IfOk result (IsJudged rule.now rows.now moments.now) }
{
    let mut word = Vec::new(alloc);
    word.extend_from_slice(rule.word.as_slice())?;
    let verdicts = verdicts_of(alloc, &rule.rule, rows, moments)?;
    Ok(Judged { word, verdicts })
}

// What the rule keeps at each of the moments, or at the newest row's if there are none.
fn verdicts_of(
    alloc: Global,
    rule: &PeerRule,
    rows: &[Row],
    moments: &[Moment],
) -> Result<Vec<Verdict>, NoMemory>
    ensures { IfOk result (λ verdicts. AreVerdicts rule.now rows.now (judged_at moments.now rows.now) verdicts.items) }
{
    if moments.is_empty() {
        return verdict_at_newest(alloc, rule, rows);
    }
    verdicts_at(alloc, rule, rows, moments)
}

// What the rule keeps at the moment of the newest row, if there is one.
fn verdict_at_newest(alloc: Global, rule: &PeerRule, rows: &[Row]) -> Result<Vec<Verdict>, NoMemory>
    ensures { IfOk result (λ verdicts. AreVerdicts rule.now rows.now
        (at_newest (slice_get rows.now (length rows.now - 1))) verdicts.items) }
{
    match rows.last() {
        Some(row) => verdicts_at(alloc, rule, rows, &[row.moment]),
        None => verdicts_at(alloc, rule, rows, &[]),
    }
}

// What the rule keeps at each of the moments.
fn verdicts_at(
    alloc: Global,
    rule: &PeerRule,
    rows: &[Row],
    moments: &[Moment],
) -> Result<Vec<Verdict>, NoMemory>
    ensures { IfOk result (λ verdicts. AreVerdicts rule.now rows.now moments.now verdicts.items) }
{
    let mut verdicts = Vec::new(alloc);
    for at in moments {
        verdicts.push(verdict_of(alloc, rule, rows, *at)?)?;
    }
    Ok(verdicts)
}

// What the rule keeps at the moment.
fn verdict_of(alloc: Global, rule: &PeerRule, rows: &[Row], at: Moment) -> Result<Verdict, NoMemory>
    ensures { IfOk result (IsVerdict rule.now rows.now at) }
{
    let reasons = rule.kept(alloc, at, rows_by(at, rows))?;
    let numbers = numbers_of(alloc, reasons.as_slice())?;
    let staying = Staying { at, numbers };
    Ok(Verdict { reasons, staying })
}

// The rows of versions that have closed by the moment, which are the first ones.
fn rows_by(at: Moment, rows: &[Row]) -> &[Row]
    ensures { result.now ≡ rows_by at rows.now }
{
    rows.split_at(count_by(at, rows)).0
}

// How many versions have closed by the moment.
fn count_by(at: Moment, rows: &[Row]) -> usize
    ensures count { result ≡ count_by at rows.now }
    ensures bound { result ≤ length rows.now }
{
    let now = at.seconds();
    rows.iter()
        .filter(|row| row.moment.seconds() <= now)
        .count()
}

// The numbers of the versions that are kept.
fn numbers_of(alloc: Global, reasons: &[Option<Reason>]) -> Result<Vec<VersionNo>, NoMemory>
    ensures { IfOk result (λ numbers. numbers.items ≡ numbers_of reasons.now) }
{
    let mut numbers = Vec::new(alloc);
    for place in 0..reasons.len() {
        let number = VersionNo(place as u64 + 1);
        add_if_kept(&mut numbers, number, reason_at(reasons, place))?;
    }
    Ok(numbers)
}

// What keeps the version at that place, if something does.
fn reason_at(reasons: &[Option<Reason>], place: usize) -> Option<Reason>
    requires { place < length reasons.now }
    ensures { slice_get reasons.now place ≡ Some result }
{
    reasons[place]
}

// Adds the number of a version, if something keeps it.
fn add_if_kept(
    numbers: &mut Vec<VersionNo>,
    number: VersionNo,
    reason: Option<Reason>,
) -> Result<(), NoMemory>
    ensures { OnOk result (numbers.new.items ≡ numbers.old.items ++ number_if number reason) }
{
    if reason.is_some() {
        numbers.push(number)?;
    }
    Ok(())
}

/// What keeps the version of that number at the first of the moments, if something does.
pub(crate) fn reason_in(judged: &Judged, number: VersionNo) -> Option<Reason>
    ensures { result ≡ reason_in judged.now number }
{
    match reasons_of(judged).get(number.before().0 as usize) {
        Some(reason) => *reason,
        None => None,
    }
}

// What keeps each version at the first of the moments.
fn reasons_of(judged: &Judged) -> &[Option<Reason>]
    ensures { result.now ≡ reasons_of judged.now.verdicts.items }
{
    match judged.verdicts.first() {
        Some(verdict) => verdict.reasons.as_slice(),
        None => &[],
    }
}
