//! The rules of other tools that the matches of a forecast name, and its clock.
//! A contract sees each word as what it means or spells.
ghost use Rattle.std.specs.Prelude.{◌≡◌, ◌↔◌, ◌||◌, ◌∷◌, [], IfErr, IfOk, IsOk, codes, map, not, true};
ghost use Rattle.std.specs.List.{AllZip, list_any};
ghost use Rattle.std.specs.Option.{option_map};
ghost use Rattle.ele_invocation.specs.Forecasts.{AsksRule, IsClock, needs_labels, policies_beside};
ghost use Rattle.ele_invocation.specs.Invocation.{IsRefusal};
ghost use Rattle.ele_invocation.specs.Unread.{NoneAsks};
ghost use Rattle.clap.specs.Words.{first_of, found_of, rows_of};

use crate::invocation::{Invocation, not_understood};
use crate::matches::value_of;
use crate::reading::Unread;
use clap::ArgMatches;
use ele_peer_rules::{RuleFault, read_rule};
use ele_rule_forecast::AskedRule;
use ele_tool_words::{Offset, read_offset};
use std::alloc::{AllocError, Global};

const BAD_OFFSET: &str = "error: --offset takes an offset from UTC, as +05:30; write \
    --offset=-05:00 for one behind UTC\n\n\
    For more information, try 'elephant forecast --help'.\n";

const NO_LABELS: &str =
    "error: a rule of sanoid takes --labels, which are the names of snapshots\n\n\
    For more information, try 'elephant forecast --help'.\n";

/// Returns the words of policies. Beside rules alone they are these, and a suggestion has none.
pub(crate) fn policy_words<'w>(
    suggested: bool,
    rules: &[&str],
    given: Option<&'w [&'w str]>,
    alone: &'w [&'w str],
) -> Option<&'w [&'w str]>
    requires { map (λ word. word.now) alone.now ≡ codes "all" ∷ [] }
    ensures { option_map (λ words. map (λ word. word.now) words.now) result
        ≡ policies_beside suggested (map (λ word. word.now) rules.now)
        (option_map (λ words. map (λ word. word.now) words.now) given.entry) }
{
    match given {
        Some(words) => Some(words),
        None if suggested => Some(&[]),
        None => match rules {
            [] => None,
            [_, ..] => Some(alone),
        },
    }
}

/// Refuses a rule that tells versions by their labels, if they have none.
#[tactic(auto, using(crate::proofs::Spelled::any_map))]
pub(crate) fn check_labels(labels: bool, rules: &[&str]) -> Result<(), Unread>
    ensures { IsOk result ↔ ((labels
        || not (list_any needs_labels (map (λ word. word.now) rules.now))) ≡ true) }
{
    if labels || !some_needs_labels(rules) {
        return Ok(());
    }
    Err(Unread::Because(NO_LABELS))
}

// Whether one of the rules tells versions by their labels.
fn some_needs_labels(rules: &[&str]) -> bool
    ensures { result ≡ list_any (λ word. needs_labels word.now) rules.now }
{
    rules.iter().any(|word| needs_labels(word))
}

// Whether a rule tells versions by their labels.
fn needs_labels(word: &str) -> bool
    ensures { result ≡ needs_labels word.now }
{
    word.as_bytes().starts_with(b"sanoid:")
}

/// Returns the rules that the words mean.
pub(crate) fn rules_in(alloc: Global, words: &[&str]) -> Result<Vec<AskedRule>, Unread>
    ensures read { IfOk result (λ rules. AllZip AsksRule
        (map (λ word. word.now) words.now) rules.items) }
    ensures unread { IfErr result (NoneAsks (AllZip AsksRule
        (map (λ word. word.now) words.now))) }
{
    let mut rules = Vec::new(alloc);
    for word in words {
        let rule = match rule_of(alloc, word) {
            Ok(rule) => rule,
            Err(why) => return Err(why),
        };
        rules.push(rule)?;
    }
    Ok(rules)
}

// Returns the rule that a word means.
fn rule_of(alloc: Global, word: &str) -> Result<AskedRule, Unread>
    ensures read { IfOk result (AsksRule word.now) }
    ensures unread { IfErr result (NoneAsks (AsksRule word.now)) }
{
    let rule = match read_rule(word.as_bytes()) {
        Ok(rule) => rule,
        Err(fault) => return Err(Unread::BadRule(fault)),
    };
    let mut name = Vec::new(alloc);
    name.extend_from_slice(word.as_bytes())?;
    Ok(AskedRule { word: name, rule })
}

/// Returns the clock of times that name no offset, if one is given.
pub(crate) fn clock_in(forecast: &ArgMatches) -> Result<Option<Offset>, Unread>
    ensures read { IfOk result (IsClock (first_of (codes "offset") (rows_of (found_of forecast.now)))) }
    ensures unread { IfErr result (NoneAsks (IsClock (first_of (codes "offset")
        (rows_of (found_of forecast.now))))) }
{
    let Some(word) = value_of(forecast, "offset") else {
        return Ok(None);
    };
    match read_offset(word.as_bytes()) {
        Some(clock) => Ok(Some(clock)),
        None => Err(Unread::Because(BAD_OFFSET)),
    }
}

/// Returns the refusal of a rule with this fault.
pub(crate) fn bad_rule(alloc: Global, fault: RuleFault) -> Invocation
    ensures { IsRefusal result }
{
    match rule_message(alloc, fault) {
        Ok(text) => Invocation::NotUnderstood(text),
        Err(_) => Invocation::NoMemory,
    }
}

// Returns the message for a rule with this fault.
fn rule_message(alloc: Global, fault: RuleFault) -> Result<String, AllocError> {
    let why = fault.wrong;
    if fault.option == 0 {
        return format!(in alloc;
            "error: --rule: {why}\n\nFor more information, try 'elephant forecast --help'.\n"
        );
    }
    let option = fault.option;
    format!(in alloc;
        "error: option {option} of --rule: {why}\n\nFor more information, try 'elephant forecast --help'.\n"
    )
}
