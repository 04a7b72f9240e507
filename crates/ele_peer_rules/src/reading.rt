//! Rules in text. A contract sees a word as its bytes.
ghost use Rattle.std.specs.Prelude.{◌≡◌, List, Ok, Some, IfOk, IfErr, IfSome, true, false, if◌then◌else◌};
ghost use Rattle.ele_rule_parts.specs.declared.part.Limit.{Limit};
ghost use Rattle.ele_rule_parts.specs.declared.part.Part.{Part};
ghost use Rattle.ele_peer_rules.specs.declared.tool.Tool.{Tool};
ghost use Rattle.ele_peer_rules.specs.Words.{MeansRule, SpellsLimit, SpellsOption, SpellsPart, SpellsParts, has_rank, is_all, means_all};
ghost use Rattle.ele_rule_parts.specs.Marked.{is_mark};
ghost use Rattle.ele_btrbk_rules.specs.Items.{SpellsItem, item_of};
ghost use Rattle.ele_peer_rules.specs.Faults.{IsFault, IsFirstWrong, wrong_item, wrong_of, wrong_option};
ghost use Rattle.std.specs.List.{slice_split};

use crate::length::{read_reach, read_rows};
use crate::limit::rank_of;
use crate::names::{slot_of, tool_of};
use crate::rule::{MOST_PARTS, PeerRule};
use crate::tool::Tool;
use arrayvec::ArrayVec;
use ele_btrbk_rules::{Item, item_of, read_item};
use ele_rule_parts::{Limit, Part, cut_at};
use thiserror::Error;

/// What is wrong with a word that means no rule.
#[derive(Clone, Copy, Debug, PartialEq, Eq, Error)]
pub enum Wrong {
    /// No colon follows a tool's name.
    #[error("a rule is a tool, a colon and options, as restic:keep-daily=7")]
    NoTool,
    /// The tool has no rules here.
    #[error("a rule's tool is restic, restic-0.15, borg, btrbk, snapper or sanoid")]
    UnknownTool,
    /// The option has no equals sign.
    #[error("an option is its name, an equals sign and a value, as keep-daily=7")]
    NoValue,
    /// The tool hasn't this option.
    #[error("the tool has no such option")]
    UnknownOption,
    /// The value isn't a number from 1 on, `unlimited` or `-1`, or to snapper and sanoid a number.
    #[error("a number of backups is from 1 on, or unlimited, and one of snapshots is from 0 on")]
    BadNumber,
    /// The value isn't a length of time as the tool writes it.
    #[error("a length of time is as 1y5m7d2h to restic, as 30d to borg, and in seconds to snapper")]
    BadLength,
    /// The value isn't one of btrbk's.
    #[error("btrbk keeps so many spans as 14d or *m, and at least 2d, latest or all; its weeks begin on monday or another day, its days at an hour from 0 to 23")]
    BadSchedule,
    /// An option before says the same.
    #[error("an option before says the same")]
    Twice,
}

/// Where a word that means no rule is wrong, and how.
#[derive(Clone, Copy, Debug, PartialEq, Eq)]
pub struct RuleFault {
    /// The number of the option, from 1; 0 for the tool.
    pub option: u64,
    pub wrong: Wrong,
}

/// Returns the rule that a word means, as `restic:keep-last=3,keep-within=1m`: a tool's name, a colon, and options of the
/// tool with a comma between each two. The tools are `restic`, `restic-0.15`, which is each version up to that one,
/// `borg`, `btrbk`, `snapper` and `sanoid`. `RuleFault` for every other word, with its first fault. It takes no memory.
pub fn read_rule(word: &[u8]) -> Result<PeerRule, RuleFault>
    ensures found { IfOk result (λ rule. MeansRule word.now rule.tool rule.parts.items) }
    ensures none { IfErr result (λ fault. (tool : Tool) (parts : List Part)
        → MeansRule word.now tool parts → ⊥) }
    ensures fault { IfErr result (IsFault word.now) }
{
    let Some((name, options)) = cut_at(b':', word) else {
        return Err(fault(0, Wrong::NoTool));
    };
    let Some(tool) = tool_of(name) else {
        return Err(fault(0, Wrong::UnknownTool));
    };
    match read_parts(tool, options) {
        Ok(parts) => Ok(PeerRule { tool, parts }),
        Err(fault) => Err(fault),
    }
}

fn fault(option: u64, wrong: Wrong) -> RuleFault
    ensures { result ≡ record { option = option; wrong = wrong } }
{
    RuleFault { option, wrong }
}

// The parts that options spell.
fn read_parts(tool: Tool, text: &[u8]) -> Result<ArrayVec<Part, MOST_PARTS>, RuleFault>
    ensures found { IfOk result (λ parts. SpellsParts tool text.now parts.items) }
    ensures none { IfErr result (λ fault. (parts : List Part) → SpellsParts tool text.now parts → ⊥) }
    ensures first { IfErr result (IsFirstWrong tool (slice_split (is_mark 44) text.now)) }
{
    let mut parts = ArrayVec::new();
    for option in text.split(|byte| *byte == b',') {
        let number = parts.len() as u64 + 1;
        let part = match read_part(tool, option) {
            Ok(part) => part,
            Err(wrong) => return Err(fault(number, wrong)),
        };
        if parts.is_full() {
            return Err(fault(number, Wrong::Twice));
        }
        if has_rank(rank_of(part), parts.as_slice()) {
            return Err(fault(number, Wrong::Twice));
        }
        parts.push(part);
    }
    Ok(parts)
}

// Whether one of the parts has the rank.
fn has_rank(rank: u8, parts: &[Part]) -> bool
    ensures { result ≡ has_rank rank parts.now }
{
    parts.iter().any(|part| rank_of(*part) == rank)
}

// The part that an option spells.
fn read_part(tool: Tool, option: &[u8]) -> Result<Part, Wrong>
    ensures found { IfOk result (SpellsPart tool option.now) }
    ensures only { (part : Part) → SpellsPart tool option.now part → result ≡ Ok part }
    ensures wrong { IfErr result (λ wrong. wrong ≡ wrong_of tool option.now) }
{
    match tool.ways() {
        Some(_) => read_option(tool, option),
        None => read_scheduled(option),
    }
}

// The part that an option of btrbk spells.
fn read_scheduled(option: &[u8]) -> Result<Part, Wrong>
    ensures found { IfOk result (SpellsItem option.now) }
    ensures only { (part : Part) → SpellsItem option.now part → result ≡ Ok part }
    ensures wrong { IfErr result (λ wrong. wrong ≡ wrong_item (item_of option.now)) }
{
    match read_item(option) {
        Some(part) => Ok(part),
        None => Err(wrong_item(item_of(option))),
    }
}

// What is wrong with an option of btrbk that spells no part.
fn wrong_item(item: Option<Item>) -> Wrong
    ensures { result ≡ wrong_item item }
{
    match item {
        Some(_) => Wrong::BadSchedule,
        None => Wrong::UnknownOption,
    }
}

// The part that a named option spells.
fn read_option(tool: Tool, option: &[u8]) -> Result<Part, Wrong>
    ensures found { IfOk result (SpellsOption tool option.now) }
    ensures only { (part : Part) → SpellsOption tool option.now part → result ≡ Ok part }
    ensures wrong { IfErr result (λ wrong. wrong ≡ wrong_option tool option.now) }
{
    let Some((name, value)) = cut_at(b'=', option) else {
        return Err(Wrong::NoValue);
    };
    let Some(slot) = slot_of(tool, name) else {
        return Err(Wrong::UnknownOption);
    };
    let Some(limit) = read_limit(tool, slot.within, value) else {
        return Err(bad_value(slot.within));
    };
    Ok(Part {
        span: slot.span,
        limit,
    })
}

// What is wrong with a value.
fn bad_value(within: bool) -> Wrong
    ensures { result ≡ (if within then Wrong.BadLength else Wrong.BadNumber) }
{
    if within {
        Wrong::BadLength
    } else {
        Wrong::BadNumber
    }
}

// The limit that a value spells.
fn read_limit(tool: Tool, within: bool, text: &[u8]) -> Option<Limit>
    ensures found { IfSome result (SpellsLimit tool within text.now) }
    ensures only { (limit : Limit) → SpellsLimit tool within text.now limit → result ≡ Some limit }
{
    if within {
        return within_limit(tool, text);
    }
    if means_all(tool, text) {
        return Some(Limit::All);
    }
    number_limit(tool, text)
}

// A length of time as a limit.
fn within_limit(tool: Tool, text: &[u8]) -> Option<Limit>
    ensures found { IfSome result (SpellsLimit tool true text.now) }
    ensures only { (limit : Limit) → SpellsLimit tool true text.now limit → result ≡ Some limit }
{
    match read_reach(tool, text) {
        Some(reach) => Some(Limit::Within(reach)),
        None => None,
    }
}

// A number as a limit, which the word for all isn't.
fn number_limit(tool: Tool, text: &[u8]) -> Option<Limit>
    requires { means_all tool text.now ≡ false }
    ensures found { IfSome result (SpellsLimit tool false text.now) }
    ensures only { (limit : Limit) → SpellsLimit tool false text.now limit → result ≡ Some limit }
{
    match read_rows(tool, text) {
        Some(number) => Some(Limit::Number(number)),
        None => None,
    }
}

// Whether the value means all rows to the tool.
fn means_all(tool: Tool, text: &[u8]) -> bool
    ensures { result ≡ means_all tool text.now }
{
    match tool {
        Tool::Restic | Tool::OldRestic | Tool::Borg => is_all(text),
        Tool::Snapper | Tool::Sanoid | Tool::Btrbk => false,
    }
}

// Whether the value is a word for all rows.
fn is_all(text: &[u8]) -> bool
    ensures { result ≡ is_all text.now }
{
    text == b"unlimited".as_slice() || text == b"-1".as_slice()
}
