//! Names of tools and of their options. A contract sees a name as its bytes.
ghost use Rattle.std.specs.Prelude.{◌≡◌};
ghost use Rattle.ele_peer_rules.specs.Words.{borg_slot, restic_slot, sanoid_slot, shared_slot, slot_of, snapper_slot, tool_of};

use crate::tool::Tool;
use ele_rule_parts::Span;

/// The spans that an option is about, and whether its value is a length of time.
#[derive(Clone, Copy)]
pub struct Slot {
    pub span: Span,
    pub within: bool,
}

/// The tool of a name.
pub(crate) fn tool_of(name: &[u8]) -> Option<Tool>
    ensures { result ≡ tool_of name.now }
{
    if name == b"restic".as_slice() {
        Some(Tool::Restic)
    } else if name == b"restic-0.15".as_slice() {
        Some(Tool::OldRestic)
    } else if name == b"borg".as_slice() {
        Some(Tool::Borg)
    } else if name == b"snapper".as_slice() {
        Some(Tool::Snapper)
    } else if name == b"sanoid".as_slice() {
        Some(Tool::Sanoid)
    } else if name == b"btrbk".as_slice() {
        Some(Tool::Btrbk)
    } else {
        None
    }
}

/// What an option of the tool is about.
pub(crate) fn slot_of(tool: Tool, name: &[u8]) -> Option<Slot>
    ensures { result ≡ slot_of tool name.now }
{
    match tool {
        Tool::Restic | Tool::OldRestic => shared_slot(name).or(restic_slot(name)),
        Tool::Borg => shared_slot(name).or(borg_slot(name)),
        Tool::Snapper => snapper_slot(name),
        Tool::Sanoid => sanoid_slot(name),
        Tool::Btrbk => None,
    }
}

// An option of restic and borg.
fn shared_slot(name: &[u8]) -> Option<Slot>
    ensures { result ≡ shared_slot name.now }
{
    if name == b"keep-within".as_slice() {
        Some(about(Span::Each, true))
    } else if name == b"keep-hourly".as_slice() {
        Some(about(Span::Hour, false))
    } else if name == b"keep-daily".as_slice() {
        Some(about(Span::Day, false))
    } else if name == b"keep-weekly".as_slice() {
        Some(about(Span::Week, false))
    } else if name == b"keep-monthly".as_slice() {
        Some(about(Span::Month, false))
    } else if name == b"keep-yearly".as_slice() {
        Some(about(Span::Year, false))
    } else {
        None
    }
}

// An option of restic alone.
fn restic_slot(name: &[u8]) -> Option<Slot>
    ensures { result ≡ restic_slot name.now }
{
    if name == b"keep-last".as_slice() {
        Some(about(Span::Each, false))
    } else if name == b"keep-within-hourly".as_slice() {
        Some(about(Span::Hour, true))
    } else if name == b"keep-within-daily".as_slice() {
        Some(about(Span::Day, true))
    } else if name == b"keep-within-weekly".as_slice() {
        Some(about(Span::Week, true))
    } else if name == b"keep-within-monthly".as_slice() {
        Some(about(Span::Month, true))
    } else if name == b"keep-within-yearly".as_slice() {
        Some(about(Span::Year, true))
    } else {
        None
    }
}

// An option of borg alone.
fn borg_slot(name: &[u8]) -> Option<Slot>
    ensures { result ≡ borg_slot name.now }
{
    if name == b"keep-last".as_slice() || name == b"keep-secondly".as_slice() {
        Some(about(Span::Second, false))
    } else if name == b"keep-minutely".as_slice() {
        Some(about(Span::Minute, false))
    } else {
        None
    }
}

// An option of snapper.
fn snapper_slot(name: &[u8]) -> Option<Slot>
    ensures { result ≡ snapper_slot name.now }
{
    if name == b"TIMELINE_MIN_AGE".as_slice() {
        Some(about(Span::Each, true))
    } else if name == b"TIMELINE_LIMIT_HOURLY".as_slice() {
        Some(about(Span::Hour, false))
    } else if name == b"TIMELINE_LIMIT_DAILY".as_slice() {
        Some(about(Span::Day, false))
    } else if name == b"TIMELINE_LIMIT_WEEKLY".as_slice() {
        Some(about(Span::Week, false))
    } else if name == b"TIMELINE_LIMIT_MONTHLY".as_slice() {
        Some(about(Span::Month, false))
    } else if name == b"TIMELINE_LIMIT_YEARLY".as_slice() {
        Some(about(Span::Year, false))
    } else {
        None
    }
}

// An option of sanoid.
fn sanoid_slot(name: &[u8]) -> Option<Slot>
    ensures { result ≡ sanoid_slot name.now }
{
    if name == b"frequently".as_slice() {
        Some(about(Span::Minute, false))
    } else if name == b"hourly".as_slice() {
        Some(about(Span::Hour, false))
    } else if name == b"daily".as_slice() {
        Some(about(Span::Day, false))
    } else if name == b"weekly".as_slice() {
        Some(about(Span::Week, false))
    } else if name == b"monthly".as_slice() {
        Some(about(Span::Month, false))
    } else if name == b"yearly".as_slice() {
        Some(about(Span::Year, false))
    } else {
        None
    }
}

fn about(span: Span, within: bool) -> Slot
    ensures { result ≡ record { span = span; within = within } }
{
    Slot { span, within }
}
